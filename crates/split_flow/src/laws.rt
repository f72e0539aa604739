//! The laws of flows through a split graph, each the contract of a function that does nothing.

ghost use Rattle.split_flow.specs.Laws.{MovedIsFeasible, SaturatedIsSolved, MissingAtMostLeaving};

/// Units that were moved through the split graph of a level are a feasible flow.
pub fn moved_is_feasible()
    ensures { MovedIsFeasible }
{}

/// Once no more can be moved to the supersink, the flow is greatest, and what can still be reached gives a cut of equal value.
pub fn saturated_is_solved()
    ensures { SaturatedIsSolved }
{}

/// What another flow sends more than this one is at most what may still leave any set that has the source and not the supersink.
pub fn missing_at_most_leaving()
    ensures { MissingAtMostLeaving }
{}
