//! The laws of phases, each the contract of a function that does nothing.

ghost use Rattle.layers.specs.Laws.{DistanceRises, FewAreMissing, LayerCut, PhasesAreFew, StepsAreFew, WaysAreLonger, WideStarIsBounded};

/// Once no shortest way is left, every way to the supersink is longer.
pub fn ways_are_longer()
    ensures { WaysAreLonger }
{}

/// The residual distance of the supersink rises with each phase.
pub fn distance_rises()
    ensures { DistanceRises }
{}

/// Where the supersink is far, little can leave a set up to one of the first layers: at most an even part of all capacities.
pub fn layer_cut()
    ensures { LayerCut }
{}

/// So no flow sends more than that part above what was sent.
pub fn few_are_missing()
    ensures { FewAreMissing }
{}

/// So phases are few: at most `phase_bound` of all capacities, some twice their square root.
pub fn phases_are_few()
    ensures { PhasesAreFew }
{}

/// And with phases their steps.
pub fn steps_are_few()
    ensures { StepsAreFew }
{}

/// What that is where one seed certifies all others.
pub fn wide_star_is_bounded()
    ensures { WideStarIsBounded }
{}
