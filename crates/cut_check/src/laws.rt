//! What holds of all verdicts, as the contract of a function that does nothing.

ghost use Rattle.cut_check.specs.Laws.{ProvenIsPassed};

/// A flow and a cut that prove whom they serve get no verdict but `greatest`, with as many as are served.
pub fn proven_is_passed()
    ensures { ProvenIsPassed }
{}
