//! Where a round may be held or stopped.

ghost use Rattle.std.specs.Prelude.{◌≡◌, ℕ, List, Option, None};
ghost use Rattle.outside.specs.Causes.{HasCause};
ghost use Rattle.workers.specs.Gates.{is_stop, one_asked};

use std::sync::Wait;

/// What a round is about to do.
#[derive(Clone, Copy, Debug, Drop, PartialEq, Eq)]
pub enum RoundStep {
    Freeze,
    Solve,
    Publish,
}

/// Whether a round goes on.
#[derive(Clone, Copy, Debug, Drop, PartialEq, Eq)]
pub enum Go {
    On,
    Stop,
}

/// What a round passes before each of its steps.
pub trait Gate: Drop {
    ghost use Rattle.workers.specs.declared.gate.RoundStep.{RoundStep};

    /// How many rounds it stopped. The count stands still at the last value of a `u64`.
    ghost stops: { Self → ℕ };

    /// The steps for which it was asked, first to last, where it tells them.
    ghost asked: { Self → Option (List RoundStep) };

    /// Says whether the round goes on to this step. It may wait, and `Stop` comes exactly where it counts one more.
    fn pass<R: Wait>(&mut self, rt: &R, before: RoundStep) -> Go
        ensures stops { HasCause (stops self.old) (stops self.new) (is_stop result) }
        ensures asked { asked self.new ≡ one_asked (asked self.old) before };
}

/// A gate that never stops a round, and never waits.
#[derive(Drop)]
pub struct OpenGate;

impl OpenGate {
    pub fn new() -> OpenGate {
        OpenGate
    }
}

impl Gate for OpenGate {
    ghost stops = { λ _. 0 };

    ghost asked = { λ _. None };

    fn pass<R: Wait>(&mut self, _rt: &R, _before: RoundStep) -> Go {
        Go::On
    }
}
