//! What a script asks for, line by line.

ghost use Rattle.std.specs.Prelude.{◌≡◌, ◌≤◌, ◌<◌, ◌+◌};
ghost use Rattle.trust_types.specs.Kept.{IsMoment};

use site_history::Act;
use std::marker::Model;
use trust_types::{Caps, Level, Text};

/// The most actors of a script.
pub const MOST_ACTORS: u32 = 64;

/// Who freezes, solves, publishes and looks in a script: its number, from 1 to [`MOST_ACTORS`] in the order in which actors are
/// first named. Contracts see the number.
#[derive(Clone, Copy, Debug, PartialEq, Eq)]
pub struct ActorNo {
    number: u32,
}

impl Model for ActorNo {
    ghost use Rattle.std.specs.Prelude.{ℕ, ◌≤◌};

    ghost Value = { ℕ };

    ghost view = { λ actor. actor.number };

    ghost invariant = { λ actor. (1 ≤ actor.number) × (actor.number ≤ 64) };

    ghost inverse = { λ number. record { number = number } };
}

impl ActorNo {
    /// The actor before which so many others were named.
    pub(crate) fn after(others: usize) -> ActorNo
        requires { others < 64 }
        ensures { result ≡ others + 1 }
    {
        ActorNo {
            number: others as u32 + 1,
        }
    }

    /// The number.
    pub fn number(self) -> u32
        ensures value { result ≡ self }
        ensures least { 1 ≤ result }
        ensures most { result ≤ MOST_ACTORS }
    {
        self.number
    }
}

/// A moment: seconds after the beginning of 1970, at most the last second of the year 9999. Contracts see the number.
#[derive(Clone, Copy, Debug, PartialEq, Eq)]
pub struct Moment {
    seconds: u64,
}

impl Model for Moment {
    ghost use Rattle.std.specs.Prelude.{ℕ};
    ghost use Rattle.trust_types.specs.Kept.{IsMoment};

    ghost Value = { ℕ };

    ghost view = { λ moment. moment.seconds };

    ghost invariant = { λ moment. IsMoment moment.seconds };

    ghost inverse = { λ seconds. record { seconds = seconds } };
}

impl Moment {
    pub(crate) fn of(seconds: u64) -> Moment
        requires { IsMoment seconds }
        ensures { result ≡ seconds }
    {
        Moment { seconds }
    }

    /// The seconds.
    pub fn seconds(self) -> u64
        ensures value { result ≡ self }
        ensures within { IsMoment result }
    {
        self.seconds
    }
}

/// What a line of a script asks for.
#[derive(Drop)]
pub enum ScriptLine {
    /// `moment`: the moment of the acts from here on.
    Moment(Moment),
    /// An act of nobody's own: `join`, `seed`, `unseed`, `cert`, `table`, `diary`, `article`, `reply`, `project`, `login` or `logout`.
    Act(Act),
    /// `freeze`: the actor freezes the certificates, and keeps the graph.
    Freeze(ActorNo),
    /// `solve`: the actor computes the rosters of the graph that it keeps.
    Solve(ActorNo),
    /// `publish`: the actor publishes the rosters that it computed last.
    Publish(ActorNo),
    /// `look`: the actor looks at the last publication's roster of a grade.
    Look(ActorNo, Level),
    /// `level`: asks for the level of the account of that name.
    Level(Text),
}

/// A script that was read: the table of its head, and what its further lines ask for, in order.
#[derive(Drop)]
pub struct SiteScript {
    pub caps: Caps,
    pub lines: Vec<ScriptLine>,
}
