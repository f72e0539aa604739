//! The history of a site, which only contracts see.

ghost use Rattle.std.specs.Prelude.{◌≡◌, []};
ghost use Rattle.site_history.specs.Histories.{just_opened, with_opened, with_entry, published_of, Done, Freeze as Froze, Publish as PublishedBy, KeeperFault};

use crate::acts::Act;
use crate::replies::Reply;
use roster_form::Candidate;
use std::marker::Model;
use std::snapshot::Snapshot;
use trust_types::{Caps, Record};

/// A history. A site holds a `Snapshot` of it, which has no bytes, so a history takes no memory however long it is.
#[cycle(past)]
#[derive(Drop)]
pub struct Past {
    step: Step,
}

/// How a history came to be: its last step, with a snapshot of the snapshot of what was before.
#[cycle(past)]
#[derive(Drop)]
enum Step {
    Begin(Caps),
    Open(Snapshot<Snapshot<Past>>, Snapshot<Record>),
    Do(Snapshot<Snapshot<Past>>, u64, Snapshot<Act>, Reply, u64),
    Freeze(Snapshot<Snapshot<Past>>, u64, u32),
    Publish(Snapshot<Snapshot<Past>>, u64, u32, Snapshot<Candidate>),
    Fail(Snapshot<Snapshot<Past>>, u64),
}

impl Model for Past {
    ghost use Rattle.site_history.specs.Histories.{History, places};

    ghost Value = { History };

    ghost use Rattle.site_history.specs.inner.Pasts.{history_of};

    ghost view = { λ past. history_of past.step };

    ghost size = { places };

    ghost use Rattle.std.proofs.Common.{arith, length-append};

    ghost size_decreases = { λ a h. Prim.grind (arith, length-append) };
}

impl Past {
    /// The history of a site that begins with this table.
    pub fn begin(opening: Caps) -> Snapshot<Past>
        ensures { result.value ≡ just_opened opening [] }
    {
        Snapshot::of(&Past {
            step: Step::Begin(opening),
        })
    }

    /// With one more record with which the site was opened.
    pub fn opened(before: &Snapshot<Past>, kept: &Record) -> Snapshot<Past>
        ensures { result.value ≡ with_opened before.now.value kept.now }
    {
        Snapshot::of(&Past {
            step: Step::Open(Snapshot::of(before), Snapshot::of(kept)),
        })
    }

    /// With an act that was answered.
    pub fn done(
        before: &Snapshot<Past>,
        caller: u64,
        act: Snapshot<Act>,
        reply: Reply,
        moment: u64,
    ) -> Snapshot<Past>
        ensures { result.value ≡ with_entry before.now.value (Done caller act.value reply moment) }
    {
        Snapshot::of(&Past {
            step: Step::Do(Snapshot::of(before), caller, act, reply, moment),
        })
    }

    /// With a freeze at a revision.
    pub fn frozen(before: &Snapshot<Past>, caller: u64, revision: u32) -> Snapshot<Past>
        ensures { result.value ≡ with_entry before.now.value (Froze caller revision) }
    {
        Snapshot::of(&Past {
            step: Step::Freeze(Snapshot::of(before), caller, revision),
        })
    }

    /// With the publication of a candidate under a number.
    pub fn published(
        before: &Snapshot<Past>,
        caller: u64,
        number: u32,
        candidate: &Candidate,
    ) -> Snapshot<Past>
        ensures { result.value ≡ with_entry before.now.value (PublishedBy caller (published_of number candidate.now)) }
    {
        Snapshot::of(&Past {
            step: Step::Publish(
                Snapshot::of(before),
                caller,
                number,
                Snapshot::of(candidate),
            ),
        })
    }

    /// With a fault of the keeper.
    pub fn failed(before: &Snapshot<Past>, caller: u64) -> Snapshot<Past>
        ensures { result.value ≡ with_entry before.now.value (KeeperFault caller) }
    {
        Snapshot::of(&Past {
            step: Step::Fail(Snapshot::of(before), caller),
        })
    }
}
