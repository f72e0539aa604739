//! What a site publishes.

ghost use Rattle.std.specs.Prelude.{◌≡◌};
ghost use Rattle.roster_form.specs.Candidates.{held_level};

use crate::candidates::Candidate;
use trust_types::{AccountNo, Level};

/// A candidate that was published, under a number.
#[derive(Drop)]
pub struct Publication {
    /// How many publications there were with this one.
    pub number: u32,
    /// The revision of the graph on which the rosters were found.
    pub revision: u32,
    pub candidate: Candidate,
    pub ghost of_graph: { revision ≡ candidate.graph.number },
}

impl Publication {
    /// The level that an account holds: the highest whose roster has it, Observer where none has. It takes no memory, and at
    /// most six binary searches.
    pub fn level_of(&self, account: AccountNo) -> Level
        ensures { result ≡ held_level self.now.candidate account }
    {
        self.candidate.level_of(account)
    }
}
