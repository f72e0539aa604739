//! The roster of a level, with the flow and the cut that prove it.

ghost use Rattle.std.specs.Prelude.{◌≡◌, ◌≢◌, ◌↔◌, Contains, IsTrue};
ghost use Rattle.trust_types.specs.declared.accounts.Node.TheVariants.{Root};
ghost use Rattle.trust_types.specs.declared.flows.Side.TheVariants.{Outside};
ghost use Rattle.trust_types.specs.Levels.{IsGrade};
ghost use Rattle.trust_types.specs.Lines.{sides_of};
ghost use Rattle.trust_types.specs.Proven.{AreInOrder};
ghost use Rattle.roster_form.specs.Bounded.{is_accepted};

use trust_types::{AccountNo, FlowLine, Level, Node};

/// The accounts that hold a level, and a flow and a cut as evidence. Each list rises and has nothing twice; the root is in
/// the cut.
#[derive(Drop)]
pub struct LevelRoster {
    /// The level, a grade.
    pub level: Level,
    /// The accounts that the flow serves, by number.
    pub served: Vec<AccountNo>,
    /// The units of the flow, by giver and taker: a line for each edge that carries some.
    pub flow: Vec<FlowLine>,
    /// The nodes of the cut that pass, the root first.
    pub pass: Vec<Node>,
    /// The nodes of the cut that are full, the root first.
    pub full: Vec<Node>,
    pub ghost grade: { IsGrade level },
    pub ghost in_order: { AreInOrder (record { served = served.items; flow = flow.items; pass = pass.items; full = full.items }) },
    pub ghost root: { sides_of pass.items full.items Root ≢ Outside },
}

impl LevelRoster {
    /// Whether the roster has an account: a binary search.
    pub fn has(&self, account: AccountNo) -> bool
        ensures value { result ≡ is_accepted self.now.served.items account }
        ensures contained { IsTrue result ↔ Contains self.now.served.items account }
    {
        self.served.binary_search(&account).is_ok()
    }
}
