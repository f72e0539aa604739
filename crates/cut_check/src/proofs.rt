ghost use Rattle.std.specs.Prelude.{◌≡◌, ◌≢◌, ◌++◌, All, AllPairs, length, vec_len};
ghost use Rattle.trust_types.specs.declared.accounts.Node.TheVariants.{Root};
ghost use Rattle.trust_types.specs.declared.flows.Side.TheVariants.{Outside};
ghost use Rattle.trust_types.specs.Levels.{IsGrade};
ghost use Rattle.trust_types.specs.NameLists.{AreApart};
ghost use Rattle.trust_types.specs.Layout.{accounts};
ghost use Rattle.trust_types.specs.Lines.{sides_of};
ghost use Rattle.trust_types.specs.Lines.{IsNodeAmong, IsLineAmong, IsLineBefore};

use trust_types::{Caps, CertList, FlowLine, Level, Name, Node};

/// A flow and a cut over a graph of certificates, as evidence that no feasible flow of the level serves more accounts. Its
/// lists name no account that the graph hasn't; no name, no pair of the flow and no node of the cut stands twice; and the
/// root is in the cut.
#[derive(Drop)]
pub struct Proof {
    pub caps: Caps,
    /// The names of the accounts, by number.
    pub names: Vec<Name>,
    pub graph: CertList,
    pub level: Level,
    /// The units of the flow, in rising order of giver and taker.
    pub flow: Vec<FlowLine>,
    /// The nodes of the cut that pass.
    pub pass: Vec<Node>,
    /// The nodes of the cut that are full.
    pub full: Vec<Node>,
    pub ghost named: { vec_len names ≡ accounts graph },
    pub ghost names_differ: { AreApart names.items },
    pub ghost grade: { IsGrade level },
    pub ghost lines: { All (IsLineAmong (accounts graph)) flow.items },
    pub ghost lines_rise: { AllPairs IsLineBefore flow.items },
    pub ghost pass_among: { All (IsNodeAmong (accounts graph)) pass.items },
    pub ghost full_among: { All (IsNodeAmong (accounts graph)) full.items },
    pub ghost nodes_differ: { AllPairs (λ x y. x ≢ y) (pass.items ++ full.items) },
    pub ghost root: { sides_of pass.items full.items Root ≢ Outside },
}
