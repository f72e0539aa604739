use trust_types::{AccountNo, Node};

/// What a check of a proof finds: the first rule that fails, at its least node or pair, or that all hold.
#[derive(Clone, Copy, Debug, PartialEq, Eq)]
pub enum Verdict {
    /// Units go from the node to the account, where the level has no edge.
    NoEdge(Node, AccountNo),
    /// The account is served neither once nor not at all.
    NoBalance(AccountNo),
    /// The node passes on more than its capacity less one, or has units and no capacity.
    NoRoom(Node),
    /// The account passes units on and isn't served.
    NoService(AccountNo),
    /// The node passes, and its edge to the account leads out of the cut.
    NoClosure(Node, AccountNo),
    /// The units out of the root, and the cut's value, which differ.
    NoMatch(u64, u64),
    /// The flow is a greatest one; so many units leave the root, and so many accounts are served.
    Greatest(u64),
}
