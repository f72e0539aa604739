//! The sides of a cut, and its value.

ghost use Rattle.std.specs.Prelude.{ℕ, ◌≡◌, ◌<◌, ◌^◌, All, length, if◌then◌else◌};
ghost use Rattle.std.specs.List.{list_any};
ghost use Rattle.trust_types.specs.declared.accounts.Node.{Node};
ghost use Rattle.trust_types.specs.Graph.{Certificates};
ghost use Rattle.trust_types.specs.Capacity.{cap_by};
ghost use Rattle.trust_types.specs.Cut.{value, root_share, account_share};
ghost use Rattle.trust_types.specs.Lines.{same_node, sides_of};
ghost use Rattle.trust_types.specs.Lines.{IsNodeAmong};
ghost use Rattle.cut_check.specs.Sides.{side_by};

use trust_types::{Node, Side};

/// Notes for each account on which side of the cut it lies, by the lists of the nodes that pass and of those that are full, and gives the
/// root's side. What the slice had before doesn't matter; a node in neither list lies outside, one in both passes. It takes no memory, and time linear in
/// the accounts and the lists.
pub fn lay_out(pass: &[Node], full: &[Node], sides: &mut [Side]) -> Side
    requires pass { All (IsNodeAmong (length sides.old)) pass.now }
    requires full { All (IsNodeAmong (length sides.old)) full.now }
    ensures { (x : Node) → side_by result sides.new x ≡ sides_of pass.now full.now x }
{
    sides.fill(Side::Outside);
    let mut root = Side::Outside;
    put_all(full, Side::Full, &mut root, sides);
    put_all(pass, Side::Pass, &mut root, sides);
    root
}

/// Puts the nodes on a side.
fn put_all(nodes: &[Node], side: Side, root: &mut Side, sides: &mut [Side])
    requires { All (IsNodeAmong (length sides.old)) nodes.now }
    ensures { (x : Node) → side_by root.new sides.new x
        ≡ (if list_any (same_node x) nodes.now then side else side_by root.old sides.old x) }
{
    for node in nodes {
        put(node, side, root, sides);
    }
}

/// Puts a node on a side.
fn put(node: &Node, side: Side, root: &mut Side, sides: &mut [Side])
    requires { IsNodeAmong (length sides.old) node.now }
    ensures { (x : Node) → side_by root.new sides.new x
        ≡ (if same_node x node.now then side else side_by root.old sides.old x) }
{
    match node {
        Node::Root => *root = side,
        Node::Account(account) => sides[account.index()] = side,
    }
}

/// The cut's value: a passing account counts once, a full one by its capacity, and a full root by its capacity less one. It takes
/// no memory, and time linear in the accounts.
pub fn cut_value(root: Side, root_capacity: u32, sides: &[Side], capacities: &[u32]) -> u64
    requires few { length sides.now < 2 ^ 32 }
    requires capacities { length capacities.now ≡ length sides.now }
    ensures { (g : Certificates) → g.accounts ≡ length sides.now →
        result ≡ value g (cap_by root_capacity capacities.now) (side_by root sides.now) }
{
    let mut value = root_share(root, root_capacity);
    for (at, side) in sides.iter().enumerate() {
        value += account_share(*side, capacities[at]);
    }
    value
}

/// What the root adds to the cut's value.
fn root_share(side: Side, capacity: u32) -> u64
    ensures share { result ≡ root_share side capacity }
    ensures small { result < 2 ^ 32 }
{
    match side {
        Side::Outside | Side::Pass => 0,
        Side::Full => u64::from(capacity.saturating_sub(1)),
    }
}

/// What an account adds to it.
fn account_share(side: Side, capacity: u32) -> u64
    ensures share { result ≡ account_share side capacity }
    ensures small { result < 2 ^ 32 }
{
    match side {
        Side::Outside => 0,
        Side::Pass => 1,
        Side::Full => u64::from(capacity),
    }
}
