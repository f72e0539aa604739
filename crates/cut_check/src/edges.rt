//! The rules on edges: that a flow keeps to them, and that none leads out of a cut.

ghost use Rattle.std.specs.Prelude.{ℕ, ◌≡◌, ◌≢◌, ◌<◌, ◌≤◌, ◌↔◌, All, AllPairs, IsTrue, length, slice_index_or};
ghost use Rattle.trust_types.specs.declared.levels.Level.{Level};
ghost use Rattle.trust_types.specs.declared.flows.Side.{Side};
ghost use Rattle.trust_types.specs.declared.accounts.Node.TheVariants.{Root, Account};
ghost use Rattle.trust_types.specs.Levels.{rank, IsGrade};
ghost use Rattle.trust_types.specs.Graph.{HasEdge};
ghost use Rattle.trust_types.specs.Rows.{GivesEachOnce};
ghost use Rattle.trust_types.specs.Lines.{flow_of};
ghost use Rattle.trust_types.specs.Lines.{IsNodeAmong, IsLineAmong, IsLineBefore};
ghost use Rattle.cut_check.specs.Rules.{KeepsToEdge, EndsInside};
ghost use Rattle.cut_check.specs.inner.Searches.{FindsAccount, FindsPair};
ghost use Rattle.cut_check.specs.Sides.{side_by};
ghost use Rattle.cut_check.specs.inner.Cursor.{AreLesser, HasPassed};

use trust_types::{AccountNo, CertGraph, FlowLine, Level, Node, Side};

/// A place among the certificates of one giver.
#[derive(Drop)]
struct Cursor {
    giver: Node,
    passed: u32,
}

impl Cursor {
    /// Whether an edge of the level leads from the giver to the taker. Asked with rising takers of one giver after the
    /// other, it looks once at each certificate.
    fn finds<G: CertGraph>(
        &mut self,
        graph: &G,
        level: Level,
        giver: Node,
        taker: AccountNo,
    ) -> bool
        requires grade { IsGrade level }
        requires readers { GivesEachOnce (G.certificates graph.now) (G.degree_of graph.now) (G.cert_of graph.now) }
        requires giver { IsNodeAmong (G.certificates graph.now).accounts giver }
        requires taker { taker < (G.certificates graph.now).accounts }
        requires passed { self.old.giver ≡ giver →
            HasPassed (G.degree_of graph.now) (G.cert_of graph.now) giver taker self.old.passed }
        ensures edge { IsTrue result ↔ HasEdge (G.certificates graph.now) level giver taker }
        ensures giver { self.new.giver ≡ giver }
        ensures passed { HasPassed (G.degree_of graph.now) (G.cert_of graph.now) giver taker self.new.passed }
    {
        if self.giver != giver {
            *self = Cursor { giver, passed: 0 };
        }
        match giver {
            Node::Root => graph.is_seed(taker),
            Node::Account(from) => {
                self.passed = skip_lesser(graph, from, taker, self.passed);
                certifies_at(graph, level, from, taker, self.passed)
            }
        }
    }
}

/// The least pair of a flow line on no edge of the level. One pass over the lines and their givers' certificates.
pub fn first_missing_edge<G: CertGraph>(
    graph: &G,
    level: Level,
    flow: &[FlowLine],
) -> Option<(Node, AccountNo)>
    requires grade { IsGrade level }
    requires readers { GivesEachOnce (G.certificates graph.now) (G.degree_of graph.now) (G.cert_of graph.now) }
    requires lines { All (IsLineAmong (G.certificates graph.now).accounts) flow.now }
    requires rises { AllPairs IsLineBefore flow.now }
    ensures { let g = G.certificates graph.now in FindsPair g.accounts (KeepsToEdge g level (flow_of flow.now)) result }
{
    let mut cursor = Cursor {
        giver: Node::Root,
        passed: 0,
    };
    for line in flow {
        if !cursor.finds(graph, level, line.from, line.to) {
            return Some((line.from, line.to));
        }
    }
    None
}

/// How many of the giver's certificates are for accounts before the taker, where so many are known to be.
fn skip_lesser<G: CertGraph>(graph: &G, giver: AccountNo, taker: AccountNo, known: u32) -> u32
    requires giver { giver < (G.certificates graph.now).accounts }
    requires lesser { AreLesser (G.degree_of graph.now giver) (G.cert_of graph.now giver) taker known }
    ensures lesser { AreLesser (G.degree_of graph.now giver) (G.cert_of graph.now giver) taker result }
    ensures all { result < G.degree_of graph.now giver → taker ≤ (G.cert_of graph.now giver result).to }
{
    let degree = graph.degree(giver);
    let mut passed = known;
    while passed < degree && graph.given(giver, passed).to < taker {
        passed += 1;
    }
    passed
}

/// Whether the giver certifies the taker at the level or above, where just so many of its certificates are for accounts
/// before the taker.
fn certifies_at<G: CertGraph>(
    graph: &G,
    level: Level,
    giver: AccountNo,
    taker: AccountNo,
    passed: u32,
) -> bool
    requires grade { IsGrade level }
    requires readers { GivesEachOnce (G.certificates graph.now) (G.degree_of graph.now) (G.cert_of graph.now) }
    requires giver { giver < (G.certificates graph.now).accounts }
    requires taker { taker < (G.certificates graph.now).accounts }
    requires lesser { AreLesser (G.degree_of graph.now giver) (G.cert_of graph.now giver) taker passed }
    requires all { passed < G.degree_of graph.now giver → taker ≤ (G.cert_of graph.now giver passed).to }
    ensures { IsTrue result ↔ HasEdge (G.certificates graph.now) level (Account giver) taker }
{
    if passed == graph.degree(giver) {
        return false;
    }
    let cert = graph.given(giver, passed);
    cert.to == taker && cert.is_edge_at(level)
}

/// Whether a node of this side lies outside the cut.
fn is_outside(side: Side) -> bool
    ensures { IsTrue result ↔ (side ≡ Side.Outside) }
{
    side == Side::Outside
}

/// Whether a node of this side passes.
fn passes(side: Side) -> bool
    ensures { IsTrue result ↔ (side ≡ Side.Pass) }
{
    side == Side::Pass
}

/// The least pair of an edge that leads from a passing node out of the cut. One pass over the certificates.
pub fn first_open_edge<G: CertGraph>(
    graph: &G,
    level: Level,
    root: Side,
    sides: &[Side],
) -> Option<(Node, AccountNo)>
    requires grade { IsGrade level }
    requires readers { GivesEachOnce (G.certificates graph.now) (G.degree_of graph.now) (G.cert_of graph.now) }
    requires sides { length sides.now ≡ (G.certificates graph.now).accounts }
    ensures { let g = G.certificates graph.now in
        FindsPair g.accounts (EndsInside g level (side_by root sides.now)) result }
{
    if let Some(taker) = first_open_taker(graph, level, Node::Root, root, sides) {
        return Some((Node::Root, taker));
    }
    for number in 0..graph.accounts() {
        let giver = AccountNo(number);
        if let Some(taker) = first_open_taker(graph, level, Node::Account(giver), root, sides) {
            return Some((Node::Account(giver), taker));
        }
    }
    None
}

/// The first account outside the cut to which an edge leads from the giver, if that passes.
fn first_open_taker<G: CertGraph>(
    graph: &G,
    level: Level,
    giver: Node,
    root: Side,
    sides: &[Side],
) -> Option<AccountNo>
    requires grade { IsGrade level }
    requires readers { GivesEachOnce (G.certificates graph.now) (G.degree_of graph.now) (G.cert_of graph.now) }
    requires giver { IsNodeAmong (G.certificates graph.now).accounts giver }
    requires sides { length sides.now ≡ (G.certificates graph.now).accounts }
    ensures { let g = G.certificates graph.now in
        FindsAccount g.accounts (EndsInside g level (side_by root sides.now) giver) result }
{
    match giver {
        Node::Root if passes(root) => first_seed_outside(graph, sides),
        Node::Account(from) if passes(sides[from.index()]) => {
            first_taker_outside(graph, level, from, sides)
        }
        _ => None,
    }
}

/// The first seed outside the cut.
fn first_seed_outside<G: CertGraph>(graph: &G, sides: &[Side]) -> Option<AccountNo>
    requires { length sides.now ≡ (G.certificates graph.now).accounts }
    ensures { let g = G.certificates graph.now in
        FindsAccount g.accounts
        (λ b. IsTrue (g.is_seed b) → slice_index_or sides.now b Side.Outside ≢ Side.Outside) result }
{
    for number in 0..graph.accounts() {
        let account = AccountNo(number);
        if is_outside(sides[account.index()]) && graph.is_seed(account) {
            return Some(account);
        }
    }
    None
}

/// The first account outside the cut that the giver certifies at the level or above.
fn first_taker_outside<G: CertGraph>(
    graph: &G,
    level: Level,
    giver: AccountNo,
    sides: &[Side],
) -> Option<AccountNo>
    requires grade { IsGrade level }
    requires readers { GivesEachOnce (G.certificates graph.now) (G.degree_of graph.now) (G.cert_of graph.now) }
    requires giver { giver < (G.certificates graph.now).accounts }
    requires sides { length sides.now ≡ (G.certificates graph.now).accounts }
    ensures { let g = G.certificates graph.now in
        FindsAccount g.accounts
        (λ b. HasEdge g level (Account giver) b → slice_index_or sides.now b Side.Outside ≢ Side.Outside) result }
{
    for i in 0..graph.degree(giver) {
        let cert = graph.given(giver, i);
        if cert.is_edge_at(level) && is_outside(sides[cert.to.index()]) {
            return Some(cert.to);
        }
    }
    None
}
