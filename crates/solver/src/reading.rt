//! The roster that a solved workspace has found.

ghost use Rattle.std.specs.Prelude.{◌≡◌, ◌<◌, ◌+◌, IfOk};
ghost use Rattle.trust_types.specs.Levels.{IsGrade};
ghost use Rattle.trust_types.specs.Flow.{IsServed};
ghost use Rattle.trust_types.specs.Roster.{ServesConduits};
ghost use Rattle.frozen.specs.Sites.{accounts as account_count, degree, given};
ghost use Rattle.trust_types.specs.Proven.{IsProven};
ghost use Rattle.trust_types.specs.Rows.{GivesEachOnce};
ghost use Rattle.frozen.specs.Revision.{certificates};
ghost use Rattle.split_flow.specs.Solved.{IsSolved};
ghost use Rattle.split_graph.specs.Network.{rows_of};
ghost use Rattle.flow_engine.specs.Solved.{flow_in, sides_in};
ghost use Rattle.roster_form.specs.LevelRosters.{lists_of, AreAmong};
ghost use Rattle.solver.specs.inner.Listing.{ListsBelow, AreSidesBelow, passing_after, filled_after};
ghost use Rattle.solver.specs.inner.Writing.{GoesAlong, IsWritten, AreLinesOf, with_line};

use flow_engine::Workspace;
use frozen::Frozen;
use roster_form::LevelRoster;
use std::alloc::Global;
use trust_types::{AccountNo, CertGraph, FlowLine, Level, NoMemory, Node, Side};

/// The accounts that the flow serves, by number.
fn served_accounts(
    alloc: Global,
    workspace: &Workspace,
    accounts: u32,
) -> Result<Vec<AccountNo>, NoMemory>
    requires { accounts ≡ account_count (rows_of workspace.now.network) }
    ensures { IfOk result (λ served. ListsBelow (λ a. a) (IsServed accounts (flow_in workspace.now)) accounts served.items) }
{
    let mut served = Vec::new(alloc);
    for number in 0..accounts {
        let account = AccountNo(number);
        if workspace.served(account) {
            served.push(account)?;
        }
    }
    Ok(served)
}

/// Adds the line of an edge that carries units.
fn add_line(
    lines: &mut Vec<FlowLine>,
    from: Node,
    to: AccountNo,
    units: u32,
) -> Result<(), NoMemory>
    ensures { IfOk result (λ _. lines.new.items ≡ with_line lines.old.items (record { from = from; to = to; units = units })) }
{
    if units > 0 {
        lines.push(FlowLine { from, to, units })?;
    }
    Ok(())
}

/// Adds the lines of the edges from the root.
fn add_root_lines(
    lines: &mut Vec<FlowLine>,
    workspace: &Workspace,
    accounts: u32,
) -> Result<(), NoMemory>
    requires accounts { accounts ≡ account_count (rows_of workspace.now.network) }
    requires written { IsWritten (flow_in workspace.now) 0 0 lines.old.items }
    ensures { IfOk result (λ _. IsWritten (flow_in workspace.now) 0 accounts lines.new.items) }
{
    for number in 0..accounts {
        let to = AccountNo(number);
        add_line(lines, Node::Root, to, workspace.root_units(to))?;
    }
    Ok(())
}

/// Adds the lines of the edges from an account. One that isn't served passes nothing on, so none is read.
fn add_lines_from(
    lines: &mut Vec<FlowLine>,
    workspace: &Workspace,
    frozen: &Frozen,
    giver: AccountNo,
) -> Result<(), NoMemory>
    requires rows { rows_of workspace.now.network ≡ frozen.now.parts }
    requires readers { GivesEachOnce (certificates frozen.now) (degree frozen.now.parts) (given frozen.now.parts) }
    requires goes_along { GoesAlong frozen.now.parts (flow_in workspace.now) }
    requires conduits { ServesConduits (certificates frozen.now).accounts (flow_in workspace.now) }
    requires giver { giver < (certificates frozen.now).accounts }
    requires written { IsWritten (flow_in workspace.now) (giver + 1) 0 lines.old.items }
    ensures { IfOk result (λ _. IsWritten (flow_in workspace.now) (giver + 1 + 1) 0 lines.new.items) }
{
    if !workspace.served(giver) {
        return Ok(());
    }
    let takers = frozen.takers(giver);
    for i in 0..frozen.degree(giver) {
        let to = takers[i as usize];
        add_line(lines, Node::Account(giver), to, workspace.units(giver, i))?;
    }
    Ok(())
}

/// The lines of the flow, by giver and taker.
fn flow_lines(
    alloc: Global,
    workspace: &Workspace,
    frozen: &Frozen,
) -> Result<Vec<FlowLine>, NoMemory>
    requires rows { rows_of workspace.now.network ≡ frozen.now.parts }
    requires goes_along { GoesAlong frozen.now.parts (flow_in workspace.now) }
    requires conduits { ServesConduits (certificates frozen.now).accounts (flow_in workspace.now) }
    ensures { IfOk result (λ lines. AreLinesOf (flow_in workspace.now) lines.items) }
{
    let accounts = frozen.accounts();
    let mut lines = Vec::new(alloc);
    add_root_lines(&mut lines, workspace, accounts)?;
    for giver in 0..accounts {
        add_lines_from(&mut lines, workspace, frozen, AccountNo(giver))?;
    }
    Ok(lines)
}

/// The nodes of a cut, by the side on which they lie.
#[derive(Drop)]
struct CutNodes {
    pass: Vec<Node>,
    full: Vec<Node>,
}

impl CutNodes {
    /// Adds a node to the list of its side.
    fn put(&mut self, node: Node, side: Side) -> Result<(), NoMemory>
        ensures pass { IfOk result (λ _. self.new.pass.items ≡ passing_after self.old.pass.items node side) }
        ensures full { IfOk result (λ _. self.new.full.items ≡ filled_after self.old.full.items node side) }
    {
        match side {
            Side::Outside => {}
            Side::Pass => self.pass.push(node)?,
            Side::Full => self.full.push(node)?,
        }
        Ok(())
    }
}

/// The nodes of the cut, the root first.
fn cut_nodes(alloc: Global, workspace: &Workspace, accounts: u32) -> Result<CutNodes, NoMemory>
    requires { accounts ≡ account_count (rows_of workspace.now.network) }
    ensures { IfOk result (λ cut. AreSidesBelow (sides_in workspace.now) (accounts + 1) cut.pass.items cut.full.items) }
{
    let mut cut = CutNodes {
        pass: Vec::new(alloc),
        full: Vec::new(alloc),
    };
    let root = workspace.side(Node::Root);
    cut.put(Node::Root, root)?;
    for number in 0..accounts {
        let account = AccountNo(number);
        let side = workspace.side(Node::Account(account));
        cut.put(Node::Account(account), side)?;
    }
    Ok(cut)
}

/// The roster of a level that was solved.
pub fn roster_of(
    alloc: Global,
    workspace: &Workspace,
    frozen: &Frozen,
    level: Level,
) -> Result<LevelRoster, NoMemory>
    requires grade { IsGrade level }
    requires rows { rows_of workspace.now.network ≡ frozen.now.parts }
    requires solved { IsSolved (certificates frozen.now) level frozen.now.caps (flow_in workspace.now) (sides_in workspace.now) }
    ensures level { IfOk result (λ roster. roster.level ≡ level) }
    ensures proven { IfOk result (λ roster. IsProven (certificates frozen.now) level frozen.now.caps (lists_of roster)) }
    ensures among { IfOk result (λ roster. AreAmong (certificates frozen.now).accounts (lists_of roster)) }
{
    let accounts = frozen.accounts();
    let served = served_accounts(alloc, workspace, accounts)?;
    let flow = flow_lines(alloc, workspace, frozen)?;
    let cut = cut_nodes(alloc, workspace, accounts)?;
    Ok(LevelRoster {
        level,
        served,
        flow,
        pass: cut.pass,
        full: cut.full,
    })
}
