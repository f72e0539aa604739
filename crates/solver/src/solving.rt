//! Rosters of a frozen graph, solved in a workspace of their own.

ghost use Rattle.std.specs.Prelude.{◌≡◌, ◌<◌, IfOk, length, Some};
ghost use Rattle.trust_types.specs.Levels.{IsGrade};
ghost use Rattle.frozen.specs.Revision.{certificates};
ghost use Rattle.frozen.specs.Sites.{certs};
ghost use Rattle.split_graph.specs.Network.{Fits};
ghost use Rattle.roster_form.specs.LevelRosters.{lists_of};
ghost use Rattle.roster_form.specs.Candidates.{IsSound, AreSound, IsRosterFor, AreRostersFor};

use crate::reading::roster_of;
use flow_engine::Workspace;
use frozen::Frozen;
use roster_form::{Candidate, LevelRoster};
use std::alloc::Global;
use std::marker::Brand;
use std::sync::Arc;
use std::sync::ledger::{Blank, Ledger};
use trust_types::{CertGraph, Level, NoMemory, Steps};

/// A workspace with room for the graph, and for no more.
fn workspace_for(alloc: Global, frozen: &Frozen) -> Result<Workspace, NoMemory>
    ensures room { IfOk result (λ workspace. workspace.network.room ≡ record { accounts = (certificates frozen.now).accounts; certs = certs frozen.now.parts }) }
    ensures fits { IfOk result (λ workspace. Fits frozen.now workspace.network.room) }
{
    Workspace::reserve(alloc, frozen.accounts(), frozen.certs())
}

/// The roster of a grade over a graph, solved in a workspace that has room for it. It takes memory for the roster alone.
///
/// # Errors
/// [`NoMemory`] where that memory can't be had, and for no other cause.
pub fn solve_level<L: Ledger>(
    alloc: Global,
    workspace: &mut Workspace,
    frozen: &Frozen,
    level: Level,
    steps: &mut Steps<L>,
) -> Result<LevelRoster, NoMemory>
    requires grade { IsGrade level }
    requires room { Fits frozen.now workspace.old.network.room }
    ensures graph { workspace.new.network.graph ≡ Some frozen.now }
    ensures roster { IfOk result (λ roster. IsRosterFor frozen.now level roster) }
{
    workspace.solve(frozen, level, steps);
    roster_of(alloc, workspace, frozen, level)
}

/// Solves at another level the graph that was solved last.
fn solve_level_again<L: Ledger>(
    alloc: Global,
    workspace: &mut Workspace,
    frozen: &Frozen,
    level: Level,
    steps: &mut Steps<L>,
) -> Result<LevelRoster, NoMemory>
    requires grade { IsGrade level }
    requires graph { workspace.old.network.graph ≡ Some frozen.now }
    ensures graph { workspace.new.network.graph ≡ Some frozen.now }
    ensures roster { IfOk result (λ roster. IsRosterFor frozen.now level roster) }
{
    workspace.solve_again(frozen, level, steps);
    roster_of(alloc, workspace, frozen, level)
}

/// Solves the graph at one level, in a workspace of its own.
fn solve_once<L: Ledger>(
    alloc: Global,
    frozen: &Frozen,
    level: Level,
    blank: Blank,
) -> Result<LevelRoster, NoMemory>
    requires grade { IsGrade level }
    requires name { blank.name ≡ L.name }
    requires parts { blank.parts ≡ L.parts }
    requires some { 0 < blank.parts }
    ensures { IfOk result (λ roster. IsRosterFor frozen.now level roster) }
{
    let mut steps = Steps::<L>::new(blank);
    let mut workspace = workspace_for(alloc, frozen)?;
    solve_level(alloc, &mut workspace, frozen, level, &mut steps)
}

/// Solves the graph at each grade of its table in turn, in one workspace: its arcs are laid out once.
fn solve_grades<L: Ledger>(
    alloc: Global,
    frozen: &Arc<Frozen>,
    blank: Blank,
) -> Result<Candidate, NoMemory>
    requires name { blank.name ≡ L.name }
    requires parts { blank.parts ≡ L.parts }
    requires some { 0 < blank.parts }
    ensures graph { IfOk result (λ candidate. candidate.graph ≡ frozen.now.value) }
    ensures sound { IfOk result (λ candidate. AreSound candidate) }
{
    let mut steps = Steps::<L>::new(blank);
    let mut workspace = workspace_for(alloc, frozen)?;
    let rosters = rosters_of(alloc, &mut workspace, frozen, &mut steps)?;
    Ok(Candidate::of(Arc::try_clone(frozen)?, rosters))
}

/// The rosters of all grades of the graph's table, lowest first.
fn rosters_of<L: Ledger>(
    alloc: Global,
    workspace: &mut Workspace,
    frozen: &Frozen,
    steps: &mut Steps<L>,
) -> Result<Vec<LevelRoster>, NoMemory>
    requires { Fits frozen.now workspace.old.network.room }
    ensures { IfOk result (λ rosters. AreRostersFor frozen.now rosters.items) }
{
    let levels = frozen.caps().levels();
    let mut rosters = Vec::with_capacity(alloc, levels as usize - 1)?;
    rosters.push_reserved(solve_level(alloc, workspace, frozen, Level::Apprentice, steps)?);
    for rank in 2..levels {
        let level = Level::of_rank(rank);
        rosters.push_reserved(solve_level_again(alloc, workspace, frozen, level, steps)?);
    }
    Ok(rosters)
}

/// The roster of a grade over a graph. It takes memory once for the engine, as much as the graph's own accounts and certificates
/// need, and for the roster.
///
/// # Errors
/// [`NoMemory`] where that memory can't be had, and for no other cause.
pub fn solve_one(alloc: Global, frozen: &Frozen, level: Level) -> Result<LevelRoster, NoMemory>
    requires { IsGrade level }
    ensures level { IfOk result (λ roster. roster.level ≡ level) }
    ensures sound { IfOk result (λ roster. IsSound frozen.now level (lists_of roster)) }
{
    solve_once::<Brand>(alloc, frozen, level, Blank::new(1))
}

/// The rosters of all grades of a graph's table. It takes memory once for the engine, as much as the graph's own accounts and
/// certificates need, and for the rosters.
///
/// # Errors
/// [`NoMemory`] where that memory can't be had, and for no other cause.
pub fn solve_alone(alloc: Global, frozen: &Arc<Frozen>) -> Result<Candidate, NoMemory>
    ensures graph { IfOk result (λ candidate. candidate.graph ≡ frozen.now.value) }
    ensures sound { IfOk result (λ candidate. AreSound candidate) }
{
    solve_grades::<Brand>(alloc, frozen, Blank::new(1))
}
