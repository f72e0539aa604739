//! Rosters of a frozen graph, whose list of grades is halved until each has a thread.

ghost use Rattle.std.specs.Prelude.{◌≡◌, ◌+◌, ◌++◌, ◌<◌, ◌≤◌, All, IfOk, IsTrue, length};
ghost use Rattle.std.specs.Thread.{IsSync};
ghost use Rattle.trust_types.specs.Levels.{IsGrade};
ghost use Rattle.trust_types.specs.Tables.{has_grade};
ghost use Rattle.split_graph.specs.Network.{Fits};
ghost use Rattle.roster_form.specs.Candidates.{AreSound, IsRosterFor};
ghost use Rattle.wide_solver.specs.inner.Halves.{AreRostersFrom, OfGrades, OfRanks};

use flow_engine::Workspace;
use frozen::Frozen;
use roster_form::{Candidate, LevelRoster};
use solver::solve_level;
use std::alloc::Global;
use std::marker::Brand;
use std::sync::Arc;
use std::sync::ledger::{Blank, Ledger};
use std::thread::{Threads, join};
use trust_types::{CertGraph, Level, MOST_LEVELS, NoMemory, Steps};

/// A workspace with room for the graph for each grade of its table.
fn workspaces_for(alloc: Global, frozen: &Frozen) -> Result<Vec<Workspace>, NoMemory>
    ensures count { IfOk result (λ workspaces. length workspaces.items + 1 ≡ frozen.now.caps.levels) }
    ensures few { IfOk result (λ workspaces. (0 < length workspaces.items) × (length workspaces.items < MOST_LEVELS)) }
    ensures room { IfOk result (λ workspaces. All (λ w. Fits frozen.now w.network.room) workspaces.items) }
{
    let grades = frozen.caps().levels() - 1;
    let mut workspaces = Vec::with_capacity(alloc, grades as usize)?;
    for _ in 0..grades {
        workspaces.push_reserved(Workspace::reserve(alloc, frozen.accounts(), frozen.certs())?);
    }
    Ok(workspaces)
}

/// The roster of a grade, whose steps nobody wants to know.
fn solve_counted<L: Ledger>(
    alloc: Global,
    frozen: &Frozen,
    workspace: &mut Workspace,
    level: Level,
    blank: Blank,
) -> Result<LevelRoster, NoMemory>
    requires name { blank.name ≡ L.name }
    requires parts { blank.parts ≡ L.parts }
    requires some { 0 < blank.parts }
    requires grade { IsGrade level }
    requires room { Fits frozen.now workspace.old.network.room }
    ensures { IfOk result (λ roster. IsRosterFor frozen.now level roster) }
{
    let mut steps = Steps::<L>::new(blank);
    solve_level(alloc, workspace, frozen, level, &mut steps)
}

fn solve_in(
    alloc: Global,
    frozen: &Frozen,
    workspace: &mut Workspace,
    level: Level,
) -> Result<LevelRoster, NoMemory>
    requires grade { IsGrade level }
    requires room { Fits frozen.now workspace.old.network.room }
    ensures { IfOk result (λ roster. IsRosterFor frozen.now level roster) }
{
    solve_counted::<Brand>(alloc, frozen, workspace, level, Blank::new(1))
}

/// The roster of the grade of a rank, as a list of one.
fn roster_of_rank<M: Fn(Level) + Sync>(
    alloc: Global,
    frozen: &Frozen,
    rank: u32,
    workspace: &mut Workspace,
    begun: &M,
) -> Result<Vec<LevelRoster>, NoMemory>
    requires rank { (0 < rank) × (rank < MOST_LEVELS) }
    requires room { Fits frozen.now workspace.old.network.room }
    requires begun { OfGrades (λ level. M.pre begun.now level) }
    ensures count { IfOk result (λ rosters. length rosters.items ≡ 1) }
    ensures from { IfOk result (λ rosters. AreRostersFrom frozen.now rank rosters.items) }
    ensures begun { IfOk result (λ _. OfRanks (λ level. M.post begun.now level tt) rank 1) }
{
    let level = Level::of_rank(rank);
    begun(level);
    let mut rosters = Vec::with_capacity(alloc, 1)?;
    rosters.push_reserved(solve_in(alloc, frozen, workspace, level)?);
    Ok(rosters)
}

/// Puts the rosters of higher grades behind those of lower ones.
fn joined(
    mut lower: Vec<LevelRoster>,
    mut upper: Vec<LevelRoster>,
) -> Result<Vec<LevelRoster>, NoMemory>
    ensures { IfOk result (λ rosters. rosters.items ≡ lower.items ++ upper.items) }
{
    lower.append(&mut upper)?;
    Ok(lower)
}

/// The rosters of as many grades as there are workspaces, from the grade of a rank on.
fn rosters_from<M: Fn(Level) + Sync, R: Threads + Sync>(
    rt: &R,
    alloc: Global,
    frozen: &Frozen,
    low: u32,
    workspaces: &mut [Workspace],
    begun: &M,
) -> Result<Vec<LevelRoster>, NoMemory>
    requires some { 0 < length workspaces.old }
    requires ranks { (0 < low) × (low + length workspaces.old ≤ MOST_LEVELS) }
    requires room { All (λ w. Fits frozen.now w.network.room) workspaces.old }
    requires begun { OfGrades (λ level. M.pre begun.now level) }
    ensures count { IfOk result (λ rosters. length rosters.items ≡ length workspaces.old) }
    ensures from { IfOk result (λ rosters. AreRostersFrom frozen.now low rosters.items) }
    ensures begun { IfOk result (λ _. OfRanks (λ level. M.post begun.now level tt) low (length workspaces.old)) }
{
    let count = workspaces.len();
    if count == 1 {
        return roster_of_rank(alloc, frozen, low, &mut workspaces[0], begun);
    }
    let half = count / 2;
    let (lower, upper) = workspaces.split_at_mut(half);
    let middle = low + half as u32;
    let (lower, upper) = join(
        rt,
        || -> Result<Vec<LevelRoster>, NoMemory>
            requires { IsSync R.row × (0 < length lower.now) × (0 < low) × (low + length lower.now ≤ MOST_LEVELS) × All (λ w. Fits frozen.now w.network.room) lower.now × OfGrades (λ level. M.pre begun.now level) }
            ensures { IfOk result (λ rosters. (length rosters.items ≡ length lower.entry.now) × AreRostersFrom frozen.entry.now low rosters.items × OfRanks (λ level. M.post begun.entry.now level tt) low (length lower.entry.now)) }
        { rosters_from(rt, alloc, frozen, low, lower, begun) },
        || -> Result<Vec<LevelRoster>, NoMemory>
            requires { IsSync R.row × (0 < length upper.now) × (0 < middle) × (middle + length upper.now ≤ MOST_LEVELS) × All (λ w. Fits frozen.now w.network.room) upper.now × OfGrades (λ level. M.pre begun.now level) }
            ensures { IfOk result (λ rosters. (length rosters.items ≡ length upper.entry.now) × AreRostersFrom frozen.entry.now middle rosters.items × OfRanks (λ level. M.post begun.entry.now level tt) middle (length upper.entry.now)) }
        { rosters_from(rt, alloc, frozen, middle, upper, begun) },
    );
    joined(lower?, upper?)
}

/// The rosters of all grades of a graph's table, as [`solve_alone`](solver::solve_alone) gives them. The list of grades is halved until each has a thread; where no
/// thread can be made its work is done in this one. It takes memory first for an engine for each grade, as much as the graph's own accounts and
/// certificates need, and then for the rosters. `begun` is called on each grade where the grade's work begins. It waits for nobody but the threads
/// that it made, and takes no turn at a site.
///
/// # Errors
/// [`NoMemory`] where that memory can't be had, and for no other cause.
pub fn solve_wide<M: Fn(Level) + Sync, R: Threads + Sync>(
    rt: &R,
    alloc: Global,
    frozen: &Arc<Frozen>,
    begun: &M,
) -> Result<Candidate, NoMemory>
    requires begun { (level : Level) → IsGrade level → M.pre begun.now level }
    ensures graph { IfOk result (λ candidate. candidate.graph ≡ frozen.now.value) }
    ensures sound { IfOk result (λ candidate. AreSound candidate) }
    ensures begun { IfOk result (λ _. (level : Level) → IsTrue (has_grade frozen.now.value.caps level) → M.post begun.now level tt) }
{
    let shared = Arc::try_clone(frozen)?;
    let mut workspaces = workspaces_for(alloc, frozen)?;
    let rosters = rosters_from(rt, alloc, frozen, 1, &mut workspaces, begun)?;
    Ok(Candidate::of(shared, rosters))
}
