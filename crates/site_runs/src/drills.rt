//! The drill: how many accounts the engine accepts on a site that is made from a number, and what its cut is worth.

ghost use Rattle.std.specs.Prelude.{◌≡◌, ◌<◌, ◌≤◌, ◌^◌, ◌++◌, All, IfOk, OnOk, length};
ghost use Rattle.trust_types.specs.Levels.{IsGrade};
ghost use Rattle.trust_types.specs.Lines.{IsNodeAmong};
ghost use Rattle.frozen.specs.Revision.{certificates};
ghost use Rattle.site_runs.specs.Drills.{AreDrillLines, ComesToDrill, line_of};
ghost use Rattle.site_runs.specs.inner.Summaries.{AddsTotal, IsWorth};

use commands::{Answer, Outcome, Status};
use cut_check::{cut_value, lay_out};
use distances::{Queue, capacities};
use drill::drill_site;
use frozen::Frozen;
use solver::solve_one;
use std::alloc::Global;
use trust_types::{CertGraph, Level, NoMemory, Node, Side};

/// What the drill of a number comes to: three lines, or that memory ran out.
pub fn drill(alloc: Global, number: u32) -> Outcome
    ensures { ComesToDrill number result }
{
    match drill_lines(alloc, number) {
        Ok(text) => Outcome::Answered(Answer {
            status: Status::Done,
            text,
        }),
        Err(NoMemory) => Outcome::OutOfMemory,
    }
}

/// The lines of the drill's site, lowest grade first.
fn drill_lines(alloc: Global, number: u32) -> Result<Vec<u8>, NoMemory>
    ensures { IfOk result (λ text. AreDrillLines number text.items) }
{
    let site = drill_site(alloc, number)?;
    let mut text = Vec::new(alloc);
    push_line(alloc, &site, Level::Apprentice, &mut text)?;
    push_line(alloc, &site, Level::Journeyer, &mut text)?;
    push_line(alloc, &site, Level::Master, &mut text)?;
    Ok(text)
}

/// Adds the line of a grade: how many accounts its roster has, and what the roster's cut is worth, which is worked out apart.
fn push_line(
    alloc: Global,
    frozen: &Frozen,
    level: Level,
    text: &mut Vec<u8>,
) -> Result<(), NoMemory>
    requires { IsGrade level }
    ensures { OnOk result (AddsTotal frozen.now level text.old.items text.new.items) }
{
    let roster = solve_one(alloc, frozen, level)?;
    let worth = worth_of(alloc, frozen, level, &roster.pass, &roster.full)?;
    put_line(alloc, level, roster.served.len(), worth, text)
}

/// Adds a line of these two numbers.
fn put_line(
    alloc: Global,
    level: Level,
    accepted: usize,
    worth: u64,
    text: &mut Vec<u8>,
) -> Result<(), NoMemory>
    ensures { OnOk result (text.new.items ≡ text.old.items ++ line_of level accepted worth) }
{
    let line = format!(in alloc; "{} accepted {accepted} cut {worth}\n", level.name())?;
    text.extend_from_slice(line.as_bytes())?;
    Ok(())
}

/// What a cut is worth at a grade, by the nodes that pass and those that are full. It takes room for three numbers an account.
fn worth_of(
    alloc: Global,
    frozen: &Frozen,
    level: Level,
    pass: &[Node],
    full: &[Node],
) -> Result<u64, NoMemory>
    requires grade { IsGrade level }
    requires pass { All (IsNodeAmong (certificates frozen.now).accounts) pass.now }
    requires full { All (IsNodeAmong (certificates frozen.now).accounts) full.now }
    ensures { IfOk result (IsWorth frozen.now level pass.now full.now) }
{
    let accounts = frozen.accounts();
    let mut caps = vec![in alloc; 0; accounts as usize]?;
    let mut sides = vec![in alloc; Side::Outside; accounts as usize]?;
    let mut queue = Queue::reserve(alloc, accounts)?;
    Ok(work_out(frozen, level, pass, full, &mut caps, &mut sides, &mut queue))
}

/// Works out what the cut is worth, with a place for each account in each slice.
fn work_out(
    frozen: &Frozen,
    level: Level,
    pass: &[Node],
    full: &[Node],
    caps: &mut [u32],
    sides: &mut [Side],
    queue: &mut Queue,
) -> u64
    requires grade { IsGrade level }
    requires pass { All (IsNodeAmong (certificates frozen.now).accounts) pass.now }
    requires full { All (IsNodeAmong (certificates frozen.now).accounts) full.now }
    requires few { (certificates frozen.now).accounts < 2 ^ 32 }
    requires caps { length caps.old ≡ (certificates frozen.now).accounts }
    requires sides { length sides.old ≡ (certificates frozen.now).accounts }
    requires queue { (certificates frozen.now).accounts ≤ queue.old }
    ensures { IsWorth frozen.now level pass.now full.now result }
{
    let table = frozen.caps();
    capacities(frozen, level, table, caps, queue);
    let root = lay_out(pass, full, sides);
    cut_value(root, table.at(0), sides, caps)
}
