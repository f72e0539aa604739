//! Rosters as they are printed.

ghost use Rattle.std.specs.Prelude.{◌≡◌, ◌<◌, ◌∷◌, ◌++◌, [], All as Each, IfOk, OnOk, length, flat_map};
ghost use Rattle.trust_types.specs.Levels.{IsGrade};
ghost use Rattle.frozen.specs.Revision.{certificates};
ghost use Rattle.site_text.specs.View.{of_frozen};
ghost use Rattle.trust_types.specs.NodeWords.{name_of};
ghost use Rattle.commands.specs.declared.command.Asked.TheVariants.{All};
ghost use Rattle.commands.specs.Commands.{AreGrades};
ghost use Rattle.commands.specs.Answers.{AreRosterLines, IsRosterLine, roster_line};
ghost use Rattle.commands.specs.inner.Lines.{AddsLines};

use crate::command::Asked;
use frozen::Frozen;
use roster_form::{Candidate, LevelRoster};
use solver::{solve_alone, solve_one};
use std::alloc::Global;
use std::sync::Arc;
use trust_types::{AccountNo, Level, NoMemory};

/// The lines of the rosters that are asked for, lowest grade first.
pub fn roster_lines(alloc: Global, asked: Asked, frozen: &Arc<Frozen>) -> Result<Vec<u8>, NoMemory>
    requires { AreGrades asked }
    ensures { IfOk result (λ text. AreRosterLines asked (of_frozen frozen.now.value) text.items) }
{
    match asked {
        Asked::One(level) => one_line(alloc, frozen, level),
        Asked::All => all_lines(alloc, frozen),
    }
}

/// The line of one grade's roster.
fn one_line(alloc: Global, frozen: &Arc<Frozen>, level: Level) -> Result<Vec<u8>, NoMemory>
    requires { IsGrade level }
    ensures { IfOk result (λ text. IsRosterLine (of_frozen frozen.now.value) level text.items) }
{
    let roster = solve_one(alloc, frozen, level)?;
    let mut text = Vec::new(alloc);
    push_line(alloc, &mut text, frozen, &roster)?;
    Ok(text)
}

/// The lines of all grades of the graph's table, whose rosters are found one after another in the same room.
fn all_lines(alloc: Global, frozen: &Arc<Frozen>) -> Result<Vec<u8>, NoMemory>
    ensures { IfOk result (λ text. AreRosterLines All (of_frozen frozen.now.value) text.items) }
{
    let candidate = solve_alone(alloc, frozen)?;
    let mut text = Vec::new(alloc);
    push_grades(alloc, &mut text, &candidate, &Level::GRADES)?;
    Ok(text)
}

/// Adds the lines of those of the grades that the graph's table has.
fn push_grades(
    alloc: Global,
    text: &mut Vec<u8>,
    candidate: &Candidate,
    levels: &[Level],
) -> Result<(), NoMemory>
    ensures { OnOk result (AddsLines (of_frozen candidate.now.graph) levels.now text.old.items text.new.items) }
{
    for level in levels {
        push_grade(alloc, text, candidate, *level)?;
    }
    Ok(())
}

/// Adds the line of a grade's roster, where the graph's table has the grade.
fn push_grade(
    alloc: Global,
    text: &mut Vec<u8>,
    candidate: &Candidate,
    level: Level,
) -> Result<(), NoMemory>
    ensures { OnOk result (AddsLines (of_frozen candidate.now.graph) (level ∷ []) text.old.items text.new.items) }
{
    match candidate.roster(level) {
        Some(roster) => push_line(alloc, text, candidate.frozen(), roster),
        None => Ok(()),
    }
}

/// Adds the line of a roster: its grade, how many accounts it has, and their names in the order of their numbers.
fn push_line(
    alloc: Global,
    text: &mut Vec<u8>,
    frozen: &Frozen,
    roster: &LevelRoster,
) -> Result<(), NoMemory>
    requires { Each (λ a. a < (certificates frozen.now).accounts) roster.now.served.items }
    ensures { OnOk result (text.new.items ≡ text.old.items ++ roster_line frozen.now.names roster.now.level roster.now.served.items) }
{
    let front = format!(in alloc; "{} {}", roster.level.name(), roster.served.len())?;
    text.extend_from_slice(front.as_bytes())?;
    push_names(text, frozen, &roster.served)?;
    text.push(b'\n')?;
    Ok(())
}

/// Adds the names of these accounts, each behind a space.
fn push_names(text: &mut Vec<u8>, frozen: &Frozen, accounts: &[AccountNo]) -> Result<(), NoMemory>
    requires { Each (λ a. a < (certificates frozen.now).accounts) accounts.now }
    ensures { OnOk result (text.new.items ≡ text.old.items ++ flat_map (λ a. 32 ∷ name_of frozen.now.names a) accounts.now) }
{
    for account in accounts {
        push_name(text, frozen, *account)?;
    }
    Ok(())
}

/// Adds the name of an account behind a space.
fn push_name(text: &mut Vec<u8>, frozen: &Frozen, account: AccountNo) -> Result<(), NoMemory>
    requires { account < (certificates frozen.now).accounts }
    ensures { OnOk result (text.new.items ≡ text.old.items ++ 32 ∷ name_of frozen.now.names account) }
{
    text.push(b' ')?;
    text.extend_from_slice(frozen.name(account).bytes())?;
    Ok(())
}
