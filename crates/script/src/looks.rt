//! What is shown of a site: the last publication's rosters, and the level of an account.

ghost use Rattle.std.specs.Prelude.{◌≡◌, ◌<◌, ◌≤◌, ◌+◌, ◌*◌, ◌∷◌, ◌++◌, All, OnOk, OnErr, codes, decimal, length, option_map, flat_map, vec_len, vec_capacity};
ghost use Rattle.trust_types.specs.Levels.{level_name};
ghost use Rattle.trust_types.specs.Names.{IsName};
ghost use Rattle.trust_types.specs.NodeWords.{name_of};
ghost use Rattle.frozen.specs.Revision.{certificates};
ghost use Rattle.roster_form.specs.Candidates.{lists_at};
ghost use Rattle.script.specs.Outputs.{account_named, level_line, roster_line, shown_line};
ghost use Rattle.script.specs.Runs.{PlaysLook};
ghost use Rattle.script.specs.inner.Lines.{AddsLine};

use crate::outputs::{LONGEST_LINE, Line, put, put_level, put_line, put_number, text};
use frozen::Frozen;
use outside::Keeper;
use roster_form::{LevelRoster, Publication};
use site_core::Book;
use trust_types::{AccountNo, Level, Name, NoMemory, Text};

/// The most bytes of a name behind a space.
const LONGEST_SPACED_NAME: usize = 21;

/// Shows the last publication's roster of a grade. Where memory runs out, nothing is added.
pub(crate) fn look<K: Keeper>(
    book: &Book<K>,
    level: Level,
    out: &mut Vec<u8>,
) -> Result<(), NoMemory>
    requires { vec_len out.old + 97 ≤ vec_capacity out.old }
    ensures shown { OnOk result (AddsLine (PlaysLook book.now.history level) out.old.items out.new.items) }
    ensures same { OnErr result (out.new.items ≡ out.old.items) }
{
    match book.last() {
        Some(publication) => show(publication, level, out),
        None => {
            put_line(out, &text("no publication"));
            Ok(())
        }
    }
}

/// Shows a publication's roster of a grade.
fn show(publication: &Publication, level: Level, out: &mut Vec<u8>) -> Result<(), NoMemory>
    requires { vec_len out.old + 97 ≤ vec_capacity out.old }
    ensures shown { OnOk result (out.new.items ≡ out.old.items ++ (shown_line publication.now.candidate.graph.names publication.now.number publication.now.revision level (option_map (λ r. r.served) (lists_at publication.now.candidate level)) ++ codes "\n")) }
    ensures same { OnErr result (out.new.items ≡ out.old.items) }
{
    match publication.candidate.roster(level) {
        Some(roster) => show_roster(publication, roster, out),
        None => {
            put_line(out, &text("no grade"));
            Ok(())
        }
    }
}

/// Shows a roster. The room for the longest names is taken first, so that nothing is added where it can't be had.
fn show_roster(
    publication: &Publication,
    roster: &LevelRoster,
    out: &mut Vec<u8>,
) -> Result<(), NoMemory>
    requires { All (λ a. a < (certificates publication.now.candidate.graph).accounts) roster.now.served.items }
    ensures shown { OnOk result (out.new.items ≡ out.old.items ++ (roster_line publication.now.candidate.graph.names publication.now.number publication.now.revision roster.now.level roster.now.served.items ++ codes "\n")) }
    ensures same { OnErr result (out.new.items ≡ out.old.items) }
{
    let count = roster.served.len();
    let Some(names) = count.checked_mul(LONGEST_SPACED_NAME) else {
        return Err(NoMemory);
    };
    let Some(room) = names.checked_add(LONGEST_LINE + 1) else {
        return Err(NoMemory);
    };
    out.reserve(room)?;
    let front = roster_front(
        publication.number,
        publication.revision,
        roster.level,
        count,
    );
    put(out, front.as_str().as_bytes());
    put_names(out, publication.candidate.frozen(), &roster.served);
    put(out, b"\n");
    Ok(())
}

/// What stands before the names of a roster.
fn roster_front(number: u32, revision: u32, level: Level, count: usize) -> Line
    ensures { result.bytes ≡ codes "roster " ++ decimal number ++ codes " revision " ++ decimal revision ++ codes " " ++ level_name level ++ codes " " ++ decimal count }
{
    let mut line = Line::new();
    line.push_str("roster ");
    put_number(&mut line, u64::from(number));
    line.push_str(" revision ");
    put_number(&mut line, u64::from(revision));
    line.push_str(" ");
    put_level(&mut line, level);
    line.push_str(" ");
    put_number(&mut line, count as u64);
    line
}

/// Adds the names of these accounts, each behind a space, to a text that has room for the longest names, and for one byte more.
fn put_names(out: &mut Vec<u8>, frozen: &Frozen, accounts: &[AccountNo])
    requires among { All (λ a. a < (certificates frozen.now).accounts) accounts.now }
    requires room { vec_len out.old + 21 * length accounts.now + 1 ≤ vec_capacity out.old }
    ensures names { out.new.items ≡ out.old.items ++ flat_map (λ a. 32 ∷ name_of frozen.now.names a) accounts.now }
    ensures room { vec_len out.new + 1 ≤ vec_capacity out.new }
{
    for account in accounts {
        put_name(out, frozen, *account);
    }
}

/// Adds the name of an account behind a space.
fn put_name(out: &mut Vec<u8>, frozen: &Frozen, account: AccountNo)
    requires among { account < (certificates frozen.now).accounts }
    requires room { vec_len out.old + 21 ≤ vec_capacity out.old }
    ensures name { out.new.items ≡ out.old.items ++ 32 ∷ name_of frozen.now.names account }
    ensures len { vec_len out.new ≤ vec_len out.old + 21 }
    ensures capacity { vec_capacity out.old ≤ vec_capacity out.new }
{
    let name = frozen.name(account);
    put(out, b" ");
    put(out, name.bytes());
}

/// The level of the account of that name, as it is printed.
pub(crate) fn level_line<K: Keeper>(book: &Book<K>, word: &Text) -> Line
    ensures { result.bytes ≡ level_line book.now.history word.now }
{
    let Some(name) = Name::read(word.as_str().as_bytes()) else {
        return text("no such account");
    };
    let Some(account) = book.find(&name) else {
        return text("no such account");
    };
    named_level(&name, book.level_of(account))
}

fn named_level(name: &Name, level: Level) -> Line
    ensures { result.bytes ≡ codes "level " ++ name.now ++ codes " " ++ level_name level }
{
    // Its contract says that a name is short.
    let _bytes = name.bytes();
    let mut line = Line::new();
    line.push_str("level ");
    line.push_str(name.as_str());
    line.push_str(" ");
    put_level(&mut line, level);
    line
}
