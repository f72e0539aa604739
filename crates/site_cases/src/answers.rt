//! What is answered to a step.

use crate::acts::{Unread, act_of, told};
use crate::keepers::{keeper_with, listed, opening, written_out};
use crate::loads::load;
use crate::site::{Refused, Site};
use crate::steps::{Bare, Step, step_of};
use crate::views::shown;
use roster_form::Publication;
use site_core::Book;
use std::alloc::{AllocError, Global};
use std::sync::ledger::Ledger;
use trust_types::{Level, Name, NoMemory, Steps};

/// Answers an act.
fn submit(alloc: Global, site: &mut Site, words: &str) -> Result<String, NoMemory> {
    match act_of(alloc, words) {
        Ok(act) => Ok(told(alloc, &site.submit(act))?),
        Err(Unread::NoAct) => Ok(String::from_str(alloc, "no such act")?),
        Err(Unread::NoMemory) => Err(NoMemory),
    }
}

/// Why nothing is published, in words.
fn refused(alloc: Global, refused: Refused) -> Result<String, AllocError> {
    match refused {
        Refused::NothingFrozen => String::from_str(alloc, "no graph is kept"),
        Refused::Freeze(fault) => format!(in alloc; "refused: {fault}"),
        Refused::Publish(fault) => format!(in alloc; "refused: {fault}"),
        Refused::NoMemory => String::from_str(alloc, "out of memory"),
    }
}

/// What became of a freeze.
fn frozen(alloc: Global, answer: Result<u32, Refused>) -> Result<String, NoMemory> {
    match answer {
        Ok(revision) => Ok(format!(in alloc; "frozen at revision {revision}")?),
        Err(fault) => Ok(refused(alloc, fault)?),
    }
}

/// What became of a publication.
fn published(alloc: Global, answer: Result<u32, Refused>) -> Result<String, NoMemory> {
    match answer {
        Ok(number) => Ok(format!(in alloc; "publication {number}")?),
        Err(fault) => Ok(refused(alloc, fault)?),
    }
}

/// Opens a site over the rows that another kept, in its place.
fn reopen(alloc: Global, site: &mut Site) -> Result<String, NoMemory> {
    let keeper = keeper_with(alloc, site.book.keeper().rows())?;
    match Book::open(alloc, keeper, opening()) {
        Ok(book) => {
            *site = Site::new(book);
            site.counted(alloc)
        }
        Err(unopened) => Ok(format!(in alloc; "{}", unopened.fault)?),
    }
}

/// The numbers of the accounts that a publication's roster of a level has, if it has one.
fn add_roster(
    text: &mut String,
    publication: &Publication,
    level: Level,
) -> Result<(), AllocError> {
    let Some(roster) = publication.candidate.roster(level) else {
        return Ok(());
    };
    text.push_str("; ")?;
    text.push_str(level.name())?;
    text.push(':')?;
    for account in &roster.served {
        text.push_str(format!(in *text.allocator(); " {}", account.0)?.as_str())?;
    }
    Ok(())
}

/// The last publication, with its rosters, lowest level first.
fn last(alloc: Global, site: &Site) -> Result<String, NoMemory> {
    let Some(last) = site.book.last() else {
        return Ok(String::from_str(alloc, "nothing is published")?);
    };
    let number = last.number;
    let revision = last.revision;
    let mut text = format!(in alloc; "publication {number} of revision {revision}")?;
    for level in Level::GRADES {
        add_roster(&mut text, last, level)?;
    }
    Ok(text)
}

/// The level that the account of that name holds.
fn level(alloc: Global, site: &Site, word: &str) -> Result<String, NoMemory> {
    let Some(name) = Name::read(word.as_bytes()) else {
        return Ok(String::from_str(alloc, "no name")?);
    };
    match site.book.find(&name) {
        Some(account) => Ok(String::from_str(alloc, site.book.level_of(account).name())?),
        None => Ok(String::from_str(alloc, "no such account")?),
    }
}

/// A record that changed the graph or the table.
fn change(alloc: Global, site: &Site, n: u32) -> Result<String, NoMemory> {
    if n >= site.book.revision() {
        return Ok(String::from_str(alloc, "no such change")?);
    }
    let record = site.book.graph_record(n);
    Ok(format!(in alloc; "{record:?}")?)
}

fn bare<L: Ledger>(
    alloc: Global,
    site: &mut Site,
    step: Bare,
    steps: &mut Steps<L>,
) -> Result<String, NoMemory> {
    match step {
        Bare::Freeze => frozen(alloc, site.freeze(steps)),
        Bare::Publish => published(alloc, site.publish_frozen(alloc)),
        Bare::PublishNow => published(alloc, site.publish_now(alloc, steps)),
        Bare::Reopen => reopen(alloc, site),
        Bare::Rows => listed(alloc, site.book.keeper().rows()),
        Bare::Site => site.counted(alloc),
        Bare::Last => last(alloc, site),
    }
}

/// Takes a step. Gives the answer.
pub(crate) fn take_step<L: Ledger>(
    alloc: Global,
    site: &mut Site,
    line: &str,
    steps: &mut Steps<L>,
) -> Result<String, NoMemory> {
    let line = written_out(alloc, line)?;
    match step_of(line.as_str()) {
        Step::Act(words) => submit(alloc, site, words),
        Step::Load(asked) => load(alloc, site, asked, steps),
        Step::Bare(asked) => bare(alloc, site, asked, steps),
        Step::Level(word) => level(alloc, site, word),
        Step::Change(n) => change(alloc, site, n),
        Step::Show(words) => shown(alloc, site, words),
    }
}
