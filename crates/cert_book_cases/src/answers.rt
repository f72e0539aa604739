//! What is answered to a step.

use crate::changes::{Refusal, certify, freeze, join, put_in_force, seed, unseed};
use crate::loads::load;
use crate::looks::{counted, look_up, standing};
use crate::site::{Site, account_of, no_account};
use crate::steps::{Change, Step, step_of};
use cert_book::CertBook;
use std::alloc::{AllocError, Global};
use std::sync::ledger::Ledger;
use trust_types::{AccountNo, Caps, CertGraph, Level, NoMemory, Steps, Text};

/// Why a change isn't added, in words.
fn refused(alloc: Global, refusal: Refusal) -> Result<String, NoMemory> {
    match refusal {
        Refusal::Fault(fault) => Ok(format!(in alloc; "refused: {fault:?}")?),
        Refusal::Full => Ok(String::from_str(alloc, "as many changes as may be")?),
        Refusal::NoMemory => Err(NoMemory),
    }
}

/// What became of a change, in words.
fn told(alloc: Global, book: &CertBook, answer: Result<(), Refusal>) -> Result<String, NoMemory> {
    match answer {
        Ok(()) => Ok(format!(in alloc; "revision {}", book.revision())?),
        Err(refusal) => refused(alloc, refusal),
    }
}

/// What became of a join, in words.
fn joined(alloc: Global, answer: Result<AccountNo, Refusal>) -> Result<String, NoMemory> {
    match answer {
        Ok(account) => Ok(format!(in alloc; "account {}", account.0)?),
        Err(refusal) => refused(alloc, refusal),
    }
}

/// The table of so many levels with these entries, with a blank between two.
fn table_of(alloc: Global, levels: u32, entries: &str) -> Result<Option<Caps>, AllocError> {
    let mut numbers = Vec::new(alloc);
    for entry in entries.split(' ') {
        numbers.push(entry.parse().unwrap_or(0))?;
    }
    match Caps::with_levels(levels, &numbers) {
        Ok(caps) => Ok(Some(caps)),
        Err(_) => Ok(None),
    }
}

fn put_table<L: Ledger>(
    alloc: Global,
    book: &mut CertBook,
    caps: Option<Caps>,
    steps: &mut Steps<L>,
) -> Result<String, NoMemory> {
    match caps {
        Some(caps) => {
            let answer = put_in_force(book, caps, steps);
            told(alloc, book, answer)
        }
        None => Ok(String::from_str(alloc, "no table")?),
    }
}

fn cert<L: Ledger>(
    alloc: Global,
    book: &mut CertBook,
    author: &str,
    subject: &Text,
    level: Level,
    steps: &mut Steps<L>,
) -> Result<String, NoMemory> {
    match account_of(book, author) {
        Some(author) => {
            let answer = certify(book, author, subject, level, steps);
            told(alloc, book, answer)
        }
        None => no_account(alloc),
    }
}

/// Adds a change.
fn change<L: Ledger>(
    alloc: Global,
    book: &mut CertBook,
    change: Change<'_>,
    steps: &mut Steps<L>,
) -> Result<String, NoMemory> {
    match change {
        Change::Join(word) => joined(alloc, join(book, &Text::of(alloc, word)?, steps)),
        Change::Seed(word) => {
            let answer = seed(book, &Text::of(alloc, word)?, steps);
            told(alloc, book, answer)
        }
        Change::Unseed(word) => {
            let answer = unseed(book, &Text::of(alloc, word)?, steps);
            told(alloc, book, answer)
        }
        Change::Cert {
            author,
            subject,
            level,
        } => cert(
            alloc,
            book,
            author,
            &Text::of(alloc, subject)?,
            level,
            steps,
        ),
        Change::Table(levels, entries) => {
            let caps = table_of(alloc, levels, entries)?;
            put_table(alloc, book, caps, steps)
        }
    }
}

/// Freezes the graph, and keeps it.
fn freeze_site<L: Ledger>(
    alloc: Global,
    site: &mut Site,
    steps: &mut Steps<L>,
) -> Result<String, NoMemory> {
    let graph = freeze(&mut site.book, steps)?;
    let revision = graph.revision();
    let accounts = graph.accounts();
    let certs = graph.certs();
    site.frozen = Some(graph);
    Ok(format!(in alloc; "revision {revision}: {accounts} accounts, {certs} certificates")?)
}

/// Does what is asked for.
fn done<L: Ledger>(
    alloc: Global,
    site: &mut Site,
    step: Step<'_>,
    steps: &mut Steps<L>,
) -> Result<String, NoMemory> {
    match step {
        Step::Change(asked) => change(alloc, &mut site.book, asked, steps),
        Step::Load(asked) => load(alloc, site, asked, steps),
        Step::Look(asked, word) => look_up(alloc, site, asked, word),
        Step::Standing(author, subject) => standing(alloc, &site.book, author, subject),
        Step::Freeze => freeze_site(alloc, site, steps),
        Step::Site => counted(alloc, &site.book),
    }
}

/// Takes a step. Gives the answer.
pub(crate) fn take_step<L: Ledger>(
    alloc: Global,
    site: &mut Site,
    line: &str,
    steps: &mut Steps<L>,
) -> Result<String, NoMemory> {
    match step_of(line) {
        Some(step) => done(alloc, site, step, steps),
        None => Ok(String::from_str(alloc, "no such step")?),
    }
}
