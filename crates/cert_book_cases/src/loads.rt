//! Many changes at once.

ghost use Rattle.std.specs.Prelude.{◌<◌};

use crate::changes::{certify, freeze, join};
use crate::site::{Site, account_of, no_account};
use crate::steps::Load;
use cert_book::CertBook;
use std::alloc::Global;
use std::sync::ledger::Ledger;
use trust_types::{AccountNo, Level, NoMemory, Steps, Text};

/// Accounts join whose names are these letters and a number each. Gives how many did.
fn crowd<L: Ledger>(
    alloc: Global,
    book: &mut CertBook,
    count: u32,
    letters: &str,
    steps: &mut Steps<L>,
) -> Result<u32, NoMemory> {
    let mut joined: u32 = 0;
    for number in 0..count {
        let name = format!(in alloc; "{letters}{number}")?;
        if join(book, &Text::from_string(name), steps).is_ok() {
            joined = joined.saturating_add(1);
        }
    }
    Ok(joined)
}

/// The names of all accounts, in order.
fn names_of(alloc: Global, book: &CertBook) -> Result<Vec<Text>, NoMemory> {
    let mut names = Vec::new(alloc);
    for account in 0..book.accounts() {
        names.push(Text::of(alloc, book.name(AccountNo(account)).as_str())?)?;
    }
    Ok(names)
}

/// The next of a list of numbers without an order, by Knuth's multiplier.
fn next(number: u64) -> u64 {
    number
        .wrapping_mul(6_364_136_223_846_793_005)
        .wrapping_add(1_442_695_040_888_963_407)
}

/// A number below a bound, out of a random one's upper bits; 0 where the bound is 0.
fn below(bound: usize, random: u64) -> usize {
    (random >> 33) as usize % bound.max(1)
}

/// The account of a number certifies that of a name, if there are both. Whether it did.
fn certify_by_number<L: Ledger>(
    book: &mut CertBook,
    author: usize,
    name: Option<&Text>,
    steps: &mut Steps<L>,
) -> bool {
    let Some(name) = name else {
        return false;
    };
    if author >= book.accounts() as usize {
        return false;
    }
    certify(
        book,
        AccountNo(author as u32),
        name,
        Level::Journeyer,
        steps,
    )
    .is_ok()
}

/// So many certificates are given, of random accounts for random others. Gives how many are accepted.
fn certify_many<L: Ledger>(
    alloc: Global,
    book: &mut CertBook,
    count: u32,
    steps: &mut Steps<L>,
) -> Result<u32, NoMemory> {
    let names = names_of(alloc, book)?;
    let mut accepted: u32 = 0;
    let mut author: u64 = 1;
    for _ in 0..count {
        let subject = next(author);
        let name = names.get(below(names.len(), subject));
        if certify_by_number(book, below(names.len(), author), name, steps) {
            accepted = accepted.saturating_add(1);
        }
        author = next(subject);
    }
    Ok(accepted)
}

/// The same, and the book is frozen before each.
fn freeze_many<L: Ledger>(
    alloc: Global,
    site: &mut Site,
    count: u32,
    steps: &mut Steps<L>,
) -> Result<u32, NoMemory> {
    let names = names_of(alloc, &site.book)?;
    let mut accepted: u32 = 0;
    let mut author: u64 = 3;
    for _ in 0..count {
        site.frozen = Some(freeze(&mut site.book, steps)?);
        let subject = next(author);
        let name = names.get(below(names.len(), subject));
        if certify_by_number(&mut site.book, below(names.len(), author), name, steps) {
            accepted = accepted.saturating_add(1);
        }
        author = next(subject);
    }
    Ok(accepted)
}

/// The account certifies the first so many accounts, from the last of them on. Gives how often that is accepted.
fn give<L: Ledger>(
    alloc: Global,
    book: &mut CertBook,
    account: AccountNo,
    count: u32,
    steps: &mut Steps<L>,
) -> Result<u32, NoMemory> {
    let names = names_of(alloc, book)?;
    let mut accepted: u32 = 0;
    for number in (0..count as usize).rev() {
        if certify_by_number(book, account.0 as usize, names.get(number), steps) {
            accepted = accepted.saturating_add(1);
        }
    }
    Ok(accepted)
}

/// The first so many accounts certify one, from the last of them on. Gives how often that is accepted.
fn take<L: Ledger>(book: &mut CertBook, name: &Text, count: u32, steps: &mut Steps<L>) -> u32 {
    let mut accepted: u32 = 0;
    for number in (0..count as usize).rev() {
        if certify_by_number(book, number, Some(name), steps) {
            accepted = accepted.saturating_add(1);
        }
    }
    accepted
}

fn accepted(alloc: Global, count: u32) -> Result<String, NoMemory> {
    Ok(format!(in alloc; "{count} accepted")?)
}

/// Adds many changes. Gives how many were accepted, in words.
pub(crate) fn load<L: Ledger>(
    alloc: Global,
    site: &mut Site,
    load: Load<'_>,
    steps: &mut Steps<L>,
) -> Result<String, NoMemory> {
    match load {
        Load::Crowd(count, letters) => {
            let joined = crowd(alloc, &mut site.book, count, letters, steps)?;
            Ok(format!(in alloc; "{joined} joined")?)
        }
        Load::Certs(count) => accepted(alloc, certify_many(alloc, &mut site.book, count, steps)?),
        Load::Freezes(count) => accepted(alloc, freeze_many(alloc, site, count, steps)?),
        Load::Give(word, count) => match account_of(&site.book, word) {
            Some(account) => accepted(alloc, give(alloc, &mut site.book, account, count, steps)?),
            None => no_account(alloc),
        },
        Load::Take(word, count) => {
            let name = Text::of(alloc, word)?;
            accepted(alloc, take(&mut site.book, &name, count, steps))
        }
    }
}
