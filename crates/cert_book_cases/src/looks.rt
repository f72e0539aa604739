//! What is looked up in a book, and in the graph that was frozen last.

ghost use Rattle.cert_book.specs.Books.{book as says, IsAccount};

use crate::site::{Site, account_of, no_account};
use crate::steps::Look;
use cert_book::CertBook;
use frozen::Frozen;
use std::alloc::{AllocError, Global};
use trust_types::{AccountNo, Cert, CertGraph, NoMemory};

/// How many there are of each.
pub(crate) fn counted(alloc: Global, book: &CertBook) -> Result<String, NoMemory> {
    let levels = book.table().levels();
    let accounts = book.accounts();
    let certs = book.certs();
    let revision = book.revision();
    Ok(format!(in alloc;
        "{accounts} accounts, {certs} certificates, revision {revision}, {levels} levels"
    )?)
}

/// The level at which one account stands certified by another.
pub(crate) fn standing(
    alloc: Global,
    book: &CertBook,
    author: &str,
    subject: &str,
) -> Result<String, NoMemory> {
    match (account_of(book, author), account_of(book, subject)) {
        (Some(author), Some(subject)) => {
            let level = book.standing(author, subject);
            Ok(String::from_str(alloc, level.name())?)
        }
        _ => no_account(alloc),
    }
}

/// The certificate behind a text.
fn add_cert(text: &mut String, cert: Cert) -> Result<(), AllocError> {
    let words = format!(in *text.allocator(); " {}>{} {}", cert.from.0, cert.to.0, cert.level)?;
    text.push_str(words.as_str())
}

fn given(alloc: Global, book: &CertBook, account: AccountNo) -> Result<String, AllocError>
    requires { IsAccount (says book.now) account }
{
    let count = book.given_count(account);
    let mut text = format!(in alloc; "{count} given:")?;
    for i in 0..count {
        add_cert(&mut text, book.given(account, i))?;
    }
    Ok(text)
}

fn taken(alloc: Global, book: &CertBook, account: AccountNo) -> Result<String, AllocError>
    requires { IsAccount (says book.now) account }
{
    let count = book.taken_count(account);
    let mut text = format!(in alloc; "{count} taken:")?;
    for i in 0..count {
        add_cert(&mut text, book.taken(account, i))?;
    }
    Ok(text)
}

fn found(alloc: Global, book: &CertBook, account: AccountNo) -> Result<String, AllocError>
    requires { IsAccount (says book.now) account }
{
    let number = account.0;
    if book.is_seed(account) {
        return format!(in alloc; "account {number}, a seed");
    }
    format!(in alloc; "account {number}")
}

/// What the account gives in the graph.
fn given_in(alloc: Global, frozen: &Frozen, account: AccountNo) -> Result<String, AllocError> {
    if account.0 >= frozen.accounts() {
        return String::from_str(alloc, "not there yet");
    }
    let count = frozen.degree(account);
    let revision = frozen.revision();
    let mut text = format!(in alloc; "{count} given at revision {revision}:")?;
    for i in 0..count {
        add_cert(&mut text, frozen.given(account, i))?;
    }
    Ok(text)
}

/// The same in the graph that was frozen last.
fn frozen(alloc: Global, site: &Site, account: AccountNo) -> Result<String, AllocError> {
    match &site.frozen {
        Some(graph) => given_in(alloc, graph, account),
        None => String::from_str(alloc, "nothing was frozen yet"),
    }
}

fn at_account(
    alloc: Global,
    site: &Site,
    look: Look,
    account: AccountNo,
) -> Result<String, AllocError>
    requires { IsAccount (says site.now.book) account }
{
    match look {
        Look::Find => found(alloc, &site.book, account),
        Look::Given => given(alloc, &site.book, account),
        Look::Taken => taken(alloc, &site.book, account),
        Look::Frozen => frozen(alloc, site, account),
    }
}

/// What is asked of the account of that name.
pub(crate) fn look_up(
    alloc: Global,
    site: &Site,
    look: Look,
    word: &str,
) -> Result<String, NoMemory> {
    match account_of(&site.book, word) {
        Some(account) => Ok(at_account(alloc, site, look, account)?),
        None => no_account(alloc),
    }
}
