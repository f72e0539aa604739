//! What the steps of a block work on.

ghost use Rattle.std.specs.Prelude.{IfSome};
ghost use Rattle.cert_book.specs.Books.{book as says, IsAccount};

use cert_book::CertBook;
use frozen::Frozen;
use std::alloc::Global;
use std::sync::Arc;
use trust_types::{AccountNo, Caps, Name, NoMemory};

/// A book, and the graph that was frozen of it last.
#[derive(Drop)]
pub(crate) struct Site {
    pub(crate) book: CertBook,
    pub(crate) frozen: Option<Arc<Frozen>>,
}

impl Site {
    pub(crate) fn new(alloc: Global) -> Site {
        Site {
            book: CertBook::new(alloc, Caps::standard()),
            frozen: None,
        }
    }
}

/// The account whose name the word is.
pub(crate) fn account_of(book: &CertBook, word: &str) -> Option<AccountNo>
    ensures { IfSome result (IsAccount (says book.now)) }
{
    match Name::read(word.as_bytes()) {
        Some(name) => book.find(&name),
        None => None,
    }
}

/// The answer where no account has the name.
pub(crate) fn no_account(alloc: Global) -> Result<String, NoMemory> {
    Ok(String::from_str(alloc, "no such account")?)
}
