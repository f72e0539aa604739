//! Changes of the book: each is judged, room is made for it, and it is added.

ghost use Rattle.std.specs.Prelude.{◌≡◌, ◌<◌, ◌≤◌, ◌+◌, Some, OnOk, IfSome, length};
ghost use Rattle.trust_types.specs.Changes.{Change};
ghost use Rattle.cert_book.specs.Books.{book as says, IsAccount, Follows, HasPlace};

use cert_book::{CertBook, CertFault};
use frozen::Frozen;
use std::sync::Arc;
use std::sync::ledger::Ledger;
use trust_types::{AccountNo, Caps, Level, NoMemory, Steps, Text};

/// Why a change isn't added.
#[derive(Drop)]
pub(crate) enum Refusal {
    Fault(CertFault),
    /// There were as many changes as may be.
    Full,
    NoMemory,
}

impl From<CertFault> for Refusal {
    fn from(fault: CertFault) -> Refusal {
        Refusal::Fault(fault)
    }
}

impl From<NoMemory> for Refusal {
    fn from(_refusal: NoMemory) -> Refusal {
        Refusal::NoMemory
    }
}

/// Whether there were fewer changes than may be.
fn not_full(book: &CertBook) -> Result<(), Refusal>
    ensures { OnOk result ((says book.now).revision < 4_294_967_295) }
{
    if book.revision() < u32::MAX {
        Ok(())
    } else {
        Err(Refusal::Full)
    }
}

/// Makes room for one more change that touches these accounts. What could be added can still be added.
fn make_room<L: Ledger>(
    book: &mut CertBook,
    author: Option<AccountNo>,
    subject: Option<AccountNo>,
    steps: &mut Steps<L>,
) -> Result<(), Refusal>
    requires author { IfSome author (IsAccount (says book.old)) }
    requires subject { IfSome subject (IsAccount (says book.old)) }
    ensures short { OnOk result ((says book.new).revision < 4_294_967_295) }
    ensures room { OnOk result (book.new.room ≡ Some (record { author = author; subject = subject })) }
    ensures follows { (change : Change) → Follows (says book.old) change → Follows (says book.new) change }
    ensures place { (change : Change) → HasPlace (says book.old) change → HasPlace (says book.new) change }
{
    not_full(book)?;
    Ok(book.reserve(author, subject, steps)?)
}

/// An account joins.
pub(crate) fn join<L: Ledger>(
    book: &mut CertBook,
    name: &Text,
    steps: &mut Steps<L>,
) -> Result<AccountNo, Refusal> {
    let name = book.judge_join(name)?;
    make_room(book, None, None, steps)?;
    Ok(book.add_join(name, steps))
}

/// An account becomes a seed.
pub(crate) fn seed<L: Ledger>(
    book: &mut CertBook,
    name: &Text,
    steps: &mut Steps<L>,
) -> Result<(), Refusal> {
    let account = book.judge_seed(name)?;
    make_room(book, None, Some(account), steps)?;
    book.add_seed(account, steps);
    Ok(())
}

/// An account is a seed no more.
pub(crate) fn unseed<L: Ledger>(
    book: &mut CertBook,
    name: &Text,
    steps: &mut Steps<L>,
) -> Result<(), Refusal> {
    let account = book.judge_unseed(name)?;
    make_room(book, None, Some(account), steps)?;
    book.add_unseed(account);
    Ok(())
}

/// One account certifies another.
pub(crate) fn certify<L: Ledger>(
    book: &mut CertBook,
    author: AccountNo,
    subject: &Text,
    level: Level,
    steps: &mut Steps<L>,
) -> Result<(), Refusal>
    requires { IsAccount (says book.old) author }
{
    let account = book.judge_cert(author, subject, level)?;
    make_room(book, Some(author), Some(account), steps)?;
    book.add_cert(author, account, level, steps);
    Ok(())
}

/// Another table comes into force.
pub(crate) fn put_in_force<L: Ledger>(
    book: &mut CertBook,
    caps: Caps,
    steps: &mut Steps<L>,
) -> Result<(), Refusal> {
    book.judge_table(&caps)?;
    make_room(book, None, None, steps)?;
    book.add_table(caps);
    Ok(())
}

/// Freezes a book of up to 192 accounts, which has three blocks at most: in seven steps at most.
fn freeze_three_blocks<L: Ledger>(
    book: &mut CertBook,
    steps: &mut Steps<L>,
) -> Result<Arc<Frozen>, NoMemory>
    requires { length (says book.old).names ≤ 192 }
    ensures { steps.new ≤ steps.old + 7 }
{
    book.freeze(steps)
}

/// Freezes the book.
pub(crate) fn freeze<L: Ledger>(
    book: &mut CertBook,
    steps: &mut Steps<L>,
) -> Result<Arc<Frozen>, NoMemory> {
    if book.accounts() <= 192 {
        freeze_three_blocks(book, steps)
    } else {
        book.freeze(steps)
    }
}
