//! How a row is read.

ghost use Rattle.std.specs.Prelude.{◌≡◌, Ok, Err, ℕ, IfOk, IfErr, ◌≢◌};
ghost use Rattle.std.specs.Str.{bytes_eq};
ghost use Rattle.trust_types.specs.declared.records.Record.{Record as Kept};
ghost use Rattle.trust_types.specs.Kept.{IsMoment, moment_of};
ghost use Rattle.site_records.specs.declared.faults.RowFault.TheVariants.{NotARow as NoRow, NoMemory as NoMemoryLeft};
ghost use Rattle.site_records.specs.Records.{IsRecord};
ghost use Rattle.site_records.specs.Rows.{IsRowOf};
ghost use Rattle.site_records.specs.inner.Reading.{Reads, read, record_in, post, new_kind, join_in, seed_in, unseed_in, cert_in, table_in, diary_in, article_in, reply_in, project_in};

use crate::faults::RowFault;
use crate::fields::{one_value, three_values, two_values, value_at};
use crate::parts::{account_in, level_in, name_in, number_32, number_in, secret_in};
use crate::tables::{entries_in, levels_in};
use crate::texts::text_in;
use crate::versions::Version;
use std::alloc::Global;
use trust_types::{Caps, LAST_MOMENT, Record};

/// The record whose row these bytes are, of version 1 or 2. It takes memory for the texts alone, and a part that is none is found
/// before any memory is taken for the texts behind it.
///
/// # Errors
/// [`RowFault::NotARow`] exactly where no record has this row, and [`RowFault::NoMemory`] where memory ran out.
pub fn read_row(alloc: Global, bytes: &[u8]) -> Result<Record, RowFault>
    ensures record { IfOk result IsRecord }
    ensures moment { IfOk result (λ x. IsMoment (moment_of x)) }
    ensures row { IfOk result (λ x. IsRowOf x bytes.now) }
    ensures none { IfErr result (λ fault. fault ≡ NoRow → (x : Kept) → IsRecord x → ¬ (IsRowOf x bytes.now)) }
    ensures exact { (x : Kept) → IsRecord x → IsRowOf x bytes.now → result ≢ Err NoMemoryLeft → result ≡ Ok x }
{
    read(alloc, bytes)
}

#[tactic(auto, unfolding(crate::specs::inner::Reading::read))]
fn read(alloc: Global, bytes: &[u8]) -> Result<Record, RowFault>
    ensures { Reads result (read bytes.now) }
{
    let (version, rest) = value_at(b"v=", bytes)?;
    let (kind, rest) = value_at(b"&k=", rest)?;
    let (moment, rest) = value_at(b"&m=", rest)?;
    let version = Version::read(version)?;
    let moment = number_in(LAST_MOMENT, moment)?;
    read_record(alloc, version, kind, moment, rest)
}

fn is_same(word: &[u8], other: &[u8]) -> bool
    ensures { result ≡ bytes_eq word.now other.now }
{
    word == other
}

/// The record of a kind and a moment, by its own values.
#[tactic(auto, unfolding(crate::specs::inner::Reading::record_in))]
fn read_record(
    alloc: Global,
    version: Version,
    kind: &[u8],
    moment: u64,
    row: &[u8],
) -> Result<Record, RowFault>
    ensures { Reads result (record_in version kind.now moment row.now) }
{
    if is_same(kind, b"cert") {
        return read_cert(version, moment, row);
    }
    if is_same(kind, b"join") {
        return read_join(moment, row);
    }
    if is_same(kind, b"seed") {
        return read_seed(moment, row);
    }
    read_post(alloc, version, kind, moment, row)
}

fn read_post(
    alloc: Global,
    version: Version,
    kind: &[u8],
    moment: u64,
    row: &[u8],
) -> Result<Record, RowFault>
    ensures { Reads result (post version kind.now moment row.now) }
{
    if is_same(kind, b"diary") {
        return read_diary(alloc, moment, row);
    }
    if is_same(kind, b"article") {
        return read_article(alloc, moment, row);
    }
    if is_same(kind, b"reply") {
        return read_reply(alloc, moment, row);
    }
    if is_same(kind, b"project") {
        return read_project(alloc, moment, row);
    }
    read_new_kind(version, kind, moment, row)
}

/// A record of a kind that version 1 hadn't.
fn read_new_kind(version: Version, kind: &[u8], moment: u64, row: &[u8]) -> Result<Record, RowFault>
    ensures { result ≡ new_kind version kind.now moment row.now }
{
    match version {
        Version::One => Err(RowFault::NotARow),
        Version::Two => {
            if is_same(kind, b"unseed") {
                return read_unseed(moment, row);
            }
            if is_same(kind, b"table") {
                return read_table(moment, row);
            }
            Err(RowFault::NotARow)
        }
    }
}

fn read_join(moment: u64, row: &[u8]) -> Result<Record, RowFault>
    ensures { result ≡ join_in moment row.now }
{
    let (name, secret) = two_values(b"&n=", b"&s=", row)?;
    let name = name_in(name)?;
    let secret = secret_in(secret)?;
    Ok(Record::Join {
        moment,
        name,
        secret,
    })
}

fn read_seed(moment: u64, row: &[u8]) -> Result<Record, RowFault>
    ensures { result ≡ seed_in moment row.now }
{
    let subject = account_in(one_value(b"&a=", row)?)?;
    Ok(Record::Seed { moment, subject })
}

fn read_unseed(moment: u64, row: &[u8]) -> Result<Record, RowFault>
    ensures { result ≡ unseed_in moment row.now }
{
    let subject = account_in(one_value(b"&a=", row)?)?;
    Ok(Record::Unseed { moment, subject })
}

fn read_cert(version: Version, moment: u64, row: &[u8]) -> Result<Record, RowFault>
    ensures { result ≡ cert_in version moment row.now }
{
    let (author, subject, level) = three_values(b"&a=", b"&b=", b"&l=", row)?;
    let author = account_in(author)?;
    let subject = account_in(subject)?;
    let level = level_in(version, level)?;
    Ok(Record::Cert {
        moment,
        author,
        subject,
        level,
    })
}

fn read_table(moment: u64, row: &[u8]) -> Result<Record, RowFault>
    ensures { result ≡ table_in moment row.now }
{
    let (levels, entries) = two_values(b"&g=", b"&c=", row)?;
    let levels = levels_in(levels)?;
    let entries = entries_in(entries)?;
    Ok(Record::Table {
        moment,
        caps: Caps::of(levels, entries),
    })
}

fn read_diary(alloc: Global, moment: u64, row: &[u8]) -> Result<Record, RowFault>
    ensures { Reads result (diary_in moment row.now) }
{
    let (author, text) = two_values(b"&a=", b"&t=", row)?;
    let author = account_in(author)?;
    let text = text_in(alloc, text)?;
    Ok(Record::Diary {
        moment,
        author,
        text,
    })
}

fn read_article(alloc: Global, moment: u64, row: &[u8]) -> Result<Record, RowFault>
    ensures { Reads result (article_in moment row.now) }
{
    let (author, title, text) = three_values(b"&a=", b"&h=", b"&t=", row)?;
    let author = account_in(author)?;
    let title = text_in(alloc, title)?;
    let text = text_in(alloc, text)?;
    Ok(Record::Article {
        moment,
        author,
        title,
        text,
    })
}

fn read_reply(alloc: Global, moment: u64, row: &[u8]) -> Result<Record, RowFault>
    ensures { Reads result (reply_in moment row.now) }
{
    let (author, article, text) = three_values(b"&a=", b"&i=", b"&t=", row)?;
    let author = account_in(author)?;
    let article = number_32(article)?;
    let text = text_in(alloc, text)?;
    Ok(Record::Reply {
        moment,
        author,
        article,
        text,
    })
}

fn read_project(alloc: Global, moment: u64, row: &[u8]) -> Result<Record, RowFault>
    ensures { Reads result (project_in moment row.now) }
{
    let (author, name, text) = three_values(b"&a=", b"&n=", b"&t=", row)?;
    let author = account_in(author)?;
    let name = name_in(name)?;
    let text = text_in(alloc, text)?;
    Ok(Record::Project {
        moment,
        author,
        name,
        text,
    })
}
