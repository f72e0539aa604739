//! How a row is written.

ghost use Rattle.std.specs.Prelude.{◌≡◌, ◌∷◌, [], ◌++◌, ◌<◌, ◌^◌, codes, decimal, map, take, IfOk, OnOk, string_bytes};
ghost use Rattle.form_urlencoded.specs.Form.{append_pair, extend_pairs};
ghost use Rattle.trust_types.specs.declared.records.Record.TheVariants as records;
ghost use Rattle.trust_types.specs.Kept.{IsMoment, moment_of};
ghost use Rattle.site_records.specs.Rows.{of_kind, row, secret_text, entries_text};
ghost use Rattle.site_records.specs.inner.Writing.{begun, with_pair, finished};

use crate::parts::digits_of;
use form_urlencoded::{Serializer, byte_serialize};
use itoa::Buffer;
use std::alloc::Global;
use std::str;
use trust_types::{AccountNo, Caps, Level, Name, NoMemory, Record, Secret, Text};

/// As many bytes as the version, the kind and the moment take at most.
const FRONT: usize = 28;

/// As many bytes as a number takes at most, with its key.
const NUMBER: usize = 13;

/// As many bytes as a secret takes at most, with its key.
const SECRET: usize = 67;

/// As many bytes as the values of a table take at most, with their keys.
const TABLE: usize = 86;

/// The row of a record, of version 2: its pairs, form encoded. The room for it is counted first, so that it takes memory once; that of a
/// table once more, for its entries.
///
/// # Errors
/// [`NoMemory`] where memory ran out.
pub fn row_of(alloc: Global, kept: &Record) -> Result<Vec<u8>, NoMemory>
    requires { IsMoment (moment_of kept.now) }
    ensures row { IfOk result (λ bytes. bytes.items ≡ row kept.now) }
{
    match kept {
        Record::Join {
            moment,
            name,
            secret,
        } => join_row(alloc, *moment, name, secret),
        Record::Seed { moment, subject } => seed_row(alloc, "seed", *moment, *subject),
        Record::Unseed { moment, subject } => seed_row(alloc, "unseed", *moment, *subject),
        Record::Cert {
            moment,
            author,
            subject,
            level,
        } => cert_row(alloc, *moment, *author, *subject, *level),
        Record::Table { moment, caps } => table_row(alloc, *moment, caps),
        Record::Diary {
            moment,
            author,
            text,
        } => diary_row(alloc, *moment, *author, text),
        Record::Article {
            moment,
            author,
            title,
            text,
        } => article_row(alloc, *moment, *author, title, text),
        Record::Reply {
            moment,
            author,
            article,
            text,
        } => reply_row(alloc, *moment, *author, *article, text),
        Record::Project {
            moment,
            author,
            name,
            text,
        } => project_row(alloc, *moment, *author, name, text),
    }
}

/// How many bytes a text takes, with its key.
fn room_for(text: &str) -> usize {
    let mut room: usize = 3;
    for piece in byte_serialize(text.as_bytes()) {
        room = room.saturating_add(piece.len());
    }
    room
}

/// A row that begins with the version, a kind and a moment, and has room for more.
fn begin(alloc: Global, kind: &str, moment: u64, more: usize) -> Result<Serializer, NoMemory>
    ensures { IfOk result (λ form. form ≡ begun kind.now moment) }
{
    let text = String::with_capacity(alloc, more.saturating_add(FRONT))?;
    let mut form = Serializer::new(text);
    form.append_pair("v", "2")?;
    form.append_pair("k", kind)?;
    form.append_pair("m", Buffer::new().format(moment))?;
    Ok(form)
}

fn put(form: &mut Serializer, name: &str, value: &str) -> Result<(), NoMemory>
    ensures { OnOk result (form.new ≡ with_pair form.old name.now value.now) }
{
    form.append_pair(name, value)?;
    Ok(())
}

fn put_number(form: &mut Serializer, name: &str, number: u32) -> Result<(), NoMemory>
    ensures { OnOk result (form.new ≡ with_pair form.old name.now (decimal number)) }
{
    put(form, name, Buffer::new().format(number))
}

/// The bytes of the row.
fn finish(form: Serializer) -> Vec<u8>
    ensures { result.items ≡ finished form }
{
    form.finish().into_bytes()
}

fn join_row(alloc: Global, moment: u64, name: &Name, secret: &Secret) -> Result<Vec<u8>, NoMemory>
    ensures { IfOk result (λ bytes. bytes.items ≡ row (records.Join moment name.now secret.now)) }
{
    let mut form = begin(
        alloc,
        "join",
        moment,
        room_for(name.as_str()).saturating_add(SECRET),
    )?;
    put(&mut form, "n", name.as_str())?;
    put_secret(&mut form, secret)?;
    Ok(finish(form))
}

fn put_secret(form: &mut Serializer, secret: &Secret) -> Result<(), NoMemory>
    ensures { OnOk result (form.new ≡ with_pair form.old (codes "s") (secret_text secret.now)) }
{
    match secret {
        Secret::Absent => put(form, "s", ""),
        Secret::Digest(digest) => {
            let digits = digits_of(digest);
            // SAFETY: digits are ASCII.
            let text = unsafe { str::from_utf8_unchecked(&digits) };
            put(form, "s", text)
        }
    }
}

/// A row of a kind whose own pair is an account: it becomes a seed, or is one no more.
fn seed_row(alloc: Global, kind: &str, moment: u64, subject: AccountNo) -> Result<Vec<u8>, NoMemory>
    ensures { IfOk result (λ bytes. bytes.items ≡ extend_pairs [] ((codes "v", codes "2") ∷ of_kind kind.now moment ((codes "a", decimal subject) ∷ []))) }
{
    let mut form = begin(alloc, kind, moment, NUMBER)?;
    put_number(&mut form, "a", subject.0)?;
    Ok(finish(form))
}

/// The row of a certificate. Its values are digits and letters, which a form writes as they are, so they are put behind one another without a look
/// at their bytes: most rows of a site are of this kind.
fn cert_row(
    alloc: Global,
    moment: u64,
    author: AccountNo,
    subject: AccountNo,
    level: Level,
) -> Result<Vec<u8>, NoMemory>
    ensures { IfOk result (λ bytes. bytes.items ≡ row (records.Cert moment author subject level)) }
{
    let mut text = String::with_capacity(alloc, FRONT + 3 * NUMBER)?;
    put_plain(&mut text, "v=2&k=cert&m=", moment)?;
    put_plain(&mut text, "&a=", u64::from(author.0))?;
    put_plain(&mut text, "&b=", u64::from(subject.0))?;
    text.push_str("&l=")?;
    text.push_str(level.name())?;
    Ok(text.into_bytes())
}

/// Puts a key and a number at the end of a text.
fn put_plain(text: &mut String, key: &str, number: u64) -> Result<(), NoMemory>
    ensures { OnOk result (string_bytes text.new ≡ string_bytes text.old ++ key.now ++ decimal number) }
{
    text.push_str(key)?;
    text.push_str(Buffer::new().format(number))?;
    Ok(())
}

fn table_row(alloc: Global, moment: u64, caps: &Caps) -> Result<Vec<u8>, NoMemory>
    ensures { IfOk result (λ bytes. bytes.items ≡ row (records.Table moment caps.now)) }
{
    let mut form = begin(alloc, "table", moment, TABLE)?;
    put_number(&mut form, "g", caps.levels())?;
    put(&mut form, "c", &entries_text(alloc, caps.entries())?)?;
    Ok(finish(form))
}

/// The entries, with single spaces between them.
fn entries_text(alloc: Global, entries: &[u32]) -> Result<String, NoMemory>
    ensures { IfOk result (λ text. string_bytes text ≡ entries_text entries.now) }
{
    let mut text = String::with_capacity(alloc, TABLE)?;
    let Some((first, others)) = entries.split_first() else {
        return Ok(text);
    };
    text.push_str(Buffer::new().format(*first))?;
    for entry in others {
        text.push(' ')?;
        text.push_str(Buffer::new().format(*entry))?;
    }
    Ok(text)
}

fn diary_row(
    alloc: Global,
    moment: u64,
    author: AccountNo,
    text: &Text,
) -> Result<Vec<u8>, NoMemory>
    ensures { IfOk result (λ bytes. bytes.items ≡ row (records.Diary moment author text.now)) }
{
    let room = room_for(text.as_str()).saturating_add(NUMBER);
    let mut form = begin(alloc, "diary", moment, room)?;
    put_number(&mut form, "a", author.0)?;
    put(&mut form, "t", text.as_str())?;
    Ok(finish(form))
}

fn article_row(
    alloc: Global,
    moment: u64,
    author: AccountNo,
    title: &Text,
    text: &Text,
) -> Result<Vec<u8>, NoMemory>
    ensures { IfOk result (λ bytes. bytes.items ≡ row (records.Article moment author title.now text.now)) }
{
    let texts = room_for(title.as_str()).saturating_add(room_for(text.as_str()));
    let mut form = begin(alloc, "article", moment, texts.saturating_add(NUMBER))?;
    put_number(&mut form, "a", author.0)?;
    put(&mut form, "h", title.as_str())?;
    put(&mut form, "t", text.as_str())?;
    Ok(finish(form))
}

fn reply_row(
    alloc: Global,
    moment: u64,
    author: AccountNo,
    article: u32,
    text: &Text,
) -> Result<Vec<u8>, NoMemory>
    ensures { IfOk result (λ bytes. bytes.items ≡ row (records.Reply moment author article text.now)) }
{
    let room = room_for(text.as_str()).saturating_add(2 * NUMBER);
    let mut form = begin(alloc, "reply", moment, room)?;
    put_number(&mut form, "a", author.0)?;
    put_number(&mut form, "i", article)?;
    put(&mut form, "t", text.as_str())?;
    Ok(finish(form))
}

fn project_row(
    alloc: Global,
    moment: u64,
    author: AccountNo,
    name: &Name,
    text: &Text,
) -> Result<Vec<u8>, NoMemory>
    ensures { IfOk result (λ bytes. bytes.items ≡ row (records.Project moment author name.now text.now)) }
{
    let texts = room_for(name.as_str()).saturating_add(room_for(text.as_str()));
    let mut form = begin(alloc, "project", moment, texts.saturating_add(NUMBER))?;
    put_number(&mut form, "a", author.0)?;
    put(&mut form, "n", name.as_str())?;
    put(&mut form, "t", text.as_str())?;
    Ok(finish(form))
}
