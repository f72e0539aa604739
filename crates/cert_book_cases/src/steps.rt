//! What a step asks for. A step is one of these; accounts stand by their names:
//!
//! - `join NAME`, `seed NAME`, `unseed NAME`, `cert AUTHOR SUBJECT LEVEL`, `table LEVELS ENTRY..`: the change is judged, room is made for it and
//!   it is added; or why it is refused;
//! - `crowd COUNT LETTERS`: so many accounts join, named by these letters and a number;
//! - `certs COUNT`, `freezes COUNT`: so many certificates are given at random; the book is frozen before each;
//! - `give NAME COUNT`, `take NAME COUNT`: the account certifies the first so many accounts, from the last of them on; or they certify it;
//! - `site`: how many accounts, certificates and changes there are, and the number of levels in force;
//! - `find NAME`: the account's number, and whether it is a seed;
//! - `standing AUTHOR SUBJECT`: the level at which one stands certified by the other;
//! - `given NAME`, `taken NAME`: the certificates that the account gives, and has taken;
//! - `freeze`: the graph is frozen;
//! - `frozen NAME`: the certificates that the account gives in the graph that was frozen last.

use trust_types::Level;

/// What is asked of one account.
#[derive(Clone, Copy)]
pub(crate) enum Look {
    Find,
    Given,
    Taken,
    Frozen,
}

/// Many changes at once.
pub(crate) enum Load<'a> {
    Crowd(u32, &'a str),
    Certs(u32),
    Freezes(u32),
    Give(&'a str, u32),
    Take(&'a str, u32),
}

/// A change, by the words of it.
pub(crate) enum Change<'a> {
    Join(&'a str),
    Seed(&'a str),
    Unseed(&'a str),
    Cert {
        author: &'a str,
        subject: &'a str,
        level: Level,
    },
    Table(u32, &'a str),
}

pub(crate) enum Step<'a> {
    Change(Change<'a>),
    Load(Load<'a>),
    Look(Look, &'a str),
    Standing(&'a str, &'a str),
    Freeze,
    Site,
}

/// The number in front of words, and the words.
fn number_first(words: &str) -> Option<(u32, &str)> {
    let (number, words) = words.split_once(' ')?;
    Some((number.parse().ok()?, words))
}

/// The number behind a word, and the word.
fn number_last(words: &str) -> Option<(&str, u32)> {
    let (word, number) = words.split_once(' ')?;
    Some((word, number.parse().ok()?))
}

/// The change that these words are: `AUTHOR SUBJECT LEVEL`.
fn cert_in(words: &str) -> Option<Change<'_>> {
    let (author, words) = words.split_once(' ')?;
    let (subject, level) = words.split_once(' ')?;
    let level = Level::of_name(level.as_bytes())?;
    Some(Change::Cert {
        author,
        subject,
        level,
    })
}

fn change_in<'a>(verb: &'a str, words: &'a str) -> Option<Change<'a>> {
    if verb == "join" {
        return Some(Change::Join(words));
    }
    if verb == "seed" {
        return Some(Change::Seed(words));
    }
    if verb == "unseed" {
        return Some(Change::Unseed(words));
    }
    if verb == "cert" {
        return cert_in(words);
    }
    if verb == "table" {
        let (levels, entries) = number_first(words)?;
        return Some(Change::Table(levels, entries));
    }
    None
}

fn load_in<'a>(verb: &'a str, words: &'a str) -> Option<Load<'a>> {
    if verb == "certs" {
        return Some(Load::Certs(words.parse().ok()?));
    }
    if verb == "freezes" {
        return Some(Load::Freezes(words.parse().ok()?));
    }
    if verb == "crowd" {
        let (count, letters) = number_first(words)?;
        return Some(Load::Crowd(count, letters));
    }
    if verb == "give" {
        let (name, count) = number_last(words)?;
        return Some(Load::Give(name, count));
    }
    if verb == "take" {
        let (name, count) = number_last(words)?;
        return Some(Load::Take(name, count));
    }
    None
}

fn look_in(verb: &str) -> Option<Look> {
    if verb == "find" {
        return Some(Look::Find);
    }
    if verb == "given" {
        return Some(Look::Given);
    }
    if verb == "taken" {
        return Some(Look::Taken);
    }
    if verb == "frozen" {
        return Some(Look::Frozen);
    }
    None
}

fn step_in<'a>(verb: &'a str, words: &'a str) -> Option<Step<'a>> {
    if let Some(change) = change_in(verb, words) {
        return Some(Step::Change(change));
    }
    if let Some(load) = load_in(verb, words) {
        return Some(Step::Load(load));
    }
    if let Some(look) = look_in(verb) {
        return Some(Step::Look(look, words));
    }
    if verb == "standing" {
        let (author, subject) = words.split_once(' ')?;
        return Some(Step::Standing(author, subject));
    }
    None
}

/// The step of a line; `None` where it is none.
pub(crate) fn step_of(line: &str) -> Option<Step<'_>> {
    match line.split_once(' ') {
        Some((verb, words)) => step_in(verb, words),
        None if line == "freeze" => Some(Step::Freeze),
        None if line == "site" => Some(Step::Site),
        None => None,
    }
}
