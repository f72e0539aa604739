//! Steps on an open site. A step is one of these, or an act (see `acts`):
//!
//! - `times N ACT`: the same act so many times; the last answer is shown;
//! - `crowd N LETTERS`: so many accounts join, named by these letters and a number each;
//! - `certs N LETTERS ACCOUNTS`: so many certificates are given at random between the first accounts of such names;
//! - `drafts N LETTERS ACCOUNTS`: the same acts are made, and none is submitted;
//! - `freezes N LETTERS ACCOUNTS`: so many certificates, and the graph is frozen before each;
//! - `freeze`: the graph is frozen, and kept;
//! - `publish`: the rosters of the graph that is kept are published;
//! - `publish now`: the graph is frozen and its rosters are published, while the graph that is kept stays;
//! - `reopen`: another site is opened over the rows that were kept, and takes this one's place;
//! - `rows`: the rows that were kept;
//! - `site`: how many places, publications and revisions there are;
//! - `level NAME`: the level that the account holds;
//! - `change N`: the N-th record that changed the graph or the table, counted from 0;
//! - `last`: the number, the revision and the rosters of the last publication;
//! - `show front`, `show person NAME`, `show diary NAME`, `show article N`, `show project NAME`, `show stewards`.

/// Many acts at once.
pub(crate) enum Load<'a> {
    Times(u32, &'a str),
    Crowd(u32, &'a str),
    Certs(u32, &'a str, u32),
    Drafts(u32, &'a str, u32),
    Freezes(u32, &'a str, u32),
}

/// A step in one word.
#[derive(Clone, Copy)]
pub(crate) enum Bare {
    Freeze,
    Publish,
    PublishNow,
    Reopen,
    Rows,
    Site,
    Last,
}

pub(crate) enum Step<'a> {
    Act(&'a str),
    Load(Load<'a>),
    Bare(Bare),
    Level(&'a str),
    Change(u32),
    Show(&'a str),
}

/// The number in front of words, and the words.
fn number_first(words: &str) -> Option<(u32, &str)> {
    let (number, words) = words.split_once(' ')?;
    Some((number.parse().ok()?, words))
}

/// `N LETTERS ACCOUNTS`
fn three_words(words: &str) -> Option<(u32, &str, u32)> {
    let (count, words) = number_first(words)?;
    let (letters, accounts) = words.split_once(' ')?;
    Some((count, letters, accounts.parse().ok()?))
}

fn load_in<'a>(verb: &'a str, words: &'a str) -> Option<Load<'a>> {
    if verb == "times" {
        let (count, act) = number_first(words)?;
        return Some(Load::Times(count, act));
    }
    if verb == "crowd" {
        let (count, letters) = number_first(words)?;
        return Some(Load::Crowd(count, letters));
    }
    if verb == "certs" {
        let (count, letters, accounts) = three_words(words)?;
        return Some(Load::Certs(count, letters, accounts));
    }
    if verb == "drafts" {
        let (count, letters, accounts) = three_words(words)?;
        return Some(Load::Drafts(count, letters, accounts));
    }
    if verb == "freezes" {
        let (count, letters, accounts) = three_words(words)?;
        return Some(Load::Freezes(count, letters, accounts));
    }
    None
}

fn step_in<'a>(verb: &'a str, words: &'a str) -> Option<Step<'a>> {
    if let Some(load) = load_in(verb, words) {
        return Some(Step::Load(load));
    }
    if verb == "level" {
        return Some(Step::Level(words));
    }
    if verb == "change" {
        return Some(Step::Change(words.parse().ok()?));
    }
    if verb == "show" {
        return Some(Step::Show(words));
    }
    None
}

fn bare_in(line: &str) -> Option<Bare> {
    if line == "freeze" {
        return Some(Bare::Freeze);
    }
    if line == "publish" {
        return Some(Bare::Publish);
    }
    if line == "publish now" {
        return Some(Bare::PublishNow);
    }
    if line == "reopen" {
        return Some(Bare::Reopen);
    }
    if line == "rows" {
        return Some(Bare::Rows);
    }
    if line == "site" {
        return Some(Bare::Site);
    }
    if line == "last" {
        return Some(Bare::Last);
    }
    None
}

/// The step of a line; an act, where it is none else.
pub(crate) fn step_of(line: &str) -> Step<'_> {
    if let Some(bare) = bare_in(line) {
        return Step::Bare(bare);
    }
    let Some((verb, words)) = line.split_once(' ') else {
        return Step::Act(line);
    };
    match step_in(verb, words) {
        Some(step) => step,
        None => Step::Act(line),
    }
}
