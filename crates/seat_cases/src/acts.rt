//! Acts in words.

use anyhow::{Result, bail};
use site_history::{Act, Author, Command};
use std::alloc::Global;
use trust_types::{Caps, Level, Secret, Text};

/// The act of an author, or of nobody.
fn act(author: Option<Author>, command: Command) -> Result<Act> {
    match Act::of(author, command) {
        Some(act) => Ok(act),
        None => bail!("nobody may do that"),
    }
}

/// The certificate of these words, by that account.
fn certificate(alloc: Global, author: &str, words: &str) -> Result<Act> {
    let Some((name, level)) = words.split_once(' ') else {
        bail!("a certificate has a level")
    };
    let Some(level) = Level::of_name(level.as_bytes()) else {
        bail!("there is no such level")
    };
    let author = Author::Named(Text::of(alloc, author)?);
    let subject = Text::of(alloc, name)?;
    act(Some(author), Command::Cert { subject, level })
}

/// The diary entry of that account.
fn entry(alloc: Global, author: &str, words: &str) -> Result<Act> {
    let author = Author::Named(Text::of(alloc, author)?);
    let text = Text::of(alloc, words)?;
    act(Some(author), Command::Diary { text })
}

/// The act that the words tell.
pub(crate) fn act_of(alloc: Global, words: &str) -> Result<Act> {
    if words == "the usual table" {
        let caps = Caps::standard();
        return act(None, Command::Table { caps });
    }
    let Some((name, rest)) = words.split_once(' ') else {
        bail!("an act has a name and what is done")
    };
    if rest == "joins" {
        let name = Text::of(alloc, name)?;
        let secret = Secret::Absent;
        return act(None, Command::Join { name, secret });
    }
    if rest == "is a seed" {
        let subject = Text::of(alloc, name)?;
        return act(None, Command::Seed { subject });
    }
    match rest.split_once(' ') {
        Some(("certifies", rest)) => certificate(alloc, name, rest),
        Some(("writes", rest)) => entry(alloc, name, rest),
        _ => bail!("an act is one of the header's"),
    }
}
