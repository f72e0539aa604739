//! Steps that ask which level a post needs.

use posting_policy::{PostKind, admits, needs};
use std::alloc::{AllocError, Global};
use trust_types::Level;

/// The kind of post that the word names.
fn kind_of(word: &str) -> Option<PostKind> {
    if word == "diary" {
        return Some(PostKind::Diary);
    }
    if word == "reply" {
        return Some(PostKind::Reply);
    }
    if word == "project" {
        return Some(PostKind::Project);
    }
    if word == "article" {
        return Some(PostKind::Article);
    }
    None
}

/// The level's name behind a text, where this kind of post admits it.
fn add_level(text: &mut String, kind: PostKind, level: Level) -> Result<(), AllocError> {
    if admits(kind, level) {
        text.push_str(" ")?;
        text.push_str(level.name())?;
    }
    Ok(())
}

/// The level that this kind of post needs, and behind it all that it admits, lowest first.
fn levels_of(alloc: Global, kind: PostKind) -> Result<String, AllocError> {
    let mut text = format!(in alloc; "needs {}, admits", needs(kind).name())?;
    add_level(&mut text, kind, Level::Observer)?;
    for level in Level::GRADES {
        add_level(&mut text, kind, level)?;
    }
    Ok(text)
}

/// Takes a step. Gives the answer.
pub(crate) fn answer(alloc: Global, word: &str) -> Result<String, AllocError> {
    match kind_of(word) {
        Some(kind) => levels_of(alloc, kind),
        None => String::from_str(alloc, "no kind of post"),
    }
}
