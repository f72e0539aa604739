//! Acts in words. An act is a command, or `AUTHOR: COMMAND`. An author is `NAME`, or `NAME@N`, who is logged in under the token whose 16 bytes are all N.
//! A command is one of these:
//!
//! - `join NAME`, `join NAME PASSWORD`;
//! - `seed NAME`, `unseed NAME`;
//! - `cert NAME LEVEL`;
//! - `table LEVELS ENTRIES`: a table of so many levels, with a blank between two entries;
//! - `diary TEXT`, `article TITLE / TEXT`, `reply N TEXT`, `project NAME TEXT`;
//! - `login NAME PASSWORD N`, `logout`.

use sessions::{Token, secret_of};
use site_history::{Act, Answer, Author, Command};
use std::alloc::{AllocError, Global};
use trust_types::{Caps, Level, Name, NoMemory, Secret, Text};

/// Why there is no act.
#[derive(Drop)]
pub(crate) enum Unread {
    /// The words are none.
    NoAct,
    NoMemory,
}

impl From<NoMemory> for Unread {
    fn from(_refusal: NoMemory) -> Unread {
        Unread::NoMemory
    }
}

impl From<AllocError> for Unread {
    fn from(_refusal: AllocError) -> Unread {
        Unread::NoMemory
    }
}

/// The token whose bytes are all alike.
fn token_of(word: &str) -> Result<Token, Unread> {
    match word.parse() {
        Ok(byte) => Ok(Token([byte; 16])),
        Err(_) => Err(Unread::NoAct),
    }
}

fn author_of(alloc: Global, word: &str) -> Result<Author, Unread> {
    match word.split_once('@') {
        Some((name, token)) => Ok(Author::Session(Text::of(alloc, name)?, token_of(token)?)),
        None => Ok(Author::Named(Text::of(alloc, word)?)),
    }
}

/// What is kept of the password of an account of that name.
fn secret_for(name: &str, password: &str) -> Secret {
    match Name::read(name.as_bytes()) {
        Some(name) => secret_of(&name, password),
        None => Secret::Absent,
    }
}

/// The digest of a password; zeros where there is none.
fn digest_of(secret: Secret) -> [u8; 32] {
    match secret {
        Secret::Digest(digest) => digest,
        Secret::Absent => [0; 32],
    }
}

fn join(alloc: Global, words: &str) -> Result<Command, Unread> {
    match words.split_once(' ') {
        Some((name, password)) => Ok(Command::Join {
            name: Text::of(alloc, name)?,
            secret: secret_for(name, password),
        }),
        None => Ok(Command::Join {
            name: Text::of(alloc, words)?,
            secret: Secret::Absent,
        }),
    }
}

fn cert(alloc: Global, words: &str) -> Result<Command, Unread> {
    let (name, level) = words.split_once(' ').ok_or(Unread::NoAct)?;
    let level = Level::of_name(level.as_bytes()).ok_or(Unread::NoAct)?;
    Ok(Command::Cert {
        subject: Text::of(alloc, name)?,
        level,
    })
}

/// The numbers that the words are, with a blank between two; 0 where one is none.
fn numbers_in(alloc: Global, words: &str) -> Result<Vec<u32>, NoMemory> {
    let mut numbers = Vec::new(alloc);
    for word in words.split(' ') {
        numbers.push(word.parse().unwrap_or(0))?;
    }
    Ok(numbers)
}

fn table(alloc: Global, words: &str) -> Result<Command, Unread> {
    let (levels, words) = words.split_once(' ').ok_or(Unread::NoAct)?;
    let entries = numbers_in(alloc, words)?;
    match Caps::with_levels(levels.parse().unwrap_or(0), &entries) {
        Ok(caps) => Ok(Command::Table { caps }),
        Err(_) => Err(Unread::NoAct),
    }
}

fn article(alloc: Global, words: &str) -> Result<Command, Unread> {
    let (title, text) = words.split_once(" / ").ok_or(Unread::NoAct)?;
    Ok(Command::Article {
        title: Text::of(alloc, title)?,
        text: Text::of(alloc, text)?,
    })
}

fn reply(alloc: Global, words: &str) -> Result<Command, Unread> {
    let (number, text) = words.split_once(' ').ok_or(Unread::NoAct)?;
    match number.parse() {
        Ok(article) => Ok(Command::Reply {
            article,
            text: Text::of(alloc, text)?,
        }),
        Err(_) => Err(Unread::NoAct),
    }
}

fn project(alloc: Global, words: &str) -> Result<Command, Unread> {
    let (name, text) = words.split_once(' ').ok_or(Unread::NoAct)?;
    Ok(Command::Project {
        name: Text::of(alloc, name)?,
        text: Text::of(alloc, text)?,
    })
}

fn login(alloc: Global, words: &str) -> Result<Command, Unread> {
    let (name, words) = words.split_once(' ').ok_or(Unread::NoAct)?;
    let (password, token) = words.split_once(' ').ok_or(Unread::NoAct)?;
    Ok(Command::Login {
        name: Text::of(alloc, name)?,
        proof: digest_of(secret_for(name, password)),
        token: token_of(token)?,
    })
}

/// Who takes part, and a change of seeds or of the table.
fn site_command(alloc: Global, verb: &str, words: &str) -> Result<Command, Unread> {
    if verb == "join" {
        return join(alloc, words);
    }
    if verb == "seed" {
        return Ok(Command::Seed {
            subject: Text::of(alloc, words)?,
        });
    }
    if verb == "unseed" {
        return Ok(Command::Unseed {
            subject: Text::of(alloc, words)?,
        });
    }
    if verb == "table" {
        return table(alloc, words);
    }
    if verb == "login" {
        return login(alloc, words);
    }
    if verb == "logout" {
        return Ok(Command::Logout);
    }
    Err(Unread::NoAct)
}

/// A certificate or a post, or one of those.
fn command_of(alloc: Global, verb: &str, words: &str) -> Result<Command, Unread> {
    if verb == "cert" {
        return cert(alloc, words);
    }
    if verb == "diary" {
        return Ok(Command::Diary {
            text: Text::of(alloc, words)?,
        });
    }
    if verb == "article" {
        return article(alloc, words);
    }
    if verb == "reply" {
        return reply(alloc, words);
    }
    if verb == "project" {
        return project(alloc, words);
    }
    site_command(alloc, verb, words)
}

/// The command of these words, with or without words behind its verb.
fn command_in(alloc: Global, words: &str) -> Result<Command, Unread> {
    match words.split_once(' ') {
        Some((verb, words)) => command_of(alloc, verb, words),
        None => command_of(alloc, words, ""),
    }
}

/// The act of these words.
pub(crate) fn act_of(alloc: Global, words: &str) -> Result<Act, Unread> {
    match words.split_once(": ") {
        Some((author, words)) => {
            let author = author_of(alloc, author)?;
            let command = command_in(alloc, words)?;
            Act::of(Some(author), command).ok_or(Unread::NoAct)
        }
        None => Act::of(None, command_in(alloc, words)?).ok_or(Unread::NoAct),
    }
}

/// An answer in words.
pub(crate) fn told(alloc: Global, answer: &Answer) -> Result<String, AllocError> {
    match answer {
        Ok(reply) => format!(in alloc; "{reply}"),
        Err(refusal) => format!(in alloc; "refused: {refusal}"),
    }
}
