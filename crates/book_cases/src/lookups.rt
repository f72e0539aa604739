//! What is looked up among the posts. A step is one of these:
//!
//! - `judge WORD`: whether a project may be opened under that name;
//! - `diary ACCOUNT N`, `article N`, `reply ARTICLE N` or `project NAME`: the post, or how many there are where there is none of that number;
//! - `count`: how many posts there are.

use crate::posts::fault_text;
use postings::Postings;
use std::alloc::Global;
use trust_types::{AccountNo, Name, NoMemory, Record, Text};

/// What a step asks for.
enum Step<'a> {
    Judge(&'a str),
    Diary(AccountNo, u32),
    Article(u32),
    Reply(u32, u32),
    Project(&'a str),
    Count,
    Unknown,
}

/// The two numbers that the words are.
fn numbers(words: &str) -> Option<(u32, u32)> {
    let (first, second) = words.split_once(' ')?;
    Some((first.parse().ok()?, second.parse().ok()?))
}

/// What a step with this verb asks for, where two numbers are behind it.
fn by_numbers(verb: &str, first: u32, second: u32) -> Step<'_> {
    if verb == "diary" {
        return Step::Diary(AccountNo(first), second);
    }
    if verb == "reply" {
        return Step::Reply(first, second);
    }
    Step::Unknown
}

/// What a step with this verb asks for, by the words behind it.
fn by_words<'a>(verb: &'a str, words: &'a str) -> Step<'a> {
    if verb == "judge" {
        return Step::Judge(words);
    }
    if verb == "project" {
        return Step::Project(words);
    }
    if verb == "article" {
        return match words.parse() {
            Ok(number) => Step::Article(number),
            Err(_) => Step::Unknown,
        };
    }
    match numbers(words) {
        Some((first, second)) => by_numbers(verb, first, second),
        None => Step::Unknown,
    }
}

/// What the step asks for.
fn step_of(line: &str) -> Step<'_> {
    match line.split_once(' ') {
        Some((verb, words)) => by_words(verb, words),
        None => Step::Count,
    }
}

/// Whether a project of that name may be opened, in words.
fn judge(alloc: Global, postings: &Postings, word: &str) -> Result<String, NoMemory> {
    let name = Text::of(alloc, word)?;
    let text = Text::of(alloc, "")?;
    match postings.judge_project(&name, &text) {
        Ok(()) => Ok(String::from_str(alloc, "free")?),
        Err(fault) => Ok(fault_text(alloc, fault)?),
    }
}

fn shown(alloc: Global, record: &Record) -> Result<String, NoMemory> {
    Ok(format!(in alloc; "{record:?}")?)
}

fn diary(
    alloc: Global,
    postings: &Postings,
    author: AccountNo,
    n: u32,
) -> Result<String, NoMemory> {
    let count = postings.diary_count(author);
    if n >= count {
        return Ok(format!(in alloc; "{count} in this diary")?);
    }
    shown(alloc, postings.diary(author, n))
}

fn article(alloc: Global, postings: &Postings, n: u32) -> Result<String, NoMemory> {
    let count = postings.article_count();
    if n >= count {
        return Ok(format!(in alloc; "{count} articles")?);
    }
    shown(alloc, postings.article(n))
}

fn reply(alloc: Global, postings: &Postings, article: u32, n: u32) -> Result<String, NoMemory> {
    let count = postings.reply_count(article);
    if n >= count {
        return Ok(format!(in alloc; "{count} to this article")?);
    }
    shown(alloc, postings.reply(article, n))
}

fn project(alloc: Global, postings: &Postings, word: &str) -> Result<String, NoMemory> {
    let Some(name) = Name::read(word.as_bytes()) else {
        return Ok(String::from_str(alloc, "bad name")?);
    };
    match postings.project(&name) {
        Some(record) => shown(alloc, record),
        None => Ok(String::from_str(alloc, "no project")?),
    }
}

fn count(alloc: Global, postings: &Postings) -> Result<String, NoMemory> {
    Ok(format!(in alloc; "{} posts", postings.count())?)
}

/// Takes a step. Gives the answer.
pub(crate) fn answer(alloc: Global, postings: &Postings, line: &str) -> Result<String, NoMemory> {
    match step_of(line) {
        Step::Judge(word) => judge(alloc, postings, word),
        Step::Diary(author, n) => diary(alloc, postings, author, n),
        Step::Article(n) => article(alloc, postings, n),
        Step::Reply(number, n) => reply(alloc, postings, number, n),
        Step::Project(word) => project(alloc, postings, word),
        Step::Count => count(alloc, postings),
        Step::Unknown => Ok(String::from_str(alloc, "no such step")?),
    }
}
