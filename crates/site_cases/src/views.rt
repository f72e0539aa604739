//! Views in words.

use crate::site::Site;
use site_history::{
    ArticleHead, ArticleView, DiaryView, PersonView, PostView, ProjectView, Query, StewardsView,
    View,
};
use std::alloc::{AllocError, Global};
use trust_types::{Level, Name, NoMemory, Text};

/// What is asked for by a kind and a name or number.
fn query_in(alloc: Global, kind: &str, word: &str) -> Result<Option<Query>, NoMemory> {
    if kind == "person" {
        return Ok(Some(Query::Person(Text::of(alloc, word)?)));
    }
    if kind == "diary" {
        return Ok(Some(Query::Diary(Text::of(alloc, word)?)));
    }
    if kind == "project" {
        return Ok(Some(Query::Project(Text::of(alloc, word)?)));
    }
    if kind == "article" {
        return match word.parse() {
            Ok(number) => Ok(Some(Query::Article(number))),
            Err(_) => Ok(None),
        };
    }
    Ok(None)
}

fn query_of(alloc: Global, words: &str) -> Result<Option<Query>, NoMemory> {
    if words == "front" {
        return Ok(Some(Query::Front));
    }
    if words == "stewards" {
        return Ok(Some(Query::Stewards));
    }
    match words.split_once(' ') {
        Some((kind, word)) => query_in(alloc, kind, word),
        None => Ok(None),
    }
}

/// Articles, a line each.
fn front(alloc: Global, heads: &[ArticleHead]) -> Result<String, AllocError> {
    let mut text = format!(in alloc; "{} articles\n", heads.len())?;
    for head in heads {
        let title = head.title.as_str();
        let line = format!(in alloc; "{}: {title}, by {}\n", head.no, head.author)?;
        text.push_str(line.as_str())?;
    }
    Ok(text)
}

/// Adds certificates, by the other account of each.
fn add_certs(text: &mut String, title: &str, certs: &[(Name, Level)]) -> Result<(), AllocError> {
    text.push_str(title)?;
    for (name, level) in certs {
        text.push_str(format!(in *text.allocator(); " {name} {level}")?.as_str())?;
    }
    text.push('\n')
}

fn person(alloc: Global, view: &PersonView) -> Result<String, AllocError> {
    let mut text = format!(in alloc; "{}, {}\n", view.name, view.level)?;
    add_certs(&mut text, "given:", &view.given)?;
    add_certs(&mut text, "taken:", &view.taken)?;
    Ok(text)
}

/// Adds a post.
fn add_post(text: &mut String, post: &PostView) -> Result<(), AllocError> {
    let words = post.text.as_str();
    let line = format!(in *text.allocator(); "{} at {}: {words}\n", post.author, post.moment)?;
    text.push_str(line.as_str())
}

fn diary(alloc: Global, view: &DiaryView) -> Result<String, AllocError> {
    let mut text = format!(in alloc; "{}, {} entries\n", view.name, view.posts.len())?;
    for post in &view.posts {
        add_post(&mut text, post)?;
    }
    Ok(text)
}

fn article(alloc: Global, view: &ArticleView) -> Result<String, AllocError> {
    let title = view.title.as_str();
    let mut text = format!(in alloc; "{}: {title}, {} replies\n", view.no, view.replies.len())?;
    add_post(&mut text, &view.post)?;
    for post in &view.replies {
        add_post(&mut text, post)?;
    }
    Ok(text)
}

fn project(alloc: Global, view: &ProjectView) -> Result<String, AllocError> {
    let mut text = format!(in alloc; "{}\n", view.name)?;
    add_post(&mut text, &view.post)?;
    Ok(text)
}

fn stewards(alloc: Global, view: &StewardsView) -> Result<String, AllocError> {
    let mut text = format!(in alloc; "{} levels:", view.caps.levels())?;
    for entry in view.caps.entries() {
        text.push_str(format!(in alloc; " {entry}")?.as_str())?;
    }
    text.push_str("; seeds:")?;
    for name in &view.seeds {
        text.push_str(format!(in alloc; " {name}")?.as_str())?;
    }
    Ok(text)
}

fn view_text(alloc: Global, view: View) -> Result<String, AllocError> {
    match view {
        View::Front(heads) => front(alloc, &heads),
        View::Person(view) => person(alloc, &view),
        View::Diary(view) => diary(alloc, &view),
        View::Article(view) => article(alloc, &view),
        View::Project(view) => project(alloc, &view),
        View::Stewards(view) => stewards(alloc, &view),
        View::Missing => String::from_str(alloc, "missing"),
    }
}

/// What these words ask to be shown.
pub(crate) fn shown(alloc: Global, site: &Site, words: &str) -> Result<String, NoMemory> {
    match query_of(alloc, words)? {
        Some(query) => Ok(view_text(alloc, site.book.view(&query)?)?),
        None => Ok(String::from_str(alloc, "no such view")?),
    }
}
