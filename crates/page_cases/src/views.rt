//! Views of a site, each with at most one item in each of its lists. Behind the request a step has one of these:
//!
//! - `missing`, `front`, or `front|NUMBER|TITLE|AUTHOR`;
//! - `person|NAME|LEVEL|GIVEN|LEVEL|TAKEN|LEVEL`, where an empty name is no certificate;
//! - `diary|NAME|AUTHOR|MOMENT|TEXT`, or `diary|NAME`;
//! - `article|NUMBER|TITLE|AUTHOR|MOMENT|TEXT|AUTHOR|MOMENT|TEXT`, or the same without a reply;
//! - `project|NAME|AUTHOR|MOMENT|TEXT`;
//! - `stewards|SEED`, with the standard table.

ghost use Rattle.std.specs.Prelude.{◌<◌, All, IfOk};
ghost use Rattle.site_history.specs.Views.{said};
ghost use Rattle.http_pages.specs.Views.{IsDated, AreDated};

use crate::requests::request_of;
use crate::{NO_DATE, part};
use anyhow::{Result, bail};
use http_pages::view_page;
use site_history::{
    ArticleHead, ArticleView, DiaryView, PersonView, PostView, ProjectView, StewardsView, View,
};
use std::alloc::Global;
use trust_types::{Caps, Level, Name, Text};

/// The moment of a post: the last one that has a date, where the word is none.
fn moment_of(word: &str) -> u64
    ensures { result < 253_402_300_800 }
{
    let moment: u64 = word.parse().unwrap_or(NO_DATE);
    moment.min(NO_DATE - 1)
}

fn name_in(word: &str) -> Result<Name> {
    match Name::read(word.as_bytes()) {
        Some(name) => Ok(name),
        None => bail!("no name"),
    }
}

/// The certificate of these two words, if they are one.
fn cert(name: &str, level: &str) -> Option<(Name, Level)> {
    let name = Name::read(name.as_bytes())?;
    let level = Level::of_name(level.as_bytes())?;
    Some((name, level))
}

/// The certificates of these two words.
fn certs(alloc: Global, name: &str, level: &str) -> Result<Vec<(Name, Level)>> {
    let mut certs = Vec::new(alloc);
    if let Some(cert) = cert(name, level) {
        certs.push(cert)?;
    }
    Ok(certs)
}

/// A post of this author, moment and text.
fn post(alloc: Global, author: &str, moment: &str, text: &str) -> Result<PostView>
    ensures { IfOk result IsDated }
{
    let author = name_in(author)?;
    let text = Text::of(alloc, text)?;
    Ok(PostView {
        author,
        moment: moment_of(moment),
        text,
    })
}

/// That post alone; none, where it has no author.
fn posts(alloc: Global, author: &str, moment: &str, text: &str) -> Result<Vec<PostView>>
    ensures { IfOk result (λ posts. All IsDated posts.items) }
{
    let mut posts = Vec::new(alloc);
    if author.is_empty() {
        return Ok(posts);
    }
    let one = post(alloc, author, moment, text)?;
    posts.push(one)?;
    Ok(posts)
}

/// The articles of that number, title and author: one, or none where it has no author.
fn heads(alloc: Global, number: u32, title: &str, author: &str) -> Result<Vec<ArticleHead>> {
    let mut heads = Vec::new(alloc);
    if author.is_empty() {
        return Ok(heads);
    }
    let author = name_in(author)?;
    let title = Text::of(alloc, title)?;
    heads.push(ArticleHead {
        no: number,
        title,
        author,
    })?;
    Ok(heads)
}

fn front(alloc: Global, parts: &[&str]) -> Result<View>
    ensures { IfOk result (λ view. AreDated (said view)) }
{
    let number = part(parts, 3).parse().unwrap_or(0);
    let heads = heads(alloc, number, part(parts, 4), part(parts, 5))?;
    Ok(View::Front(heads))
}

fn person(alloc: Global, parts: &[&str]) -> Result<View>
    ensures { IfOk result (λ view. AreDated (said view)) }
{
    let name = name_in(part(parts, 3))?;
    let level = Level::of_name(part(parts, 4).as_bytes()).unwrap_or(Level::Observer);
    let given = certs(alloc, part(parts, 5), part(parts, 6))?;
    let taken = certs(alloc, part(parts, 7), part(parts, 8))?;
    Ok(View::Person(PersonView {
        name,
        level,
        given,
        taken,
    }))
}

fn diary(alloc: Global, parts: &[&str]) -> Result<View>
    ensures { IfOk result (λ view. AreDated (said view)) }
{
    let name = name_in(part(parts, 3))?;
    let posts = posts(alloc, part(parts, 4), part(parts, 5), part(parts, 6))?;
    Ok(View::Diary(DiaryView { name, posts }))
}

fn article(alloc: Global, parts: &[&str]) -> Result<View>
    ensures { IfOk result (λ view. AreDated (said view)) }
{
    let no = part(parts, 3).parse().unwrap_or(0);
    let title = Text::of(alloc, part(parts, 4))?;
    let post = post(alloc, part(parts, 5), part(parts, 6), part(parts, 7))?;
    let replies = posts(alloc, part(parts, 8), part(parts, 9), part(parts, 10))?;
    Ok(View::Article(ArticleView {
        no,
        title,
        post,
        replies,
    }))
}

fn project(alloc: Global, parts: &[&str]) -> Result<View>
    ensures { IfOk result (λ view. AreDated (said view)) }
{
    let name = name_in(part(parts, 3))?;
    let post = post(alloc, part(parts, 4), part(parts, 5), part(parts, 6))?;
    Ok(View::Project(ProjectView { name, post }))
}

fn stewards(alloc: Global, parts: &[&str]) -> Result<View>
    ensures { IfOk result (λ view. AreDated (said view)) }
{
    let mut seeds = Vec::new(alloc);
    seeds.push(name_in(part(parts, 3))?)?;
    let caps = Caps::standard();
    Ok(View::Stewards(StewardsView { caps, seeds }))
}

fn view(alloc: Global, parts: &[&str]) -> Result<View>
    ensures { IfOk result (λ view. AreDated (said view)) }
{
    match part(parts, 2) {
        "front" => front(alloc, parts),
        "person" => person(alloc, parts),
        "diary" => diary(alloc, parts),
        "article" => article(alloc, parts),
        "project" => project(alloc, parts),
        "stewards" => stewards(alloc, parts),
        "missing" => Ok(View::Missing),
        _ => bail!("no view"),
    }
}

/// The response to a step's request for a view.
pub fn response(alloc: Global, parts: &[&str], moment: u64) -> Result<Vec<u8>>
    requires { moment < 253_402_300_800 }
{
    let request = request_of(alloc, part(parts, 1), "", "")?;
    let view = view(alloc, parts)?;
    Ok(view_page(alloc, &request, &view, moment)?)
}
