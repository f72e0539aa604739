//! What a POST asks for.

ghost use Rattle.std.specs.Prelude.{◌≡◌, IfOk, option_map};
ghost use Rattle.text_lines.specs.Words.{words};
ghost use Rattle.http_requests.specs.Actions.{action_route, done, table_of, numbers};

use crate::forms::field;
use crate::routes::Route;
use http_paths::{Action, Paths};
use std::alloc::Global;
use text_lines::{Words, number};
use trust_types::{Caps, Level, NoMemory};

/// The route of a POST of that body to that path.
pub(crate) fn action_route(
    alloc: Global,
    paths: &Paths,
    path: &str,
    body: &[u8],
) -> Result<Route, NoMemory>
    ensures { IfOk result (λ route. route ≡ action_route path.now body.now) }
{
    match paths.action(path) {
        Some(action) => done(alloc, action, body),
        None => Ok(Route::NotFound),
    }
}

fn done(alloc: Global, action: Action, body: &[u8]) -> Result<Route, NoMemory>
    ensures { IfOk result (λ route. route ≡ done action body.now) }
{
    match action {
        Action::Join => join(alloc, body),
        Action::Login => login(alloc, body),
        Action::Logout => Ok(Route::Logout),
        Action::Cert => cert(alloc, body),
        Action::Diary => diary(alloc, body),
        Action::Article => article(alloc, body),
        Action::Reply => reply(alloc, body),
        Action::Project => project(alloc, body),
        Action::Seed => seed(alloc, body),
        Action::Unseed => unseed(alloc, body),
        Action::Table => table(alloc, body),
    }
}

fn join(alloc: Global, body: &[u8]) -> Result<Route, NoMemory>
    ensures { IfOk result (λ route. route ≡ done Action.Join body.now) }
{
    let Some(name) = field(alloc, body, "name")? else {
        return Ok(Route::BadForm);
    };
    let Some(password) = field(alloc, body, "password")? else {
        return Ok(Route::BadForm);
    };
    Ok(Route::Join { name, password })
}

fn login(alloc: Global, body: &[u8]) -> Result<Route, NoMemory>
    ensures { IfOk result (λ route. route ≡ done Action.Login body.now) }
{
    let Some(name) = field(alloc, body, "name")? else {
        return Ok(Route::BadForm);
    };
    let Some(password) = field(alloc, body, "password")? else {
        return Ok(Route::BadForm);
    };
    Ok(Route::Login { name, password })
}

fn cert(alloc: Global, body: &[u8]) -> Result<Route, NoMemory>
    ensures { IfOk result (λ route. route ≡ done Action.Cert body.now) }
{
    let Some(subject) = field(alloc, body, "subject")? else {
        return Ok(Route::BadForm);
    };
    let Some(word) = field(alloc, body, "level")? else {
        return Ok(Route::BadForm);
    };
    match Level::of_name(word.as_str().as_bytes()) {
        Some(level) => Ok(Route::Cert { subject, level }),
        None => Ok(Route::BadForm),
    }
}

fn diary(alloc: Global, body: &[u8]) -> Result<Route, NoMemory>
    ensures { IfOk result (λ route. route ≡ done Action.Diary body.now) }
{
    let Some(text) = field(alloc, body, "text")? else {
        return Ok(Route::BadForm);
    };
    Ok(Route::Diary { text })
}

fn article(alloc: Global, body: &[u8]) -> Result<Route, NoMemory>
    ensures { IfOk result (λ route. route ≡ done Action.Article body.now) }
{
    let Some(title) = field(alloc, body, "title")? else {
        return Ok(Route::BadForm);
    };
    let Some(text) = field(alloc, body, "text")? else {
        return Ok(Route::BadForm);
    };
    Ok(Route::Article { title, text })
}

fn reply(alloc: Global, body: &[u8]) -> Result<Route, NoMemory>
    ensures { IfOk result (λ route. route ≡ done Action.Reply body.now) }
{
    let Some(word) = field(alloc, body, "article")? else {
        return Ok(Route::BadForm);
    };
    let Some(text) = field(alloc, body, "text")? else {
        return Ok(Route::BadForm);
    };
    match number(word.as_str().as_bytes()) {
        Some(article) => Ok(Route::Reply { article, text }),
        None => Ok(Route::BadForm),
    }
}

fn project(alloc: Global, body: &[u8]) -> Result<Route, NoMemory>
    ensures { IfOk result (λ route. route ≡ done Action.Project body.now) }
{
    let Some(name) = field(alloc, body, "name")? else {
        return Ok(Route::BadForm);
    };
    let Some(text) = field(alloc, body, "text")? else {
        return Ok(Route::BadForm);
    };
    Ok(Route::Project { name, text })
}

fn seed(alloc: Global, body: &[u8]) -> Result<Route, NoMemory>
    ensures { IfOk result (λ route. route ≡ done Action.Seed body.now) }
{
    let Some(subject) = field(alloc, body, "subject")? else {
        return Ok(Route::BadForm);
    };
    Ok(Route::Seed { subject })
}

fn unseed(alloc: Global, body: &[u8]) -> Result<Route, NoMemory>
    ensures { IfOk result (λ route. route ≡ done Action.Unseed body.now) }
{
    let Some(subject) = field(alloc, body, "subject")? else {
        return Ok(Route::BadForm);
    };
    Ok(Route::Unseed { subject })
}

fn table(alloc: Global, body: &[u8]) -> Result<Route, NoMemory>
    ensures { IfOk result (λ route. route ≡ done Action.Table body.now) }
{
    let Some(levels) = field(alloc, body, "levels")? else {
        return Ok(Route::BadForm);
    };
    let Some(entries) = field(alloc, body, "entries")? else {
        return Ok(Route::BadForm);
    };
    match table_of(
        alloc,
        levels.as_str().as_bytes(),
        entries.as_str().as_bytes(),
    )? {
        Some(caps) => Ok(Route::Table { caps }),
        None => Ok(Route::BadForm),
    }
}

/// The table that the words for its levels and its entries write.
fn table_of(alloc: Global, levels: &[u8], entries: &[u8]) -> Result<Option<Caps>, NoMemory>
    ensures { IfOk result (λ caps. caps ≡ table_of levels.now entries.now) }
{
    let Some(levels) = number(levels) else {
        return Ok(None);
    };
    let Some(entries) = numbers(alloc, entries)? else {
        return Ok(None);
    };
    Ok(Caps::with_levels(levels, &entries).ok())
}

/// The numbers that stand in a text with a space between each two; `None` where something else stands there.
fn numbers(alloc: Global, text: &[u8]) -> Result<Option<Vec<u32>>, NoMemory>
    ensures { IfOk result (λ found. option_map (λ list. list.items) found ≡ numbers (words text.now)) }
{
    let mut found = Vec::new(alloc);
    let mut left = Words::of(text);
    'words: while let Some(word) = left.next_word() {
        let Some(entry) = number(word) else {
            return Ok(None);
        };
        found.push(entry)?;
    }
    Ok(Some(found))
}
