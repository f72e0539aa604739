//! What a GET asks for.

ghost use Rattle.std.specs.Prelude.{◌≡◌, IfOk};
ghost use Rattle.http_requests.specs.Pages.{page_route, shown, part_after, article_of, grade_of};

use crate::routes::Route;
use http_paths::{Page, Paths};
use std::alloc::Global;
use text_lines::number;
use trust_types::{Level, NoMemory, Text};

/// The route of a GET to that path.
pub(crate) fn page_route(alloc: Global, paths: &Paths, path: &str) -> Result<Route, NoMemory>
    ensures { IfOk result (λ route. route ≡ page_route path.now) }
{
    match paths.page(path) {
        Some(page) => shown(alloc, page, path),
        None => Ok(Route::NotFound),
    }
}

fn shown(alloc: Global, page: Page, path: &str) -> Result<Route, NoMemory>
    ensures { IfOk result (λ route. route ≡ shown page path.now) }
{
    match page {
        Page::Front => Ok(Route::Front),
        Page::Account => Ok(Route::Account),
        Page::Stewards => Ok(Route::Stewards),
        Page::Person => Ok(Route::PersonOf(Text::of(alloc, part_after("/person/", path))?)),
        Page::Diary => Ok(Route::DiaryOf(Text::of(alloc, part_after("/diary/", path))?)),
        Page::Project => Ok(Route::ProjectOf(Text::of(alloc, part_after("/project/", path))?)),
        Page::Article => Ok(article_of(part_after("/article/", path))),
        Page::Roster => match grade_of(part_after("/roster/", path)) {
            Some(grade) => Ok(Route::RosterOf(grade)),
            None => Ok(Route::NotFound),
        },
        Page::Proof => match grade_of(part_after("/proof/", path)) {
            Some(grade) => Ok(Route::ProofOf(grade)),
            None => Ok(Route::NotFound),
        },
    }
}

/// What follows a front of a path; nothing where the path doesn't begin with it.
fn part_after<'a>(front: &str, path: &'a str) -> &'a str
    ensures { result.now ≡ part_after front.now path.now }
{
    match path.strip_prefix(front) {
        Some(part) => part,
        None => "",
    }
}

fn article_of(part: &str) -> Route
    ensures { result ≡ article_of part.now }
{
    match number(part.as_bytes()) {
        Some(article) => Route::ArticleOf(article),
        None => Route::NotFound,
    }
}

fn grade_of(part: &str) -> Option<Level>
    ensures { result ≡ grade_of part.now }
{
    let level = Level::of_name(part.as_bytes())?;
    level.is_grade().then_some(level)
}
