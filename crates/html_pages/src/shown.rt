//! What pages show, ready to be put down: texts are cleaned, and titles escaped.

ghost use Rattle.std.specs.Prelude.{◌<◌, All};
ghost use Rattle.frozen.specs.Revision.{certificates};
ghost use Rattle.html_pages.specs.Dates.{NO_DATE};

use frozen::Frozen;
use markup::SafeHtml;
use trust_types::{AccountNo, Level, Name};

/// An article of the front page, with its title escaped.
#[derive(Drop)]
pub struct Headline {
    pub number: u32,
    pub title: SafeHtml,
    pub author: Name,
}

/// A post, with its text cleaned.
#[derive(Drop)]
pub struct CleanPost {
    pub author: Name,
    pub moment: u64,
    pub html: SafeHtml,
    pub ghost dated: { moment < NO_DATE },
}

/// The accounts of a grade in a publication, by the graph that it was made over.
#[derive(Drop)]
pub struct Roster<'a> {
    pub grade: Level,
    pub number: u32,
    pub revision: u32,
    pub frozen: &'a Frozen,
    pub served: &'a [AccountNo],
    pub ghost within: { All (λ account. account < (certificates frozen.now).accounts) served.now },
}
