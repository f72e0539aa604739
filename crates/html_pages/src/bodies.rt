//! The bodies of responses.

ghost use Rattle.std.specs.Prelude.{◌≡◌, ◌++◌, OnOk, codes, map};
ghost use Rattle.std.specs.List.{flat_map};
ghost use Rattle.html_pages.specs.Pages.{opening, account_page, error_page, person_page, stewards_page, roster_page, no_roster, front_page, diary_page, article_page, project_page};
ghost use Rattle.trust_types.specs.NodeWords.{name_of};
ghost use Rattle.html_pages.specs.Bodies.{body_of};
ghost use Rattle.html_pages.specs.Inks.{inked};
ghost use Rattle.html_pages.specs.Shown.{headline, entry, written, reply};

use crate::lines::{
    put_form, put_heading, put_level_line, put_levels_line, put_paragraph, put_publication_line,
};
use crate::lists::{
    put_caps, put_certs, put_diary, put_headlines, put_replies, put_roster, put_seeds, put_written,
};
use crate::pens::Pen;
use crate::shown::{CleanPost, Headline, Roster};
use markup::SafeHtml;
use trust_types::{Caps, Level, Name, NoMemory};

/// What is shown.
#[derive(Drop)]
pub enum Body<'a> {
    /// Nothing.
    Empty,
    /// The forms to join and to log in.
    Account,
    /// Why there is no page.
    Error(&'a str),
    /// A text as it is.
    Text(&'a [u8]),
    /// An account: its level, and the certificates that it gives and takes.
    Person {
        name: &'a Name,
        level: Level,
        given: &'a [(Name, Level)],
        taken: &'a [(Name, Level)],
    },
    /// The table in force, and the seeds.
    Stewards {
        caps: &'a Caps,
        seeds: &'a [Name],
    },
    Roster(Roster<'a>),
    /// The roster of a grade before there is a publication.
    NoRoster(Level),
    /// The newest articles.
    Front(&'a [Headline]),
    Diary {
        name: &'a Name,
        posts: &'a [CleanPost],
    },
    /// An article, its title escaped.
    Article {
        title: &'a SafeHtml,
        post: &'a CleanPost,
        replies: &'a [CleanPost],
    },
    Project {
        name: &'a Name,
        post: &'a CleanPost,
    },
}

/// What stands in front of a page's content.
#[tactic(auto, using(crate::proofs::Inking::inked_twice), unfolding(crate::specs::Pages::opening))]
fn open_page(pen: &mut Pen, title: &[u8]) -> Result<(), NoMemory>
    ensures { OnOk result (pen.new ≡ inked pen.old (opening title.now)) }
{
    pen.put(b"<!DOCTYPE html>\n<html><head><title>")?;
    pen.put(title)?;
    pen.put(b"</title></head><body>\n<h1>")?;
    pen.put(title)?;
    pen.put(b"</h1>\n")?;
    Ok(())
}

/// What stands behind it.
fn close_page(pen: &mut Pen) -> Result<(), NoMemory>
    ensures { OnOk result (pen.new ≡ inked pen.old (codes "</body></html>\n")) }
{
    pen.put(b"</body></html>\n")
}

#[tactic(auto, using(crate::proofs::Inking::inked_twice), unfolding(crate::specs::Pages::page, crate::specs::Pages::account_page))]
fn put_account(pen: &mut Pen) -> Result<(), NoMemory>
    ensures { OnOk result (pen.new ≡ inked pen.old account_page) }
{
    open_page(pen, b"account")?;
    put_form(pen, b"join")?;
    put_form(pen, b"login")?;
    close_page(pen)?;
    Ok(())
}

#[tactic(auto, using(crate::proofs::Inking::inked_twice), unfolding(crate::specs::Pages::page, crate::specs::Pages::error_page))]
fn put_error(pen: &mut Pen, text: &[u8]) -> Result<(), NoMemory>
    ensures { OnOk result (pen.new ≡ inked pen.old (error_page text.now)) }
{
    open_page(pen, b"Error")?;
    put_paragraph(pen, text)?;
    close_page(pen)?;
    Ok(())
}

#[tactic(auto, using(crate::proofs::Inking::inked_twice, std::proofs::Common::append_assoc), unfolding(crate::specs::Pages::page, crate::specs::Pages::person_page))]
fn put_person(
    pen: &mut Pen,
    name: &Name,
    level: Level,
    given: &[(Name, Level)],
    taken: &[(Name, Level)],
) -> Result<(), NoMemory>
    ensures { OnOk result (pen.new ≡ inked pen.old (person_page name.now level given.now taken.now)) }
{
    open_page(pen, name.bytes())?;
    put_level_line(pen, level)?;
    put_heading(pen, b"certifies")?;
    put_certs(pen, given)?;
    put_heading(pen, b"certified by")?;
    put_certs(pen, taken)?;
    close_page(pen)?;
    Ok(())
}

#[tactic(auto, using(crate::proofs::Inking::inked_twice, std::proofs::Common::append_assoc), unfolding(crate::specs::Pages::page, crate::specs::Pages::stewards_page))]
fn put_stewards(pen: &mut Pen, caps: &Caps, seeds: &[Name]) -> Result<(), NoMemory>
    ensures { OnOk result (pen.new ≡ inked pen.old (stewards_page caps.now seeds.now)) }
{
    open_page(pen, b"stewards")?;
    put_levels_line(pen, caps.levels())?;
    put_caps(pen, caps.entries())?;
    put_seeds(pen, seeds)?;
    close_page(pen)?;
    Ok(())
}

#[tactic(auto, using(crate::proofs::Inking::inked_twice, std::proofs::Common::append_assoc), unfolding(crate::specs::Pages::page, crate::specs::Pages::roster_page))]
fn put_roster_page(pen: &mut Pen, roster: &Roster<'_>) -> Result<(), NoMemory>
    ensures { OnOk result (pen.new ≡ inked pen.old (roster_page roster.now.grade roster.now.number roster.now.revision (map (name_of roster.now.frozen.now.names) roster.now.served.now))) }
{
    open_page(pen, roster.grade.name().as_bytes())?;
    put_publication_line(pen, roster.number, roster.revision)?;
    put_roster(pen, roster.frozen, roster.served)?;
    close_page(pen)?;
    Ok(())
}

#[tactic(auto, using(crate::proofs::Inking::inked_twice, std::proofs::Common::append_assoc), unfolding(crate::specs::Pages::page, crate::specs::Pages::no_roster))]
fn put_no_roster(pen: &mut Pen, grade: Level) -> Result<(), NoMemory>
    ensures { OnOk result (pen.new ≡ inked pen.old (no_roster grade)) }
{
    open_page(pen, grade.name().as_bytes())?;
    put_paragraph(pen, b"no publication")?;
    close_page(pen)?;
    Ok(())
}

#[tactic(auto, using(crate::proofs::Inking::inked_twice, std::proofs::Common::append_assoc), unfolding(crate::specs::Pages::page, crate::specs::Pages::front_page))]
fn put_front(pen: &mut Pen, articles: &[Headline]) -> Result<(), NoMemory>
    ensures { OnOk result (pen.new ≡ inked pen.old (front_page (flat_map headline articles.now))) }
{
    open_page(pen, b"virgule")?;
    put_headlines(pen, articles)?;
    close_page(pen)?;
    Ok(())
}

#[tactic(auto, using(crate::proofs::Inking::inked_twice))]
fn put_diary_title(pen: &mut Pen, name: &[u8]) -> Result<(), NoMemory>
    ensures { OnOk result (pen.new ≡ inked pen.old (codes "Diary of " ++ name.now)) }
{
    pen.put(b"Diary of ")?;
    pen.put(name)?;
    Ok(())
}

fn open_diary(pen: &mut Pen, name: &[u8]) -> Result<(), NoMemory>
    ensures { OnOk result (pen.new ≡ inked pen.old (opening (codes "Diary of " ++ name.now))) }
{
    pen.put(b"<!DOCTYPE html>\n<html><head><title>")?;
    put_diary_title(pen, name)?;
    pen.put(b"</title></head><body>\n<h1>")?;
    put_diary_title(pen, name)?;
    pen.put(b"</h1>\n")?;
    Ok(())
}

#[tactic(auto, using(crate::proofs::Inking::inked_twice, std::proofs::Common::append_assoc), unfolding(crate::specs::Pages::page, crate::specs::Pages::diary_page))]
fn put_diary_page(pen: &mut Pen, name: &Name, posts: &[CleanPost]) -> Result<(), NoMemory>
    ensures { OnOk result (pen.new ≡ inked pen.old (diary_page name.now (flat_map entry posts.now))) }
{
    open_diary(pen, name.bytes())?;
    put_diary(pen, posts)?;
    close_page(pen)?;
    Ok(())
}

#[tactic(auto, using(crate::proofs::Inking::inked_twice, std::proofs::Common::append_assoc), unfolding(crate::specs::Pages::page, crate::specs::Pages::article_page))]
fn put_article(
    pen: &mut Pen,
    title: &SafeHtml,
    post: &CleanPost,
    replies: &[CleanPost],
) -> Result<(), NoMemory>
    ensures { OnOk result (pen.new ≡ inked pen.old (article_page title.now (written post.now) (flat_map reply replies.now))) }
{
    open_page(pen, title.bytes())?;
    put_written(pen, post)?;
    put_replies(pen, replies)?;
    close_page(pen)?;
    Ok(())
}

#[tactic(auto, using(crate::proofs::Inking::inked_twice, std::proofs::Common::append_assoc), unfolding(crate::specs::Pages::page, crate::specs::Pages::project_page))]
fn put_project(pen: &mut Pen, name: &Name, post: &CleanPost) -> Result<(), NoMemory>
    ensures { OnOk result (pen.new ≡ inked pen.old (project_page name.now (written post.now))) }
{
    open_page(pen, name.bytes())?;
    put_written(pen, post)?;
    close_page(pen)?;
    Ok(())
}

/// Puts down a body.
pub fn put_body(pen: &mut Pen, body: &Body<'_>) -> Result<(), NoMemory>
    ensures { OnOk result (pen.new ≡ inked pen.old (body_of body.now)) }
{
    match body {
        Body::Empty => pen.put(b""),
        Body::Account => put_account(pen),
        Body::Error(text) => put_error(pen, text.as_bytes()),
        Body::Text(text) => pen.put(text),
        Body::Person {
            name,
            level,
            given,
            taken,
        } => put_person(pen, name, *level, given, taken),
        Body::Stewards { caps, seeds } => put_stewards(pen, caps, seeds),
        Body::Roster(roster) => put_roster_page(pen, roster),
        Body::NoRoster(grade) => put_no_roster(pen, *grade),
        Body::Front(articles) => put_front(pen, articles),
        Body::Diary { name, posts } => put_diary_page(pen, name, posts),
        Body::Article {
            title,
            post,
            replies,
        } => put_article(pen, title, post, replies),
        Body::Project { name, post } => put_project(pen, name, post),
    }
}
