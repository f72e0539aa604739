//! Lists of lines.

ghost use Rattle.std.specs.Prelude.{◌≡◌, ◌<◌, All, OnOk, map};
ghost use Rattle.std.specs.List.{flat_map};
ghost use Rattle.trust_types.specs.NodeWords.{name_of};
ghost use Rattle.frozen.specs.Revision.{certificates};
ghost use Rattle.html_pages.specs.Lines.{list, cert_line, seed_line, roster_line, spaced, caps_line};
ghost use Rattle.html_pages.specs.Inks.{inked};
ghost use Rattle.html_pages.specs.Shown.{headline, entry, written, reply};

use crate::lines::{
    put_article_line, put_cert_line, put_entry, put_post, put_reply, put_roster_line,
    put_seed_line, put_spaced,
};
use crate::pens::Pen;
use crate::shown::{CleanPost, Headline};
use frozen::Frozen;
use trust_types::{AccountNo, Level, Name, NoMemory};

fn put_cert_lines(pen: &mut Pen, certs: &[(Name, Level)]) -> Result<(), NoMemory>
    ensures { OnOk result (pen.new ≡ inked pen.old (flat_map cert_line certs.now)) }
{
    for cert in certs {
        put_cert_line(pen, cert)?;
    }
    Ok(())
}

/// The certificates.
#[tactic(auto, using(crate::proofs::Inking::inked_twice), unfolding(crate::specs::Lines::list))]
pub fn put_certs(pen: &mut Pen, certs: &[(Name, Level)]) -> Result<(), NoMemory>
    ensures { OnOk result (pen.new ≡ inked pen.old (list (flat_map cert_line certs.now))) }
{
    pen.put(b"<ul>\n")?;
    put_cert_lines(pen, certs)?;
    pen.put(b"</ul>\n")?;
    Ok(())
}

fn put_seed_lines(pen: &mut Pen, seeds: &[Name]) -> Result<(), NoMemory>
    ensures { OnOk result (pen.new ≡ inked pen.old (flat_map seed_line seeds.now)) }
{
    for seed in seeds {
        put_seed_line(pen, seed)?;
    }
    Ok(())
}

/// The seeds.
#[tactic(auto, using(crate::proofs::Inking::inked_twice), unfolding(crate::specs::Lines::list))]
pub fn put_seeds(pen: &mut Pen, seeds: &[Name]) -> Result<(), NoMemory>
    ensures { OnOk result (pen.new ≡ inked pen.old (list (flat_map seed_line seeds.now))) }
{
    pen.put(b"<ul>\n")?;
    put_seed_lines(pen, seeds)?;
    pen.put(b"</ul>\n")?;
    Ok(())
}

/// An account of a roster, by the name that it has in the graph.
fn put_account(pen: &mut Pen, frozen: &Frozen, account: AccountNo) -> Result<(), NoMemory>
    requires { account < (certificates frozen.now).accounts }
    ensures { OnOk result (pen.new ≡ inked pen.old (roster_line (name_of frozen.now.names account))) }
{
    let name = frozen.name(account);
    put_roster_line(pen, &name)?;
    Ok(())
}

fn put_roster_lines(pen: &mut Pen, frozen: &Frozen, served: &[AccountNo]) -> Result<(), NoMemory>
    requires { All (λ account. account < (certificates frozen.now).accounts) served.now }
    ensures { OnOk result (pen.new ≡ inked pen.old (flat_map roster_line (map (name_of frozen.now.names) served.now))) }
{
    for account in served {
        put_account(pen, frozen, *account)?;
    }
    Ok(())
}

/// The accounts of a roster, by the names that they have in its graph.
#[tactic(auto, using(crate::proofs::Inking::inked_twice), unfolding(crate::specs::Lines::list))]
pub fn put_roster(pen: &mut Pen, frozen: &Frozen, served: &[AccountNo]) -> Result<(), NoMemory>
    requires { All (λ account. account < (certificates frozen.now).accounts) served.now }
    ensures { OnOk result (pen.new ≡ inked pen.old (list (flat_map roster_line (map (name_of frozen.now.names) served.now)))) }
{
    pen.put(b"<ul>\n")?;
    put_roster_lines(pen, frozen, served)?;
    pen.put(b"</ul>\n")?;
    Ok(())
}

fn put_entries(pen: &mut Pen, entries: &[u32]) -> Result<(), NoMemory>
    ensures { OnOk result (pen.new ≡ inked pen.old (flat_map spaced entries.now)) }
{
    for entry in entries {
        put_spaced(pen, *entry)?;
    }
    Ok(())
}

/// The entries of a table.
#[tactic(auto, using(crate::proofs::Inking::inked_twice), unfolding(crate::specs::Lines::caps_line))]
pub fn put_caps(pen: &mut Pen, entries: &[u32]) -> Result<(), NoMemory>
    ensures { OnOk result (pen.new ≡ inked pen.old (caps_line entries.now)) }
{
    pen.put(b"<p>caps")?;
    put_entries(pen, entries)?;
    pen.put(b"</p>\n")?;
    Ok(())
}

#[tactic(auto, using(crate::proofs::Inking::inked_twice), unfolding(crate::specs::Shown::headline))]
fn put_headline(pen: &mut Pen, article: &Headline) -> Result<(), NoMemory>
    ensures { OnOk result (pen.new ≡ inked pen.old (headline article.now)) }
{
    put_article_line(pen, article.number, article.title.bytes(), &article.author)?;
    Ok(())
}

#[tactic(auto, using(crate::proofs::Inking::inked_twice), unfolding(crate::specs::Shown::entry))]
fn put_clean_entry(pen: &mut Pen, post: &CleanPost) -> Result<(), NoMemory>
    ensures { OnOk result (pen.new ≡ inked pen.old (entry post.now)) }
{
    put_entry(pen, post.moment, post.html.bytes())?;
    Ok(())
}

/// An article or a project.
#[tactic(auto, using(crate::proofs::Inking::inked_twice), unfolding(crate::specs::Shown::written))]
pub fn put_written(pen: &mut Pen, post: &CleanPost) -> Result<(), NoMemory>
    ensures { OnOk result (pen.new ≡ inked pen.old (written post.now)) }
{
    put_post(pen, &post.author, post.moment, post.html.bytes())?;
    Ok(())
}

#[tactic(auto, using(crate::proofs::Inking::inked_twice), unfolding(crate::specs::Shown::reply))]
fn put_clean_reply(pen: &mut Pen, post: &CleanPost) -> Result<(), NoMemory>
    ensures { OnOk result (pen.new ≡ inked pen.old (reply post.now)) }
{
    put_reply(pen, &post.author, post.moment, post.html.bytes())?;
    Ok(())
}

fn put_headline_lines(pen: &mut Pen, articles: &[Headline]) -> Result<(), NoMemory>
    ensures { OnOk result (pen.new ≡ inked pen.old (flat_map headline articles.now)) }
{
    for article in articles {
        put_headline(pen, article)?;
    }
    Ok(())
}

/// The articles of the front page.
#[tactic(auto, using(crate::proofs::Inking::inked_twice), unfolding(crate::specs::Lines::list))]
pub fn put_headlines(pen: &mut Pen, articles: &[Headline]) -> Result<(), NoMemory>
    ensures { OnOk result (pen.new ≡ inked pen.old (list (flat_map headline articles.now))) }
{
    pen.put(b"<ul>\n")?;
    put_headline_lines(pen, articles)?;
    pen.put(b"</ul>\n")?;
    Ok(())
}

/// The entries of a diary.
pub fn put_diary(pen: &mut Pen, posts: &[CleanPost]) -> Result<(), NoMemory>
    ensures { OnOk result (pen.new ≡ inked pen.old (flat_map entry posts.now)) }
{
    for post in posts {
        put_clean_entry(pen, post)?;
    }
    Ok(())
}

/// The replies to an article.
pub fn put_replies(pen: &mut Pen, posts: &[CleanPost]) -> Result<(), NoMemory>
    ensures { OnOk result (pen.new ≡ inked pen.old (flat_map reply posts.now)) }
{
    for post in posts {
        put_clean_reply(pen, post)?;
    }
    Ok(())
}
