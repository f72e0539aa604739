//! The lines of pages, put down one by one.

ghost use Rattle.std.specs.Prelude.{◌≡◌, ◌<◌, OnOk};
ghost use Rattle.html_pages.specs.Dates.{NO_DATE};
ghost use Rattle.html_pages.specs.Lines.{paragraph, heading, block, form, article_line, roster_line, cert_line, seed_line, level_line, publication_line, levels_line, spaced, signed, entry_lines, post_lines, reply_lines};
ghost use Rattle.html_pages.specs.Inks.{inked};

use crate::pens::Pen;
use trust_types::{Level, Name, NoMemory};

#[tactic(auto, using(crate::proofs::Inking::inked_twice), unfolding(crate::specs::Lines::paragraph))]
pub fn put_paragraph(pen: &mut Pen, text: &[u8]) -> Result<(), NoMemory>
    ensures { OnOk result (pen.new ≡ inked pen.old (paragraph text.now)) }
{
    pen.put(b"<p>")?;
    pen.put(text)?;
    pen.put(b"</p>\n")?;
    Ok(())
}

#[tactic(auto, using(crate::proofs::Inking::inked_twice), unfolding(crate::specs::Lines::heading))]
pub fn put_heading(pen: &mut Pen, text: &[u8]) -> Result<(), NoMemory>
    ensures { OnOk result (pen.new ≡ inked pen.old (heading text.now)) }
{
    pen.put(b"<h2>")?;
    pen.put(text)?;
    pen.put(b"</h2>\n")?;
    Ok(())
}

#[tactic(auto, using(crate::proofs::Inking::inked_twice), unfolding(crate::specs::Lines::block))]
pub fn put_block(pen: &mut Pen, html: &[u8]) -> Result<(), NoMemory>
    ensures { OnOk result (pen.new ≡ inked pen.old (block html.now)) }
{
    pen.put(b"<div>")?;
    pen.put(html)?;
    pen.put(b"</div>\n")?;
    Ok(())
}

#[tactic(auto, using(crate::proofs::Inking::inked_twice), unfolding(crate::specs::Lines::form))]
pub fn put_form(pen: &mut Pen, word: &[u8]) -> Result<(), NoMemory>
    ensures { OnOk result (pen.new ≡ inked pen.old (form word.now)) }
{
    pen.put(b"<form method=\"post\" action=\"/")?;
    pen.put(word)?;
    pen.put(b"\"><input name=\"name\"><input name=\"password\" type=\"password\"><button>")?;
    pen.put(word)?;
    pen.put(b"</button></form>\n")?;
    Ok(())
}

#[tactic(auto, using(crate::proofs::Inking::inked_twice), unfolding(crate::specs::Lines::article_line))]
pub fn put_article_line(
    pen: &mut Pen,
    number: u32,
    title: &[u8],
    author: &Name,
) -> Result<(), NoMemory>
    ensures { OnOk result (pen.new ≡ inked pen.old (article_line number title.now author.now)) }
{
    pen.put(b"<li><a href=\"/article/")?;
    pen.put_number(number as u64)?;
    pen.put(b"\">")?;
    pen.put(title)?;
    pen.put(b"</a> by <a href=\"/person/")?;
    pen.put(author.bytes())?;
    pen.put(b"\">")?;
    pen.put(author.bytes())?;
    pen.put(b"</a></li>\n")?;
    Ok(())
}

#[tactic(auto, using(crate::proofs::Inking::inked_twice), unfolding(crate::specs::Lines::roster_line))]
pub fn put_roster_line(pen: &mut Pen, name: &Name) -> Result<(), NoMemory>
    ensures { OnOk result (pen.new ≡ inked pen.old (roster_line name.now)) }
{
    pen.put(b"<li><a href=\"/person/")?;
    pen.put(name.bytes())?;
    pen.put(b"\">")?;
    pen.put(name.bytes())?;
    pen.put(b"</a></li>\n")?;
    Ok(())
}

#[tactic(auto, using(crate::proofs::Inking::inked_twice), unfolding(crate::specs::Lines::cert_line))]
pub fn put_cert_line(pen: &mut Pen, cert: &(Name, Level)) -> Result<(), NoMemory>
    ensures { OnOk result (pen.new ≡ inked pen.old (cert_line cert.now)) }
{
    pen.put(b"<li>")?;
    pen.put(cert.0.bytes())?;
    pen.put(b" ")?;
    pen.put(cert.1.name().as_bytes())?;
    pen.put(b"</li>\n")?;
    Ok(())
}

#[tactic(auto, using(crate::proofs::Inking::inked_twice), unfolding(crate::specs::Lines::seed_line))]
pub fn put_seed_line(pen: &mut Pen, name: &Name) -> Result<(), NoMemory>
    ensures { OnOk result (pen.new ≡ inked pen.old (seed_line name.now)) }
{
    pen.put(b"<li>")?;
    pen.put(name.bytes())?;
    pen.put(b"</li>\n")?;
    Ok(())
}

#[tactic(auto, using(crate::proofs::Inking::inked_twice), unfolding(crate::specs::Lines::level_line))]
pub fn put_level_line(pen: &mut Pen, level: Level) -> Result<(), NoMemory>
    ensures { OnOk result (pen.new ≡ inked pen.old (level_line level)) }
{
    pen.put(b"<p>level ")?;
    pen.put(level.name().as_bytes())?;
    pen.put(b"</p>\n")?;
    Ok(())
}

#[tactic(auto, using(crate::proofs::Inking::inked_twice), unfolding(crate::specs::Lines::publication_line))]
pub fn put_publication_line(pen: &mut Pen, number: u32, revision: u32) -> Result<(), NoMemory>
    ensures { OnOk result (pen.new ≡ inked pen.old (publication_line number revision)) }
{
    pen.put(b"<p>publication ")?;
    pen.put_number(number as u64)?;
    pen.put(b" revision ")?;
    pen.put_number(revision as u64)?;
    pen.put(b"</p>\n")?;
    Ok(())
}

#[tactic(auto, using(crate::proofs::Inking::inked_twice), unfolding(crate::specs::Lines::levels_line))]
pub fn put_levels_line(pen: &mut Pen, levels: u32) -> Result<(), NoMemory>
    ensures { OnOk result (pen.new ≡ inked pen.old (levels_line levels)) }
{
    pen.put(b"<p>levels ")?;
    pen.put_number(levels as u64)?;
    pen.put(b"</p>\n")?;
    Ok(())
}

#[tactic(auto, using(crate::proofs::Inking::inked_twice), unfolding(crate::specs::Lines::spaced))]
pub fn put_spaced(pen: &mut Pen, number: u32) -> Result<(), NoMemory>
    ensures { OnOk result (pen.new ≡ inked pen.old (spaced number)) }
{
    pen.put(b" ")?;
    pen.put_number(number as u64)?;
    Ok(())
}

#[tactic(auto, using(crate::proofs::Inking::inked_twice), unfolding(crate::specs::Lines::signed))]
pub fn put_signed(pen: &mut Pen, author: &Name, moment: u64) -> Result<(), NoMemory>
    requires { moment < NO_DATE }
    ensures { OnOk result (pen.new ≡ inked pen.old (signed author.now moment)) }
{
    pen.put(author.bytes())?;
    pen.put(b" ")?;
    pen.put_date(moment)?;
    Ok(())
}

#[tactic(auto, using(crate::proofs::Inking::inked_twice), unfolding(crate::specs::Lines::entry_lines, crate::specs::Lines::heading))]
pub fn put_entry(pen: &mut Pen, moment: u64, html: &[u8]) -> Result<(), NoMemory>
    requires { moment < NO_DATE }
    ensures { OnOk result (pen.new ≡ inked pen.old (entry_lines moment html.now)) }
{
    pen.put(b"<h2>")?;
    pen.put_date(moment)?;
    pen.put(b"</h2>\n")?;
    put_block(pen, html)?;
    Ok(())
}

#[tactic(auto, using(crate::proofs::Inking::inked_twice), unfolding(crate::specs::Lines::post_lines))]
pub fn put_post(pen: &mut Pen, author: &Name, moment: u64, html: &[u8]) -> Result<(), NoMemory>
    requires { moment < NO_DATE }
    ensures { OnOk result (pen.new ≡ inked pen.old (post_lines author.now moment html.now)) }
{
    pen.put(b"<p>by ")?;
    put_signed(pen, author, moment)?;
    pen.put(b"</p>\n")?;
    put_block(pen, html)?;
    Ok(())
}

#[tactic(auto, using(crate::proofs::Inking::inked_twice), unfolding(crate::specs::Lines::reply_lines, crate::specs::Lines::heading))]
pub fn put_reply(pen: &mut Pen, author: &Name, moment: u64, html: &[u8]) -> Result<(), NoMemory>
    requires { moment < NO_DATE }
    ensures { OnOk result (pen.new ≡ inked pen.old (reply_lines author.now moment html.now)) }
{
    pen.put(b"<h2>")?;
    put_signed(pen, author, moment)?;
    pen.put(b"</h2>\n")?;
    put_block(pen, html)?;
    Ok(())
}
