ghost use Rattle.std.specs.Prelude.{◌≡◌, ◌++◌, ◌<◌, true, length, OnOk, IfOk};
ghost use Rattle.std.specs.List.{list_all};
ghost use Rattle.markup.specs.Elements.{link, anchor_tag};
ghost use Rattle.markup.specs.Escapes.{escaped};
ghost use Rattle.markup.specs.Reader.{is_value_byte};
ghost use Rattle.markup.specs.Cleaning.{end_tags, end_tags_through, below, by_rule, step_at, cleaned};
ghost use Rattle.markup.specs.inner.Seen.{seen};
ghost use Rattle.markup.specs.inner.Steps.{Applies, Does};

use crate::elements::{Element, Page};
use crate::escaping::{write, write_byte, write_escaped, write_plain};
use crate::html::SafeHtml;
use crate::opened::Opened;
use crate::tags::{Found, Tag, tag_at};
use std::alloc::Global;
use trust_types::NoMemory;

#[tactic(auto, using(std::proofs::Common::append_assoc), unfolding(crate::specs::Elements::link))]
fn write_link(html: &mut Vec<u8>, page: Page, name: &[u8]) -> Result<(), NoMemory>
    ensures { OnOk result (html.new.items ≡ html.old.items ++ link page name.now) }
{
    write(html, b"<a href=\"/")?;
    write(html, page.word())?;
    write(html, b"/")?;
    write(html, name)?;
    write(html, b"\">")?;
    write(html, name)?;
    write(html, b"</a>")?;
    Ok(())
}

#[tactic(auto, using(std::proofs::Common::append_assoc), unfolding(crate::specs::Elements::anchor_tag))]
fn write_anchor(html: &mut Vec<u8>, url: &[u8]) -> Result<(), NoMemory>
    ensures { OnOk result (html.new.items ≡ html.old.items ++ anchor_tag url.now) }
{
    write(html, b"<a href=\"")?;
    write_escaped(html, url)?;
    write(html, b"\">")?;
    Ok(())
}

/// Closes the elements above the uppermost such element, and that one.
#[tactic(auto, using(std::proofs::Common::append_assoc), unfolding(crate::specs::Cleaning::end_tags_through, crate::specs::Cleaning::below))]
fn close_through(html: &mut Vec<u8>, opened: &mut Opened, element: Element) -> Result<(), NoMemory>
    ensures written { OnOk result (html.new.items ≡ html.old.items ++ end_tags_through element opened.old) }
    ensures left { OnOk result (opened.new ≡ below element opened.old) }
{
    while let Some(top) = opened.pop() {
        write(html, top.end_tag())?;
        if element.is_same(top) {
            return Ok(());
        }
    }
    Ok(())
}

/// Closes all elements.
fn close_all(html: &mut Vec<u8>, opened: &mut Opened) -> Result<(), NoMemory>
    ensures { OnOk result (html.new.items ≡ html.old.items ++ end_tags opened.old) }
{
    while let Some(element) = opened.pop() {
        write(html, element.end_tag())?;
    }
    Ok(())
}

/// Does with the tag what its rule says; `false` where the rule doesn't apply, and nothing is done.
#[tactic(auto, unfolding(crate::specs::Cleaning::by_rule))]
fn apply(html: &mut Vec<u8>, opened: &mut Opened, found: Found<'_>) -> Result<bool, NoMemory>
    ensures { let tag = seen found.entry in
        IfOk result (λ applies.
        Applies applies tag.rest html.old.items html.new.items opened.old opened.new (by_rule opened.old tag)) }
{
    match found.tag {
        Tag::LineBreak => {
            write(html, b"<br>")?;
        }
        Tag::PageLink(page, name) => {
            if opened.holds(Element::A) {
                return Ok(false);
            }
            write_link(html, page, name)?;
        }
        Tag::AnchorStart(url) => {
            if opened.holds(Element::A) || opened.is_full() {
                return Ok(false);
            }
            write_anchor(html, url)?;
            opened.push(Element::A)?;
        }
        Tag::Start(element) => {
            if opened.is_full() {
                return Ok(false);
            }
            write(html, element.start_tag())?;
            opened.push(element)?;
        }
        Tag::End(element) => {
            if !opened.holds(element) {
                return Ok(false);
            }
            close_through(html, opened, element)?;
        }
    }
    Ok(true)
}

/// Takes the tag or the byte at the front of the text by the first rule that applies, and gives the rest.
#[tactic(auto, unfolding(crate::specs::Cleaning::step_at))]
fn step<'a>(html: &mut Vec<u8>, opened: &mut Opened, text: &'a [u8]) -> Result<&'a [u8], NoMemory>
    requires { 0 < length text.now }
    ensures shorter { IfOk result (λ rest. length rest.now < length text.now) }
    ensures done { IfOk result (λ rest.
        Does rest.now html.old.items html.new.items opened.new (step_at opened.old text.now)) }
{
    if let Some(found) = tag_at(text) {
        if apply(html, opened, found)? {
            return Ok(found.rest);
        }
    }
    write_byte(html, text[0])?;
    Ok(&text[1..])
}

/// The text cleaned: the elements and links that it may have stay, all else is escaped, and what it leaves open is closed. No
/// text is refused. One pass, whose time grows with the text alone, and no memory but the output's and that of 64 open elements.
/// The output has at most six times the text's bytes. The one error is out of memory.
pub fn clean(alloc: Global, text: &str) -> Result<SafeHtml, NoMemory>
    ensures { IfOk result (λ html. html ≡ cleaned text.now) }
{
    let mut html = Vec::with_capacity(alloc, text.len())?;
    let mut opened = Opened::new(alloc);
    let mut rest = write_plain(&mut html, text.as_bytes())?;
    while !rest.is_empty() {
        let behind = step(&mut html, &mut opened, rest)?;
        rest = write_plain(&mut html, behind)?;
    }
    close_all(&mut html, &mut opened)?;
    Ok(SafeHtml::of(html))
}

/// The text with `&`, `<`, `>` and `"` escaped, so that it is text wherever a page has text or an attribute in double quotes. No text
/// is refused. One pass. The one error is out of memory.
pub fn escape(alloc: Global, text: &str) -> Result<SafeHtml, NoMemory>
    ensures exact { IfOk result (λ html. html ≡ escaped text.now) }
    // No double quote, `<` or `>`: it may stand in an attribute in double quotes.
    ensures quotable { IfOk result (λ html. list_all is_value_byte html ≡ true) }
{
    let mut html = Vec::with_capacity(alloc, text.len())?;
    write_escaped(&mut html, text.as_bytes())?;
    Ok(SafeHtml::of(html))
}
