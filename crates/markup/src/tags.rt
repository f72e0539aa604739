ghost use Rattle.std.specs.Prelude.{◌≡◌, ◌∷◌, length, drop, take};
ghost use Rattle.std.specs.Char.{is_ascii_alphabetic};
ghost use Rattle.std.specs.List.{prefix_len, take_while};
ghost use Rattle.std.specs.Option.{option_map};
ghost use Rattle.std.specs.Str.{str_eq_ignore_ascii_case};
ghost use Rattle.trust_types.specs.Names.{is_name, is_name_byte};
ghost use Rattle.markup.specs.Tags.{word_at, behind_word, called};
ghost use Rattle.markup.specs.Tags.{line_break_at, page_link_at, anchor_at, start_at, end_at, form_at, tag_at};
ghost use Rattle.markup.specs.Urls.{is_url_byte, has_scheme};
ghost use Rattle.markup.specs.Elements.{bare};
ghost use Rattle.markup.specs.inner.Seen.{seen};
ghost use Rattle.markup.specs.declared.elements.Element.TheVariants as variants;

use crate::elements::{Element, Page};
use trust_types::Name;

/// A tag that a text may have.
#[derive(Clone, Copy)]
pub enum Tag<'a> {
    LineBreak,
    PageLink(Page, &'a [u8]),
    AnchorStart(&'a [u8]),
    Start(Element),
    End(Element),
}

/// The tag at the front of a text, and the text behind it.
#[derive(Clone, Copy)]
pub struct Found<'a> {
    pub tag: Tag<'a>,
    pub rest: &'a [u8],
}

/// The elements that are written without an attribute.
const BARE: [Element; 12] = [
    Element::B,
    Element::I,
    Element::Em,
    Element::Strong,
    Element::Tt,
    Element::Code,
    Element::Pre,
    Element::P,
    Element::Blockquote,
    Element::Ul,
    Element::Ol,
    Element::Li,
];

/// Whether both are the same but for ASCII case.
fn is_word(bytes: &[u8], word: &[u8]) -> bool
    ensures { result ≡ str_eq_ignore_ascii_case bytes.now word.now }
{
    bytes.eq_ignore_ascii_case(word)
}

#[tactic(auto, unfolding(crate::specs::Tags::line_break_at))]
fn line_break_at(text: &[u8]) -> Option<Found<'_>>
    ensures { option_map seen result ≡ line_break_at text.now }
{
    if text.starts_with(b">") {
        return Some(Found {
            tag: Tag::LineBreak,
            rest: &text[1..],
        });
    }
    if text.starts_with(b"/>") {
        return Some(Found {
            tag: Tag::LineBreak,
            rest: &text[2..],
        });
    }
    if text.starts_with(b" />") {
        return Some(Found {
            tag: Tag::LineBreak,
            rest: &text[3..],
        });
    }
    None
}

/// How many bytes at the front may stand in a name.
fn name_len(text: &[u8]) -> usize
    ensures { result ≡ prefix_len is_name_byte text.now }
{
    text.iter()
        .take_while(|byte| byte.is_ascii_lowercase() || byte.is_ascii_digit())
        .count()
}

/// The bytes of a name at the front, and what stands behind them.
#[tactic(auto, using(crate::proofs::Fronts::fronts))]
fn split_name(text: &[u8]) -> (&[u8], &[u8])
    ensures name { result.0.now ≡ take_while is_name_byte text.now }
    ensures behind { result.1.now ≡ drop (length (take_while is_name_byte text.now)) text.now }
{
    text.split_at(name_len(text))
}

/// Whether the text begins with the word, but for ASCII case.
fn begins(text: &[u8], word: &[u8]) -> bool
    ensures { result ≡ str_eq_ignore_ascii_case (take (length word.now) text.now) word.now }
{
    is_word(&text[..word.len().min(text.len())], word)
}

#[tactic(auto, unfolding(crate::specs::Tags::page_link_at))]
fn page_link_at(page: Page, text: &[u8]) -> Option<Found<'_>>
    ensures { option_map seen result ≡ page_link_at page text.now }
{
    if !text.starts_with(b">") {
        return None;
    }
    let (name, behind) = split_name(&text[1..]);
    if Name::read(name).is_none() {
        return None;
    }
    let end = page.end();
    if !begins(behind, end) {
        return None;
    }
    Some(Found {
        tag: Tag::PageLink(page, name),
        rest: &behind[end.len()..],
    })
}

fn is_url_byte(byte: u8) -> bool
    ensures { result ≡ is_url_byte byte }
{
    b' ' < byte && byte != b'"' && byte != b'<' && byte != b'>'
}

/// How many bytes at the front may stand in a URL.
fn url_len(text: &[u8]) -> usize
    ensures { result ≡ prefix_len is_url_byte text.now }
{
    text.iter().take_while(|byte| is_url_byte(**byte)).count()
}

/// The bytes of a URL at the front, and what stands behind them.
#[tactic(auto, using(crate::proofs::Fronts::fronts))]
fn split_url(text: &[u8]) -> (&[u8], &[u8])
    ensures url { result.0.now ≡ take_while is_url_byte text.now }
    ensures behind { result.1.now ≡ drop (length (take_while is_url_byte text.now)) text.now }
{
    text.split_at(url_len(text))
}

#[tactic(auto, unfolding(crate::specs::Urls::has_scheme))]
fn has_scheme(url: &[u8]) -> bool
    ensures { result ≡ has_scheme url.now }
{
    url.starts_with(b"http://") || url.starts_with(b"https://")
}

#[tactic(auto, unfolding(crate::specs::Tags::anchor_at))]
fn anchor_at(text: &[u8]) -> Option<Found<'_>>
    ensures { option_map seen result ≡ anchor_at text.now }
{
    if !text.starts_with(b" href=\"") {
        return None;
    }
    let (url, behind) = split_url(&text[7..]);
    if !has_scheme(url) {
        return None;
    }
    if !behind.starts_with(b"\">") {
        return None;
    }
    Some(Found {
        tag: Tag::AnchorStart(url),
        rest: &behind[2..],
    })
}

/// The element without an attribute that is called by the word.
fn bare_element(word: &[u8]) -> Option<Element>
    ensures { result ≡ called word.now bare }
{
    BARE.iter()
        .copied()
        .find(|element| is_word(word, element.name()))
}

/// The element that is called by the word.
fn any_element(word: &[u8]) -> Option<Element>
    ensures { result ≡ called word.now (variants.A ∷ bare) }
{
    if is_word(word, b"a") {
        return Some(Element::A);
    }
    bare_element(word)
}

#[tactic(auto, unfolding(crate::specs::Tags::start_at))]
fn start_at<'a>(word: &[u8], text: &'a [u8]) -> Option<Found<'a>>
    ensures { option_map seen result ≡ start_at word.now text.now }
{
    if !text.starts_with(b">") {
        return None;
    }
    match bare_element(word) {
        Some(element) => Some(Found {
            tag: Tag::Start(element),
            rest: &text[1..],
        }),
        None => None,
    }
}

#[tactic(auto, unfolding(crate::specs::Tags::end_at))]
fn end_at<'a>(word: &[u8], text: &'a [u8]) -> Option<Found<'a>>
    ensures { option_map seen result ≡ end_at word.now text.now }
{
    if !text.starts_with(b">") {
        return None;
    }
    match any_element(word) {
        Some(element) => Some(Found {
            tag: Tag::End(element),
            rest: &text[1..],
        }),
        None => None,
    }
}

#[tactic(auto, unfolding(crate::specs::Tags::form_at))]
fn form_at<'a>(word: &[u8], text: &'a [u8]) -> Option<Found<'a>>
    ensures { option_map seen result ≡ form_at word.now text.now }
{
    if is_word(word, b"br") {
        return line_break_at(text);
    }
    if is_word(word, b"person") {
        return page_link_at(Page::Person, text);
    }
    if is_word(word, b"project") {
        return page_link_at(Page::Project, text);
    }
    if is_word(word, b"a") {
        return anchor_at(text);
    }
    start_at(word, text)
}

/// How many letters stand at the front.
fn word_len(text: &[u8]) -> usize
    ensures { result ≡ prefix_len is_ascii_alphabetic text.now }
{
    text.iter()
        .take_while(|byte| byte.is_ascii_alphabetic())
        .count()
}

/// The letters at the front, and what stands behind them.
#[tactic(auto, using(crate::proofs::Fronts::fronts))]
fn split_word(text: &[u8]) -> (&[u8], &[u8])
    ensures word { result.0.now ≡ word_at text.now }
    ensures behind { result.1.now ≡ behind_word text.now }
{
    text.split_at(word_len(text))
}

/// The tag at the front of the text, if one stands there. It reads a word of letters, and where that word asks for one a name
/// or a URL. None of these has a `<` in it, so that over a whole text no byte is read more than a few times.
#[tactic(auto, unfolding(crate::specs::Tags::tag_at))]
pub fn tag_at(text: &[u8]) -> Option<Found<'_>>
    ensures { option_map seen result ≡ tag_at text.now }
{
    if text.starts_with(b"</") {
        let (word, behind) = split_word(&text[2..]);
        return end_at(word, behind);
    }
    if text.starts_with(b"<") {
        let (word, behind) = split_word(&text[1..]);
        return form_at(word, behind);
    }
    None
}
