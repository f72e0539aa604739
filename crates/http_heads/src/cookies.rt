//! The session that a request's cookies name.

ghost use Rattle.std.specs.Prelude.{◌≡◌, length, map, IfOk, MatchOption, None, Some, option_map};
ghost use Rattle.std.specs.List.{All, flat_map, slice_split};
ghost use Rattle.httparse.specs.Spans.{IsHeaderWithin, header_bytes};
ghost use Rattle.http_heads.specs.Fields.{values_of};
ghost use Rattle.http_heads.specs.Cookies.{after, first_given, id_in, is_part_end, session_in, session_of};

use crate::closing::skip_spaces;
use crate::fields::is_named;
use crate::parts::{cut, place_of};
use hex::FromHex;
use httparse::spans::HeaderSpan;
use sessions::Token;
use std::alloc::Global;
use trust_types::{Name, NoMemory, Text};

/// The session's word of the first field of that name that has one.
pub(crate) fn id_word<'a>(bytes: &'a [u8], headers: &[HeaderSpan], name: &[u8]) -> Option<&'a [u8]>
    requires { All (IsHeaderWithin (length bytes.now)) headers.now }
    ensures { option_map (λ word. word.now) result ≡ first_given id_in (flat_map (slice_split is_part_end) (values_of name.now (map (header_bytes bytes.now) headers.now))) }
{
    for header in headers {
        if is_named(bytes, header, name) {
            if let Some(word) = id_of(header.value.of(bytes)) {
                return Some(word);
            }
        }
    }
    None
}

/// The session's word of one cookie's value.
fn id_of(value: &[u8]) -> Option<&[u8]>
    ensures { option_map (λ word. word.now) result ≡ first_given id_in (slice_split is_part_end value.now) }
{
    let mut left = Some(value);
    'parts: while let Some(bytes) = left {
        let (part, behind) = cut(bytes, b';');
        if let Some(word) = id_in(part) {
            return Some(word);
        }
        left = behind;
    }
    None
}

fn id_in(part: &[u8]) -> Option<&[u8]>
    ensures { option_map (λ word. word.now) result ≡ id_in part.now }
{
    skip_spaces(part).strip_prefix(b"id=")
}

/// The session that a word names.
pub(crate) fn session_in(alloc: Global, word: &[u8]) -> Result<Option<(Text, Token)>, NoMemory>
    ensures { IfOk result (λ session. session ≡ session_in word.now) }
{
    let Some(place) = place_of(word, b':') else {
        return Ok(None);
    };
    session_of(alloc, &word[..place], &word[place + 1..])
}

fn session_of(alloc: Global, name: &[u8], digits: &[u8]) -> Result<Option<(Text, Token)>, NoMemory>
    ensures { IfOk result (λ session. session ≡ session_of name.now digits.now) }
{
    let Some(name) = Name::read(name) else {
        return Ok(None);
    };
    let Ok(token) = <[u8; 16] as FromHex>::from_hex(digits) else {
        return Ok(None);
    };
    Ok(Some((Text::of(alloc, name.as_str())?, Token(token))))
}
