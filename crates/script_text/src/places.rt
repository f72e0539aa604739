//! What the places of a script's line hold.

ghost use Rattle.std.specs.Prelude.{◌≡◌};
ghost use Rattle.std.specs.Char.{is_ascii_digit};
ghost use Rattle.std.specs.List.{list_all};
ghost use Rattle.text_lines.specs.Numbers.{is_numeral};
ghost use Rattle.script_text.specs.Places.{number_in, moment, moment_in, any_level, any_grade, text_in, token_in};
ghost use Rattle.script_text.specs.inner.Reading.{Tells};

use crate::lines::Moment;
use hex::FromHex;
use percent_encoding::{DecodeError, percent_decode_str};
use sessions::Token;
use std::alloc::Global;
use text_lines::{LineFault, TextKind, fault_unless, number};
use trust_types::{LAST_MOMENT, Level, Text};

/// The number that stands in a number's place.
pub(crate) fn number_in(word: &str) -> Result<u32, TextKind>
    ensures { result ≡ number_in word.now }
{
    number(word.as_bytes()).ok_or(TextKind::BadNumber)
}

/// The moment that stands in a moment's place.
pub(crate) fn moment_in(word: &str) -> Result<Moment, TextKind>
    ensures { result ≡ moment_in word.now }
{
    moment(word).ok_or(TextKind::BadNumber)
}

/// The moment that a word of 1 to 12 digits writes.
#[tactic(auto, unfolding(crate::specs::Places::moment))]
fn moment(word: &str) -> Option<Moment>
    ensures { result ≡ moment word.now }
{
    if !is_numeral(word.as_bytes()) {
        return None;
    }
    let Ok(moment) = word.parse::<u64>() else {
        return None;
    };
    if moment <= LAST_MOMENT {
        Some(Moment::of(moment))
    } else {
        None
    }
}

/// Whether the word is 1 to 12 digits, the first no 0 unless it is the only one.
fn is_numeral(word: &[u8]) -> bool
    ensures { result ≡ is_numeral 12 word.now }
{
    1 <= word.len() && word.len() <= 12 && are_digits(word) && (word.len() == 1 || word[0] != b'0')
}

fn are_digits(word: &[u8]) -> bool
    ensures { result ≡ list_all is_ascii_digit word.now }
{
    word.iter().all(|byte| byte.is_ascii_digit())
}

/// The level that stands in a level's place.
pub(crate) fn any_level(word: &str) -> Result<Level, TextKind>
    ensures { result ≡ any_level word.now }
{
    Level::of_name(word.as_bytes()).ok_or(TextKind::BadLevel)
}

/// The grade that stands in a grade's place.
pub(crate) fn any_grade(word: &str) -> Result<Level, TextKind>
    ensures { result ≡ any_grade word.now }
{
    let level = any_level(word)?;
    fault_unless(level.is_grade(), TextKind::BadLevel)?;
    Ok(level)
}

/// The text that a word stands for. One copy of its bytes.
pub(crate) fn text_in(alloc: Global, word: &str) -> Result<Text, LineFault>
    ensures { Tells result (text_in word.now) }
{
    match percent_decode_str(word).decode_utf8(alloc) {
        Ok(text) => Ok(Text::from_string(text.into_owned(alloc)?)),
        Err(DecodeError::Utf8(_)) => Err(LineFault::Kind(TextKind::BadText)),
        Err(DecodeError::OutOfMemory) => Err(LineFault::NoMemory),
    }
}

/// The token that a word's digits write.
pub(crate) fn token_in(word: &str) -> Result<Token, TextKind>
    ensures { result ≡ token_in word.now }
{
    match <[u8; 16] as FromHex>::from_hex(word.as_bytes()) {
        Ok(token) => Ok(Token(token)),
        Err(_) => Err(TextKind::BadText),
    }
}
