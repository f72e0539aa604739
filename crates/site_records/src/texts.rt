//! Texts, as a form has them.

ghost use Rattle.std.specs.Prelude.{◌≡◌, ◌↔◌, IsTrue, IfOk, string_bytes};
ghost use Rattle.form_urlencoded.specs.Form as spec;
ghost use Rattle.site_records.specs.inner.Reading.{Reads, text_in};

use crate::faults::RowFault;
use form_urlencoded::{byte_serialize, decode};
use std::alloc::{AllocError, Global};
use trust_types::Text;

/// Whether a form gives the text this value.
fn is_value_of(text: &[u8], value: &[u8]) -> bool
    ensures { IsTrue result ↔ (value.now ≡ spec.byte_serialize text.now) }
{
    let mut rest = value;
    for piece in byte_serialize(text) {
        match rest.strip_prefix(piece.as_bytes()) {
            Some(behind) => rest = behind,
            None => return false,
        }
    }
    rest.is_empty()
}

fn decoded(alloc: Global, value: &[u8]) -> Result<String, AllocError>
    ensures { IfOk result (λ text. spec.DecodesTo value.now (string_bytes text)) }
{
    decode(alloc, value)?.into_owned(alloc)
}

/// The text to which a form gives this value.
///
/// # Errors
/// [`RowFault::NotARow`] exactly where there is none, and [`RowFault::NoMemory`] where memory ran out.
pub fn text_in(alloc: Global, value: &[u8]) -> Result<Text, RowFault>
    ensures { Reads result (text_in value.now) }
{
    let Ok(text) = decoded(alloc, value) else {
        return Err(RowFault::NoMemory);
    };
    if is_value_of(text.as_bytes(), value) {
        Ok(Text::from_string(text))
    } else {
        Err(RowFault::NotARow)
    }
}
