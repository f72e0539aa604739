//! The parts of a record, each read from its value.

ghost use Rattle.std.specs.Prelude.{ℕ, ◌≡◌, ◌≤◌, ◌<◌, ◌^◌, ◌&&◌, nat_le, Some, decimal, IfOk};
ghost use Rattle.std.specs.Str.{bytes_eq};
ghost use Rattle.hex.specs.Hex.{encode_lower};
ghost use Rattle.site_records.specs.inner.Reading.{unless_not, number_in, account_in, name_in, digest_in, secret_in, level_in};

use crate::faults::RowFault;
use crate::versions::Version;
use hex::FromHex;
use itoa::Buffer;
use std::str;
use trust_types::{AccountNo, Level, Name, Secret};

/// Nothing where the test holds.
///
/// # Errors
/// [`RowFault::NotARow`] exactly where it doesn't.
pub fn unless_not(test: bool) -> Result<(), RowFault>
    ensures { result ≡ unless_not test }
{
    if test { Ok(()) } else { Err(RowFault::NotARow) }
}

/// A number of which the value is a text.
fn parsed(value: &[u8]) -> Option<u64>
    ensures { (n : ℕ) → n < 2 ^ 64 → value.now ≡ decimal n → result ≡ Some n }
{
    let Ok(text) = str::from_utf8(value) else {
        return None;
    };
    text.parse().ok()
}

/// Whether the number is within a limit, and the value its decimal text.
fn is_number(most: u64, number: u64, value: &[u8]) -> bool
    ensures { result ≡ (bytes_eq (decimal number) value.now && nat_le number most) }
{
    Buffer::new().format(number).as_bytes() == value && number <= most
}

/// The number up to a limit whose decimal text the value is: with no sign, and no 0 in front.
pub fn number_in(most: u64, value: &[u8]) -> Result<u64, RowFault>
    ensures number { result ≡ number_in most value.now }
    ensures most { IfOk result (λ number. number ≤ most) }
{
    let Some(number) = parsed(value) else {
        return Err(RowFault::NotARow);
    };
    if is_number(most, number, value) {
        Ok(number)
    } else {
        Err(RowFault::NotARow)
    }
}

/// The number of an account or of an article.
pub fn number_32(value: &[u8]) -> Result<u32, RowFault>
    ensures { result ≡ account_in value.now }
{
    Ok(number_in(u32::MAX as u64, value)? as u32)
}

pub fn account_in(value: &[u8]) -> Result<AccountNo, RowFault>
    ensures { result ≡ account_in value.now }
{
    Ok(AccountNo(number_32(value)?))
}

pub fn name_in(value: &[u8]) -> Result<Name, RowFault>
    ensures { result ≡ name_in value.now }
{
    Name::read(value).ok_or(RowFault::NotARow)
}

/// The digest whose 64 digits the value is. It reads them in either case, and then compares them with those that are written.
fn digest_in(value: &[u8]) -> Result<Secret, RowFault>
    ensures { result ≡ digest_in value.now }
{
    let Ok(digest) = <[u8; 32] as FromHex>::from_hex(value) else {
        return Err(RowFault::NotARow);
    };
    unless_not(digits_of(&digest).as_slice() == value)?;
    Ok(Secret::Digest(digest))
}

pub fn secret_in(value: &[u8]) -> Result<Secret, RowFault>
    ensures { result ≡ secret_in value.now }
{
    if value.is_empty() {
        return Ok(Secret::Absent);
    }
    digest_in(value)
}

/// The level, which is one that the version had.
pub fn level_in(version: Version, value: &[u8]) -> Result<Level, RowFault>
    ensures { result ≡ level_in version value.now }
{
    let level = Level::of_name(value).ok_or(RowFault::NotARow)?;
    unless_not(version.has_level(level))?;
    Ok(level)
}

/// The 64 digits of a digest, in lower case.
pub fn digits_of(digest: &[u8; 32]) -> [u8; 64]
    ensures { result ≡ encode_lower digest.now }
{
    let mut digits = [0; 64];
    let _fits = hex::encode_to_slice(*digest, &mut digits);
    digits
}
