//! The values of a row, one behind another.

ghost use Rattle.std.specs.Prelude.{◌≡◌, ◌≤◌, ◌==◌, MatchResult, Ok, Err, length};
ghost use Rattle.std.specs.List.{position_or_len};
ghost use Rattle.site_records.specs.inner.Reading.{value_at, at_end, one_value, two_values, three_values};

use crate::faults::RowFault;

/// How many bytes stand before the first one of this value.
pub fn place_of(byte: u8, text: &[u8]) -> usize
    ensures place { result ≡ position_or_len (λ b. b == byte) text.now }
    ensures within { result ≤ length text.now }
{
    match text.iter().position(|&b| b == byte) {
        Some(place) => place,
        None => text.len(),
    }
}

/// The value behind a key, and what is left of the row.
///
/// # Errors
/// [`RowFault::NotARow`] exactly where the row doesn't begin with the key.
pub fn value_at<'a>(key: &[u8], row: &'a [u8]) -> Result<(&'a [u8], &'a [u8]), RowFault>
    ensures { MatchResult result (λ found. value_at key.now row.now ≡ Ok (found.0.now, found.1.now)) (λ fault. value_at key.now row.now ≡ Err fault) }
{
    let rest = row.strip_prefix(key).ok_or(RowFault::NotARow)?;
    Ok(rest.split_at(place_of(b'&', rest)))
}

fn at_end(row: &[u8]) -> Result<(), RowFault>
    ensures { result ≡ at_end row.now }
{
    if row.is_empty() {
        Ok(())
    } else {
        Err(RowFault::NotARow)
    }
}

/// The value behind a key, with which the row ends.
pub fn one_value<'a>(key: &[u8], row: &'a [u8]) -> Result<&'a [u8], RowFault>
    ensures { MatchResult result (λ value. one_value key.now row.now ≡ Ok value.now) (λ fault. one_value key.now row.now ≡ Err fault) }
{
    let (value, rest) = value_at(key, row)?;
    at_end(rest)?;
    Ok(value)
}

/// The values behind two keys, with which the row ends.
pub fn two_values<'a>(
    first: &[u8],
    second: &[u8],
    row: &'a [u8],
) -> Result<(&'a [u8], &'a [u8]), RowFault>
    ensures { MatchResult result (λ values. two_values first.now second.now row.now ≡ Ok (values.0.now, values.1.now))
        (λ fault. two_values first.now second.now row.now ≡ Err fault) }
{
    let (value, rest) = value_at(first, row)?;
    let last = one_value(second, rest)?;
    Ok((value, last))
}

/// The values behind three keys, with which the row ends.
pub fn three_values<'a>(
    first: &[u8],
    second: &[u8],
    third: &[u8],
    row: &'a [u8],
) -> Result<(&'a [u8], &'a [u8], &'a [u8]), RowFault>
    ensures { MatchResult result (λ values. three_values first.now second.now third.now row.now ≡ Ok (values.0.now, values.1.now, values.2.now))
        (λ fault. three_values first.now second.now third.now row.now ≡ Err fault) }
{
    let (value, rest) = value_at(first, row)?;
    let (middle, last) = two_values(second, third, rest)?;
    Ok((value, middle, last))
}
