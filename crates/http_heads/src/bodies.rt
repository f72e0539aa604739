//! How long a request's body is.

ghost use Rattle.std.specs.Prelude.{◌≡◌, ◌≤◌, [], ◌∷◌, IsTrue, length};
ghost use Rattle.std.specs.List.{list_all};
ghost use Rattle.std.specs.Str.Parse.{digits_value};
ghost use Rattle.std.specs.Char.{is_ascii_digit};
ghost use Rattle.http_heads.specs.Bodies.{is_length, stated_length};
ghost use Rattle.http_heads.specs.Refusals.{refused_if};

/// The status, where the test holds.
pub(crate) fn refused_if(test: bool, status: u16) -> Result<(), u16>
    ensures { result ≡ refused_if test status }
{
    if test { Err(status) } else { Ok(()) }
}

/// The length that the value of the one Content-Length field states.
pub(crate) fn length_in(value: &[u8]) -> Option<u64>
    ensures { result ≡ stated_length (value.now ∷ []) }
{
    if !is_length(value) {
        return None;
    }
    Some(digits_value(value))
}

fn is_length(value: &[u8]) -> bool
    ensures { result ≡ is_length value.now }
{
    1 <= value.len() && value.len() <= 10 && are_digits(value)
}

fn are_digits(value: &[u8]) -> bool
    ensures { result ≡ list_all is_ascii_digit value.now }
{
    value.iter().all(|byte| byte.is_ascii_digit())
}

/// The number that up to 19 digits write.
fn digits_value(digits: &[u8]) -> u64
    requires digits { IsTrue (list_all is_ascii_digit digits.now) }
    requires few { length digits.now ≤ 19 }
    ensures { result ≡ digits_value 10 digits.now }
{
    let mut value = 0;
    for digit in digits {
        value = value * 10 + (*digit - b'0') as u64;
    }
    value
}
