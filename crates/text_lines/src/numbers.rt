ghost use Rattle.std.specs.Prelude.{◌≡◌, ◌≤◌, IsTrue, length};
ghost use Rattle.std.specs.Char.{is_ascii_digit};
ghost use Rattle.std.specs.List.{list_all};
ghost use Rattle.std.specs.Str.Parse.{digits_value};
ghost use Rattle.text_lines.specs.Numbers.{is_numeral, number};

/// The number that the word writes in 1 to 10 digits, with no 0 in front; `None` where it has another form or is above
/// 4,294,967,295.
#[tactic(auto, unfolding(crate::specs::Numbers::number))]
pub fn number(word: &[u8]) -> Option<u32>
    ensures { result ≡ number word.now }
{
    if !is_numeral(10, word) {
        return None;
    }
    u32::try_from(value(word)).ok()
}

/// Whether the word is 1 to so many digits, the first no 0 unless it is the only one.
fn is_numeral(most: usize, word: &[u8]) -> bool
    ensures { result ≡ is_numeral most word.now }
{
    1 <= word.len()
        && word.len() <= most
        && are_digits(word)
        && (word.len() == 1 || word[0] != b'0')
}

fn are_digits(word: &[u8]) -> bool
    ensures { result ≡ list_all is_ascii_digit word.now }
{
    word.iter().all(|byte| byte.is_ascii_digit())
}

/// The number that so many digits write.
fn value(digits: &[u8]) -> u64
    requires digits { IsTrue (list_all is_ascii_digit digits.now) }
    requires few { length digits.now ≤ 19 }
    ensures { result ≡ digits_value 10 digits.now }
{
    let mut value = 0;
    for digit in digits {
        value = value * 10 + (*digit - b'0') as u64;
    }
    value
}
