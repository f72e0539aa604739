//! How output lines are put together: on the stack, so that a line never fails after its event was done.

ghost use Rattle.std.specs.Prelude.{◌≡◌, ◌≤◌, ◌+◌, ◌++◌, codes, decimal, length, vec_len, vec_capacity};
ghost use Rattle.arrayvec.specs.ArrayString.{array_string_len};
ghost use Rattle.trust_types.specs.Levels.{level_name};

use arrayvec::ArrayString;
use itoa::Buffer;
use trust_types::Level;

/// How many bytes an output line has at most, without the names of a roster and the LF.
pub(crate) const LONGEST_LINE: usize = 96;

/// An output line, or the front of one, without its LF.
pub(crate) type Line = ArrayString<LONGEST_LINE>;

/// The line of these words.
pub(crate) fn text(words: &str) -> Line
    requires { length words.now ≤ 40 }
    ensures { result.bytes ≡ words.now }
{
    let mut line = Line::new();
    line.push_str(words);
    line
}

/// The line of these words with a number behind them.
pub(crate) fn numbered(words: &str, number: u64) -> Line
    requires { length words.now ≤ 40 }
    ensures { result.bytes ≡ words.now ++ decimal number }
{
    let mut line = text(words);
    put_number(&mut line, number);
    line
}

/// Puts a number at the end of a line, in decimal digits.
pub(crate) fn put_number(line: &mut Line, number: u64)
    requires { array_string_len line.old ≤ 76 }
    ensures bytes { line.new.bytes ≡ line.old.bytes ++ decimal number }
    ensures len { array_string_len line.new ≤ array_string_len line.old + 20 }
{
    let mut buffer = Buffer::new();
    line.push_str(buffer.format(number));
}

/// Puts the name of a level at the end of a line.
#[tactic(auto, using(crate::proofs::Sizes::level_short))]
pub(crate) fn put_level(line: &mut Line, level: Level)
    requires { array_string_len line.old ≤ 86 }
    ensures bytes { line.new.bytes ≡ line.old.bytes ++ level_name level }
    ensures len { array_string_len line.new ≤ array_string_len line.old + 10 }
{
    line.push_str(level.name());
}

/// Adds bytes to a text that has room for them.
pub(crate) fn put(out: &mut Vec<u8>, bytes: &[u8])
    requires { vec_len out.old + length bytes.now ≤ vec_capacity out.old }
    ensures items { out.new.items ≡ out.old.items ++ bytes.now }
    ensures len { vec_len out.new ≡ vec_len out.old + length bytes.now }
    ensures capacity { vec_capacity out.old ≤ vec_capacity out.new }
{
    if out.extend_from_slice(bytes).is_err() {
        unreachable!();
    }
}

/// Adds a line and its LF to a text that has room for them.
pub(crate) fn put_line(out: &mut Vec<u8>, line: &Line)
    requires { vec_len out.old + 97 ≤ vec_capacity out.old }
    ensures { out.new.items ≡ out.old.items ++ (line.now.bytes ++ codes "\n") }
{
    put(out, line.as_str().as_bytes());
    put(out, b"\n");
}
