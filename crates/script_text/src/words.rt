//! The words of a script's line, as texts.

ghost use Rattle.std.specs.Prelude.{◌≡◌, [], ◌∷◌, Ok, Err, MatchOption, MatchResult, IfNone, option_map, drop};
ghost use Rattle.text_lines.specs.declared.faults.TextKind.TheVariants.{BadLine};
ghost use Rattle.text_lines.specs.Places.{no_word, one_word, three_words};
ghost use Rattle.script_text.specs.Places.{line_words, one_or_two, two_words};

use percent_encoding::ascii_str;
use std::marker::Model;
use text_lines::{TextKind, Words, is_line};

/// What is left of a line, of which one word after another is read as a text. It copies nothing. Contracts see the list of the
/// words.
#[derive(Drop)]
pub(crate) struct LineWords<'a> {
    words: Words<'a>,
}

impl<'a> Model for LineWords<'a> {
    ghost use Rattle.std.specs.Prelude.{ℕ, List, IsTrue};
    ghost use Rattle.std.specs.List.{list_all};
    ghost use Rattle.text_lines.specs.Words.{is_word};

    ghost Value = { List (List ℕ) };

    ghost view = { λ line. line.words };

    // So they are ASCII.
    ghost invariant = { λ line. IsTrue (list_all is_word line.words) };
}

impl<'a> LineWords<'a> {
    /// The words of a line.
    ///
    /// # Errors
    /// [`TextKind::BadLine`] exactly where it isn't one or more words with one space between them.
    pub fn of(line: &'a [u8]) -> Result<LineWords<'a>, TextKind>
        ensures { result ≡ line_words line.now }
    {
        if !is_line(line) {
            return Err(TextKind::BadLine);
        }
        Ok(LineWords {
            words: Words::of(line),
        })
    }

    /// The next word; `None` where none is left, and nothing is then changed.
    pub fn next_word(&mut self) -> Option<&'a str>
        ensures word { MatchOption result (self.old ≡ []) (λ word. self.old ≡ word.now ∷ self.new) }
        ensures end { IfNone result (self.new ≡ self.old) }
    {
        let word = self.words.next_word()?;
        Some(ascii_str(word))
    }

    /// The first word, behind which others may be left.
    ///
    /// # Errors
    /// [`TextKind::BadLine`] exactly where none is left.
    pub fn first(&mut self) -> Result<&'a str, TextKind>
        ensures word { MatchResult result (λ word. self.old ≡ word.now ∷ self.new) (λ kind. (self.old ≡ []) × (kind ≡ BadLine)) }
        ensures left { self.new ≡ drop 1 self.old }
    {
        self.next_word().ok_or(TextKind::BadLine)
    }

    /// The word that is left.
    ///
    /// # Errors
    /// [`TextKind::BadLine`] exactly where it isn't one word.
    pub fn one(&mut self) -> Result<&'a str, TextKind>
        ensures word { MatchResult result (λ word. one_word self.old ≡ Ok word.now) (λ kind. one_word self.old ≡ Err kind) }
    {
        let word = self.first()?;
        self.end()?;
        Ok(word)
    }

    /// The word that is left, or the two words.
    ///
    /// # Errors
    /// [`TextKind::BadLine`] exactly where it isn't one or two.
    pub fn one_or_two(&mut self) -> Result<(&'a str, Option<&'a str>), TextKind>
        ensures words { MatchResult result (λ words. one_or_two self.old ≡ Ok (words.0.now, option_map (λ word. word.now) words.1)) (λ kind. one_or_two self.old ≡ Err kind) }
    {
        let first = self.first()?;
        let second = self.next_word();
        self.end()?;
        Ok((first, second))
    }

    /// The two words that are left.
    ///
    /// # Errors
    /// [`TextKind::BadLine`] exactly where they aren't two.
    pub fn two(&mut self) -> Result<(&'a str, &'a str), TextKind>
        ensures words { MatchResult result (λ words. two_words self.old ≡ Ok (words.0.now, words.1.now)) (λ kind. two_words self.old ≡ Err kind) }
    {
        let first = self.first()?;
        let second = self.first()?;
        self.end()?;
        Ok((first, second))
    }

    /// The three words that are left.
    ///
    /// # Errors
    /// [`TextKind::BadLine`] exactly where they aren't three.
    pub fn three(&mut self) -> Result<(&'a str, &'a str, &'a str), TextKind>
        ensures words { MatchResult result (λ words. three_words self.old ≡ Ok (words.0.now, words.1.now, words.2.now)) (λ kind. three_words self.old ≡ Err kind) }
    {
        let first = self.first()?;
        let second = self.first()?;
        let third = self.first()?;
        self.end()?;
        Ok((first, second, third))
    }

    /// Nothing is left.
    fn end(&mut self) -> Result<(), TextKind>
        ensures none { result ≡ no_word self.old }
        ensures left { self.new ≡ drop 1 self.old }
    {
        match self.next_word() {
            Some(_) => Err(TextKind::BadLine),
            None => Ok(()),
        }
    }
}
