ghost use Rattle.std.specs.Prelude.{◌≡◌, ◌∷◌, [], map, IfSome};
ghost use Rattle.trust_types.specs.Levels.{IsGrade};
ghost use Rattle.commands.specs.Commands.{command_of, limit_of, grade_of, asked_of, AsksGrades, AreGrades};

use trust_types::Level;

/// The most bytes of a site text that `rosters` and `audit` take.
pub const MOST_SITE_BYTES: usize = 67_108_864;

/// The most bytes of a proof text that `check` takes.
pub const MOST_PROOF_BYTES: usize = 268_435_456;

/// The levels whose rosters are asked for.
#[derive(Clone, Copy, Debug, PartialEq, Eq)]
pub enum Asked {
    /// This grade alone.
    One(Level),
    /// All grades of the site's table, lowest first.
    All,
}

impl Asked {
    /// What the word of `rosters` asks for: a grade, or `all`.
    fn of_word(word: &str) -> Option<Asked>
        ensures asked { result ≡ asked_of word.now }
        ensures grades { IfSome result AreGrades }
    {
        if word == "all" {
            return Some(Asked::All);
        }
        match grade_of(word) {
            Some(level) => Some(Asked::One(level)),
            None => None,
        }
    }
}

/// The grade that a word spells.
fn grade_of(word: &str) -> Option<Level>
    ensures grade { result ≡ grade_of word.now }
    ensures is { IfSome result IsGrade }
{
    match Level::of_name(word.as_bytes()) {
        Some(level) if level.is_grade() => Some(level),
        _ => None,
    }
}

/// What the program can be asked to do.
#[derive(Clone, Copy, Debug, PartialEq, Eq)]
pub enum Command {
    /// Read a proof text, and print the verdict on it.
    Check,
    /// Read a site text, and print who is accepted at each level that is asked for.
    Rosters(Asked),
    /// Read a site text, and print a proof text of a greatest flow at this grade.
    Audit(Level),
}

impl Command {
    /// The command that the words are; `None` where they are none. It takes no memory.
    pub fn of_words(words: &[&str]) -> Option<Command>
        ensures command { result ≡ command_of (map (λ word. word.now) words.now) }
        ensures grades { IfSome result AsksGrades }
    {
        match words {
            [word] => Command::of_word(word),
            [word, level] => Command::of_pair(word, level),
            _ => None,
        }
    }

    fn of_word(word: &str) -> Option<Command>
        ensures command { result ≡ command_of (word.now ∷ []) }
        ensures grades { IfSome result AsksGrades }
    {
        if word == "check" {
            Some(Command::Check)
        } else {
            None
        }
    }

    fn of_pair(word: &str, level: &str) -> Option<Command>
        ensures command { result ≡ command_of (word.now ∷ level.now ∷ []) }
        ensures grades { IfSome result AsksGrades }
    {
        if word == "rosters" {
            return match Asked::of_word(level) {
                Some(asked) => Some(Command::Rosters(asked)),
                None => None,
            };
        }
        if word == "audit" {
            return match grade_of(level) {
                Some(level) => Some(Command::Audit(level)),
                None => None,
            };
        }
        None
    }

    /// The most bytes of input that the command takes.
    pub fn limit(self) -> usize
        ensures { result ≡ limit_of self }
    {
        match self {
            Command::Check => MOST_PROOF_BYTES,
            Command::Rosters(_) | Command::Audit(_) => MOST_SITE_BYTES,
        }
    }
}
