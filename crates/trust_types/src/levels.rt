ghost use Rattle.std.specs.Prelude.{◌≡◌, ◌<◌, ◌↔◌, IsTrue, Some};
ghost use Rattle.std.proofs.Common.{rules};
ghost use Rattle.std.specs.Cmp.{partial_order_from_own_ties};
ghost use Rattle.std.specs.Cmp.Rules.{comparing};
ghost use Rattle.std.specs.Ordering.{nat_cmp, on, as_partial_cmp};
ghost use Rattle.trust_types.specs.Levels.{IsGrade, level_name, level_of, rank};

use crate::limits::MOST_LEVELS;
use std::cmp::Ordering;
use std::fmt;

/// A level of trust, lowest first. Each but Observer is a grade. A site has the first two to seven of them, as its table says.
#[derive(Clone, Copy, Debug, PartialEq, Eq, Hash)]
pub enum Level {
    Observer,
    Apprentice,
    Journeyer,
    Master,
    Fellow,
    Warden,
    Elder,
}

impl Level {
    /// The grades, lowest first.
    pub const GRADES: [Level; 6] = [
        Level::Apprentice,
        Level::Journeyer,
        Level::Master,
        Level::Fellow,
        Level::Warden,
        Level::Elder,
    ];

    /// The grades, highest first.
    pub const GRADES_DOWN: [Level; 6] = [
        Level::Elder,
        Level::Warden,
        Level::Fellow,
        Level::Master,
        Level::Journeyer,
        Level::Apprentice,
    ];

    /// The level that the word spells, letter for letter; `None` where it spells none of them.
    pub fn of_name(word: &[u8]) -> Option<Level>
        ensures found { result ≡ level_of word.now }
        ensures spelled { (level : Level) → (result ≡ Some level) ↔ (word.now ≡ level_name level) }
    {
        match word {
            b"Observer" => Some(Level::Observer),
            b"Apprentice" => Some(Level::Apprentice),
            b"Journeyer" => Some(Level::Journeyer),
            b"Master" => Some(Level::Master),
            b"Fellow" => Some(Level::Fellow),
            b"Warden" => Some(Level::Warden),
            b"Elder" => Some(Level::Elder),
            _ => None,
        }
    }

    /// How the level is spelled.
    pub fn name(self) -> &'static str
        ensures { result.now ≡ level_name self }
    {
        match self {
            Level::Observer => "Observer",
            Level::Apprentice => "Apprentice",
            Level::Journeyer => "Journeyer",
            Level::Master => "Master",
            Level::Fellow => "Fellow",
            Level::Warden => "Warden",
            Level::Elder => "Elder",
        }
    }

    /// Its place in the order: 0 for Observer, and one more for each level above.
    pub fn rank(self) -> u32
        ensures { result ≡ rank self }
    {
        match self {
            Level::Observer => 0,
            Level::Apprentice => 1,
            Level::Journeyer => 2,
            Level::Master => 3,
            Level::Fellow => 4,
            Level::Warden => 5,
            Level::Elder => 6,
        }
    }

    /// The level of that place in the order.
    pub fn of_rank(place: u32) -> Level
        requires { place < MOST_LEVELS }
        ensures { rank result ≡ place }
    {
        match place {
            0 => Level::Observer,
            1 => Level::Apprentice,
            2 => Level::Journeyer,
            3 => Level::Master,
            4 => Level::Fellow,
            5 => Level::Warden,
            _ => Level::Elder,
        }
    }

    /// Whether the level is one that a certificate can give: any but Observer.
    pub fn is_grade(self) -> bool
        ensures { IsTrue result ↔ IsGrade self }
    {
        self != Level::Observer
    }
}

/// Levels are ordered by rank.
impl Ord for Level {
    ghost cmp = { on rank nat_cmp };

    ghost total = { Prim.search (comparing, rules) };

    ghost matches_partial_cmp = { Prim.search (comparing, rules) };

    ghost matches_eq = { Prim.search (comparing, rules) };

    fn cmp(&self, other: &Level) -> Ordering {
        self.rank().cmp(&other.rank())
    }
}

impl PartialOrd for Level {
    ghost partial_cmp = { as_partial_cmp (on rank nat_cmp) };

    ghost laws = { partial_order_from_own_ties (Prim.search (comparing, rules)) (Prim.search (comparing, rules)) };

    fn partial_cmp(&self, other: &Level) -> Option<Ordering> {
        Some(self.cmp(other))
    }
}

impl fmt::Display for Level {
    ghost output = { λ level. Some (level_name level) };

    fn fmt<W: fmt::Write>(&self, f: &mut fmt::Formatter<W>) -> fmt::Result {
        f.pad(self.name())
    }
}
