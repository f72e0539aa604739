//! How much a site holds.

ghost use Rattle.std.specs.Prelude.{◌≡◌};

/// The most accounts of a site.
pub const MOST_ACCOUNTS: u32 = 100_000;

/// The most standing certificates of a site.
pub const MOST_CERTS: u32 = 2_000_000;

/// The fewest levels of a table.
pub const FEWEST_LEVELS: u32 = 2;

/// The most levels of a table: as many as there are.
pub const MOST_LEVELS: u32 = 7;

/// The most entries of a table.
pub const MOST_ENTRIES: usize = 16;

/// The greatest entry of a table.
pub const GREATEST_ENTRY: u32 = 2_000;

/// The most bytes of one text of a member, or of a title.
pub const LONGEST_TEXT: usize = 16_384;

/// The last second of the year 9999, in seconds after 1970: the last moment of a record.
pub const LAST_MOMENT: u64 = 253_402_300_799;

/// What the limits are that definitions take from here: a promise about the numbers, so that no other passes for one of them.
pub fn limits_are_these()
    ensures accounts { MOST_ACCOUNTS ≡ 100_000 }
    ensures certs { MOST_CERTS ≡ 2_000_000 }
    ensures text { LONGEST_TEXT ≡ 16_384 }
    ensures moment { LAST_MOMENT ≡ 253_402_300_799 }
{}
