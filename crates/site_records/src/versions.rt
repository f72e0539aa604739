ghost use Rattle.std.specs.Prelude.{◌≡◌, Ok, Err};
ghost use Rattle.site_records.specs.inner.Reading.{has_level, version_in};

use crate::faults::RowFault;
use trust_types::Level;

/// The version in which a row is written.
#[derive(Clone, Copy)]
pub enum Version {
    /// It had seven kinds of record, and the levels up to Master.
    One,
    /// It has all kinds of record and all levels.
    Two,
}

impl Version {
    /// The version that a value names.
    pub fn read(value: &[u8]) -> Result<Version, RowFault>
        ensures { result ≡ version_in value.now }
    {
        match value {
            b"1" => Ok(Version::One),
            b"2" => Ok(Version::Two),
            _ => Err(RowFault::NotARow),
        }
    }

    /// Whether a certificate of the level has a row of this version.
    pub fn has_level(self, level: Level) -> bool
        ensures { result ≡ has_level self level }
    {
        match self {
            Version::One => level.rank() < 4,
            Version::Two => true,
        }
    }
}
