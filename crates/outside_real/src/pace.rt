//! How long a peer may take.
ghost use Rattle.std.specs.Prelude.{◌≡◌, ◌<◌};
ghost use Rattle.outside_real.specs.Limits.{read_wait, write_wait, with_read, with_write};

/// The longest silence between requests, in milliseconds.
pub const BETWEEN: u64 = 5_000;

/// The longest silence within a request, in milliseconds.
pub const WITHIN: u64 = 10_000;

/// The longest time for a whole request, and for taking a response, in milliseconds.
pub const WHOLE: u64 = 30_000;

/// What a link waits for, as its last calls tell. Moments are milliseconds of the machine's clock.
#[derive(Clone, Copy, Debug, PartialEq, Eq)]
pub enum Stage {
    /// The first byte of a request.
    Idle,
    /// The rest of a request, whose first bytes had come by this moment.
    Asking(u64),
    /// That the peer takes the rest of a piece, the first write of which began at this moment.
    Taking(u64),
}

impl Stage {
    /// How long a read that begins now may wait, in milliseconds.
    pub fn read_wait(self, now: u64) -> u64
        ensures { result ≡ read_wait self now }
    {
        match self {
            Stage::Asking(since) => WITHIN.min(WHOLE.saturating_sub(now.saturating_sub(since))),
            _ => BETWEEN,
        }
    }

    /// How long a write that begins now may wait, in milliseconds.
    pub fn write_wait(self, now: u64) -> u64
        ensures { result ≡ write_wait self now }
    {
        match self {
            Stage::Taking(since) => WHOLE.saturating_sub(now.saturating_sub(since)),
            _ => WHOLE,
        }
    }

    /// After a read that gave bytes, which had come by this moment.
    pub fn with_read(self, came: u64) -> Stage
        ensures { result ≡ with_read self came }
    {
        match self {
            Stage::Asking(since) => Stage::Asking(since),
            _ => Stage::Asking(came),
        }
    }

    /// After a write that began at this moment, and took the whole piece or a part of it.
    pub fn with_write(self, whole: bool, began: u64) -> Stage
        ensures { result ≡ with_write self whole began }
    {
        if whole {
            return Stage::Idle;
        }
        match self {
            Stage::Taking(since) => Stage::Taking(since),
            _ => Stage::Taking(began),
        }
    }
}
