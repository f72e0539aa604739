//! What a server is asked to do.

ghost use Rattle.std.specs.Prelude.{◌≤◌};

use trust_types::{Caps, Text};

/// The most links that are served beside each other.
pub const MOST_LINKS: u32 = 48;

/// The most workers.
pub const MOST_WORKERS: u32 = 8;

/// What a server is asked to do. Its type keeps the ranges of `links` and `workers`.
#[derive(Drop)]
pub struct ServePlan {
    /// The address at which it listens. It isn't empty.
    pub listen: Text,
    /// The file in which the rows of the site are kept, which isn't empty; `None`: they are kept in memory.
    pub db: Option<Text>,
    /// The table with which the site is opened.
    pub caps: Caps,
    /// How many links are served beside each other, 1 to [`MOST_LINKS`].
    pub links: u32,
    /// How many workers there are, 1 to [`MOST_WORKERS`].
    pub workers: u32,
    /// How many links are accepted; 0 means without end.
    pub accept: u32,
    ghost some_links: { 1 ≤ links },
    ghost few_links: { links ≤ 48 },
    ghost some_workers: { 1 ≤ workers },
    ghost few_workers: { workers ≤ 8 },
}
