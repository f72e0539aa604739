//! What the options are given, as the words are parsed.

ghost use Rattle.std.specs.Prelude.{◌≡◌, ◌≢◌, [], IfOk, MatchOption, map};
ghost use Rattle.clap.specs.Words.{found_of, rows_of};
ghost use Rattle.serve_words.specs.Options.{faults, rows};
ghost use Rattle.serve_words.specs.inner.Values.{AreValuesIn};

use crate::command::serve_command;
use crate::numbers::number_within;
use crate::plan::{MOST_LINKS, MOST_WORKERS};
use crate::values::Values;
use clap::ArgMatches;
use clap::error::ErrorKind;
use std::alloc::Global;
use trust_types::NoMemory;

impl<'a> Values<'a> {
    /// The values that were found in the words.
    fn found(matches: &ArgMatches<'a>) -> Values<'a>
        ensures { AreValuesIn (rows_of (found_of matches.now)) result }
    {
        Values {
            listen: matches.get_str("listen"),
            db: matches.get_str("db"),
            caps: matches.get_str("caps"),
            links: number_within(matches, "links", 1, MOST_LINKS),
            workers: number_within(matches, "workers", 1, MOST_WORKERS),
            accept: number_within(matches, "accept", 0, u32::MAX),
        }
    }

    /// The values that the words behind `serve` give; `None` exactly where they don't parse.
    ///
    /// # Errors
    /// [`NoMemory`] where there isn't enough for the parse.
    pub fn of_words(alloc: Global, words: &'a [&'a str]) -> Result<Option<Values<'a>>, NoMemory>
        ensures { IfOk result (λ found. MatchOption found (faults (map (λ word. word.now) words.now) ≢ []) (λ values. (faults (map (λ word. word.now) words.now) ≡ []) × AreValuesIn (rows (map (λ word. word.now) words.now)) values)) }
    {
        let command = serve_command(alloc)?;
        match command.try_get_matches_from(words) {
            Ok(matches) => Ok(Some(Values::found(&matches))),
            Err(error) if error.kind() == ErrorKind::OutOfMemory => Err(NoMemory),
            Err(_) => Ok(None),
        }
    }
}
