//! Numbers in the values of options.

ghost use Rattle.std.specs.Prelude.{◌≡◌, ◌≤◌, IfSome};
ghost use Rattle.clap.specs.Words.{found_of, one_of, rows_of};
ghost use Rattle.serve_words.specs.Plans.{number_within};

use clap::ArgMatches;

/// The number of an option, where it lies within these bounds.
pub fn number_within(matches: &ArgMatches<'_>, id: &str, least: u32, most: u32) -> Option<u32>
    ensures number { result ≡ number_within least most (one_of id.now (rows_of (found_of matches.now))) }
    ensures within { IfSome result (λ number. (least ≤ number) × (number ≤ most)) }
{
    let number = matches.get_one::<u32>(id)?;
    if least <= number && number <= most {
        Some(number)
    } else {
        None
    }
}
