//! The plan that words give.

ghost use Rattle.std.specs.Prelude.{◌≡◌, IfOk, map, option_map, MatchOption};
ghost use Rattle.serve_words.specs.Plans.{plan_of, plan_behind, said, filled, filled_or_none};
ghost use Rattle.serve_words.specs.inner.Values.{planned};

use crate::plan::ServePlan;
use crate::tables::table_of;
use crate::values::Values;
use std::alloc::Global;
use trust_types::{NoMemory, Text};

impl ServePlan {
    /// The plan that the words of a command line give: `serve`, and behind it, in any order, `--listen ADDR` and, where they are given, `--db FILE`,
    /// `--caps LIST`, `--links N`, `--workers N` and `--accept N`. `None` for all other words. ADDR and FILE are any texts that aren't empty; LIST is the
    /// entries of a table, parted by single commas; the numbers are within their ranges. What isn't given is in memory, the standard table, 8 links, 1 worker,
    /// and links without end.
    ///
    /// # Errors
    /// [`NoMemory`] where there isn't enough for the parse or the plan.
    pub fn of_words(alloc: Global, words: &[&str]) -> Result<Option<ServePlan>, NoMemory>
        ensures { IfOk result (λ plan. option_map said plan ≡ plan_of (map (λ word. word.now) words.now)) }
    {
        match words.split_first() {
            Some((command, options)) if *command == "serve" => {
                ServePlan::of_options(alloc, options)
            }
            _ => Ok(None),
        }
    }

    /// The plan that the words behind `serve` give.
    fn of_options(alloc: Global, words: &[&str]) -> Result<Option<ServePlan>, NoMemory>
        ensures { IfOk result (λ plan. option_map said plan ≡ plan_behind (map (λ word. word.now) words.now)) }
    {
        match Values::of_words(alloc, words)? {
            Some(values) => ServePlan::of_values(alloc, &values),
            None => Ok(None),
        }
    }

    /// The plan that the options' values are; its texts are copies.
    fn of_values(alloc: Global, values: &Values<'_>) -> Result<Option<ServePlan>, NoMemory>
        ensures { IfOk result (λ plan. option_map said plan ≡ planned values.now) }
    {
        let Some(listen) = filled(values.listen) else {
            return Ok(None);
        };
        let Some(db) = filled_or_none(values.db) else {
            return Ok(None);
        };
        let Some(caps) = table_of(alloc, values.caps)? else {
            return Ok(None);
        };
        let (Some(links), Some(workers), Some(accept)) = (
            values.links,
            values.workers,
            values.accept,
        ) else {
            return Ok(None);
        };
        Ok(Some(ServePlan {
            listen: Text::of(alloc, listen)?,
            db: copied(alloc, db)?,
            caps,
            links,
            workers,
            accept,
        }))
    }
}

/// A text that isn't empty.
fn filled<'w>(text: Option<&'w str>) -> Option<&'w str>
    ensures { option_map (λ text. text.now) result ≡ filled (option_map (λ text. text.now) text.entry) }
{
    match text {
        Some(text) if !text.is_empty() => Some(text),
        _ => None,
    }
}

/// One that isn't empty where there is one.
fn filled_or_none<'w>(text: Option<&'w str>) -> Option<Option<&'w str>>
    ensures { option_map (option_map (λ text. text.now)) result ≡ filled_or_none (option_map (λ text. text.now) text.entry) }
{
    match text {
        Some(text) if text.is_empty() => None,
        _ => Some(text),
    }
}

/// A text of its own, where there is one.
fn copied(alloc: Global, text: Option<&str>) -> Result<Option<Text>, NoMemory>
    ensures { IfOk result (λ copy. copy ≡ option_map (λ text. text.now) text.entry) }
{
    match text {
        Some(text) => Ok(Some(Text::of(alloc, text)?)),
        None => Ok(None),
    }
}
