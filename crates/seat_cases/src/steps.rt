//! The steps of a scene.

ghost use Rattle.std.specs.Prelude.{◌≡◌};
ghost use Rattle.turn_book.specs.Seats.{StartsWith};

use crate::acts::act_of;
use anyhow::{Result, bail};
use outside::Keeper;
use site_history::{Act, Answer, Query, View};
use solver::solve_alone;
use std::alloc::{AllocError, Global};
use std::sync::Wait;
use trust_types::Text;
use turn_book::{Seat, Site, SplitFault};

/// An answer in words.
pub(crate) fn told(alloc: Global, answer: &Answer) -> Result<String, AllocError> {
    match answer {
        Ok(reply) => format!(in alloc; "{reply}"),
        Err(refusal) => format!(in alloc; "refused: {refusal}"),
    }
}

/// Submits an act at the moment 0.
pub(crate) fn submit<K: Keeper, R: Wait>(
    rt: &R,
    site: &Site<K>,
    seat: &mut Seat<K>,
    act: Act,
) -> Answer
    requires { seat.old.site ≡ site.now.table.shared.table_id }
    ensures site { seat.new.site ≡ seat.old.site }
    ensures later { StartsWith seat.new.seen seat.old.seen }
{
    site.submit(rt, seat, act, 0)
}

/// Has an act answered, where there is one.
fn meanwhile<K: Keeper, R: Wait>(
    rt: &R,
    alloc: Global,
    site: &Site<K>,
    seat: &mut Seat<K>,
    act: Option<Act>,
) -> Result<String, AllocError>
    requires { seat.old.site ≡ site.now.table.shared.table_id }
    ensures site { seat.new.site ≡ seat.old.site }
    ensures later { StartsWith seat.new.seen seat.old.seen }
{
    match act {
        Some(act) => {
            let answer = submit(rt, site, seat, act);
            told(alloc, &answer)
        }
        None => String::from_str(alloc, "nothing"),
    }
}

/// Freezes the site, has an act answered meanwhile, solves the graph and publishes the rosters.
pub(crate) fn publish<K: Keeper, R: Wait>(
    rt: &R,
    alloc: Global,
    site: &Site<K>,
    seat: &mut Seat<K>,
    act: Option<Act>,
) -> Result<String>
    requires { seat.old.site ≡ site.now.table.shared.table_id }
    ensures { seat.new.site ≡ seat.old.site }
{
    let graph = match site.freeze(rt, seat) {
        Ok(graph) => graph,
        Err(fault) => return Ok(format!(in alloc; "{fault}")?),
    };
    let answer = meanwhile(rt, alloc, site, seat, act)?;
    let candidate = solve_alone(alloc, &graph)?;
    match site.publish(rt, seat, candidate) {
        Ok(number) => Ok(format!(in alloc;
            "meanwhile {answer}; publication {number} of revision {}",
            graph.revision()
        )?),
        Err(fault) => Ok(format!(in alloc; "meanwhile {answer}; {fault}")?),
    }
}

/// The front of the history.
fn news<K: Keeper>(alloc: Global, site: &Site<K>, seat: &mut Seat<K>) -> Result<String, AllocError>
    requires { seat.old.site ≡ site.now.table.shared.table_id }
    ensures { seat.new.site ≡ seat.old.site }
{
    let front = site.news(seat);
    let word = front.entries * 1_048_576 + u64::from(front.publications);
    format!(in alloc;
        "{} entries, {} publications: {word}",
        front.entries, front.publications
    )
}

/// The entries of a diary, newest first.
fn diary<K: Keeper, R: Wait>(
    rt: &R,
    alloc: Global,
    site: &Site<K>,
    seat: &mut Seat<K>,
    name: &str,
) -> Result<String>
    requires { seat.old.site ≡ site.now.table.shared.table_id }
    ensures { seat.new.site ≡ seat.old.site }
{
    let query = Query::Diary(Text::of(alloc, name)?);
    let View::Diary(diary) = site.view(rt, seat, &query)? else {
        return Ok(String::from_str(alloc, "missing")?);
    };
    let mut shown = format!(in alloc; "{} entries", diary.posts.len())?;
    for post in &diary.posts {
        shown.push_str("; ")?;
        shown.push_str(post.text.as_str())?;
    }
    Ok(shown)
}

/// Splits a seat so often. Gives how often it was split, and why no oftener.
fn split<K: Keeper>(
    alloc: Global,
    site: &Site<K>,
    seat: &mut Seat<K>,
    times: u32,
) -> Result<String, AllocError>
    requires { seat.old.site ≡ site.now.table.shared.table_id }
    ensures { seat.new.site ≡ seat.old.site }
{
    for done in 0..times {
        match site.split(seat) {
            Ok(_) => {}
            Err(fault) => return format!(in alloc; "{done} times: {fault}"),
        }
    }
    format!(in alloc; "{times} times")
}

/// Takes a step through a seat. Gives its answer.
pub(crate) fn take_step<K: Keeper, R: Wait>(
    rt: &R,
    alloc: Global,
    site: &Site<K>,
    seat: &mut Seat<K>,
    step: &str,
) -> Result<String>
    requires { seat.old.site ≡ site.now.table.shared.table_id }
    ensures { seat.new.site ≡ seat.old.site }
{
    if step == "news" {
        return Ok(news(alloc, site, seat)?);
    }
    if step == "publish" {
        return publish(rt, alloc, site, seat, None);
    }
    if let Some(words) = step.strip_prefix("publish, while ") {
        return publish(rt, alloc, site, seat, Some(act_of(alloc, words)?));
    }
    if let Some(name) = step.strip_prefix("diary of ") {
        return diary(rt, alloc, site, seat, name);
    }
    if let Some(times) = step.strip_prefix("split ") {
        return Ok(split(alloc, site, seat, times.parse().unwrap_or(0))?);
    }
    let answer = submit(rt, site, seat, act_of(alloc, step)?);
    Ok(told(alloc, &answer)?)
}
