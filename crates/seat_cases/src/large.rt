//! A site that grows large: looks, solves and rounds there, many of each.

ghost use Rattle.std.specs.Prelude.{◌≡◌};
ghost use Rattle.roster_cell.specs.Caches.{IsCached};

use crate::acts::act_of;
use crate::meetings::number_in;
use crate::steps::submit;
use anyhow::{Result, bail};
use frozen::Frozen;
use outside::Keeper;
use roster_cell::{Cache, latest, refresh};
use site_history::Act;
use solver::solve_alone;
use std::alloc::Global;
use std::sync::{Arc, Wait};
use std::thread::Threads;
use turn_book::{Seat, Site};
use wide_solver::solve_wide;

/// The levels of certificates at random.
const LEVELS: [&str; 3] = ["Apprentice", "Journeyer", "Master"];

/// What is drawn of certificates among so many accounts, by Knuth's multiplier.
#[derive(Drop)]
pub(crate) struct Draws {
    accounts: u64,
    number: u64,
}

impl Draws {
    /// Draws that begin with this number.
    pub(crate) fn of(number: u32, accounts: u32) -> Draws {
        Draws {
            accounts: u64::from(accounts.max(1)),
            number: u64::from(number),
        }
    }

    fn drawn(&mut self) -> u64 {
        self.number = self
            .number
            .wrapping_mul(6_364_136_223_846_793_005)
            .wrapping_add(1_442_695_040_888_963_407);
        self.number >> 33
    }

    /// One of the accounts `n0`, `n1`, .. certifies another, or itself.
    pub(crate) fn certificate(&mut self, alloc: Global) -> Result<Act> {
        let giver = self.drawn().checked_rem(self.accounts).unwrap_or(0);
        let taker = self.drawn().checked_rem(self.accounts).unwrap_or(0);
        let level = LEVELS[(self.drawn() % 3) as usize];
        let words = format!(in alloc; "n{giver} certifies n{taker} {level}")?;
        act_of(alloc, &words)
    }
}

/// So many accounts join, `n0`, `n1` and so on, and so many certificates are given among them. Gives how many of all these were replied to.
fn grow<K: Keeper, R: Wait>(
    rt: &R,
    alloc: Global,
    site: &Site<K>,
    seat: &mut Seat<K>,
    accounts: u32,
    certs: u32,
) -> Result<u32>
    requires { seat.old.site ≡ site.now.table.shared.table_id }
    ensures { seat.new.site ≡ seat.old.site }
{
    let mut replies: u32 = 0;
    for number in 0..accounts {
        let act = act_of(alloc, &format!(in alloc; "n{number} joins")?)?;
        if submit(rt, site, seat, act).is_ok() {
            replies = replies.saturating_add(1);
        }
    }
    let mut draws = Draws::of(1, accounts);
    for _cert in 0..certs {
        let act = draws.certificate(alloc)?;
        if submit(rt, site, seat, act).is_ok() {
            replies = replies.saturating_add(1);
        }
    }
    Ok(replies)
}

/// Looks so often whether a cache holds the last publication. Gives how often it did.
fn look_often<K: Keeper>(site: &Site<K>, seat: &mut Seat<K>, cache: &Cache, count: u32) -> u32
    requires site { seat.old.site ≡ site.now.table.shared.table_id }
    requires cached { IsCached seat.old.seen cache.now }
    ensures { seat.new.site ≡ seat.old.site }
{
    let mut current: u32 = 0;
    for _look in 0..count {
        if latest(site, seat, cache).is_ok() {
            current = current.saturating_add(1);
        }
    }
    current
}

/// Keeps the last publication, and looks so often whether it still is the last.
fn look<K: Keeper, R: Wait>(
    rt: &R,
    alloc: Global,
    site: &Site<K>,
    seat: &mut Seat<K>,
    count: u32,
) -> Result<String>
    requires { seat.old.site ≡ site.now.table.shared.table_id }
    ensures { seat.new.site ≡ seat.old.site }
{
    let mut cache = Cache::new();
    refresh(rt, site, seat, &mut cache)?;
    let current = look_often(site, seat, &cache, count);
    let held = number_in(&cache);
    Ok(format!(in alloc; "{current} looks at publication {held}")?)
}

/// Solves a graph so often, one grade after another. Gives the revision of the last rosters, 0 of none.
fn solve_often(alloc: Global, graph: &Arc<Frozen>, count: u32) -> Result<u32> {
    let mut revision = 0;
    for _solve in 0..count {
        revision = solve_alone(alloc, graph)?.frozen().revision();
    }
    Ok(revision)
}

/// The same with all grades at once.
fn solve_wide_often<R: Threads + Sync>(
    rt: &R,
    alloc: Global,
    graph: &Arc<Frozen>,
    count: u32,
) -> Result<u32> {
    let mut revision = 0;
    for _solve in 0..count {
        revision = solve_wide(rt, alloc, graph, &|_level| {})?
            .frozen()
            .revision();
    }
    Ok(revision)
}

/// Takes a step at a large site. Gives its answer.
pub(crate) fn take_large<K: Keeper, R: Threads + Wait + Sync>(
    rt: &R,
    alloc: Global,
    site: &Site<K>,
    seat: &mut Seat<K>,
    step: &str,
) -> Result<String>
    requires { seat.old.site ≡ site.now.table.shared.table_id }
    ensures { seat.new.site ≡ seat.old.site }
{
    let Some((verb, words)) = step.split_once(' ') else {
        bail!("such a step has a number")
    };
    if verb == "grow" {
        let Some((accounts, certs)) = words.split_once(' ') else {
            bail!("a site grows by accounts and by certificates")
        };
        let replies = grow(rt, alloc, site, seat, accounts.parse()?, certs.parse()?)?;
        return Ok(format!(in alloc; "{replies} replies")?);
    }
    let count = words.parse()?;
    if verb == "look" {
        return look(rt, alloc, site, seat, count);
    }
    let graph = match site.freeze(rt, seat) {
        Ok(graph) => graph,
        Err(fault) => return Ok(format!(in alloc; "{fault}")?),
    };
    let revision = match verb {
        "solve" => solve_often(alloc, &graph, count)?,
        "solve-at-once" => solve_wide_often(rt, alloc, &graph, count)?,
        _ => bail!("such a step is one of the header's"),
    };
    Ok(format!(in alloc; "rosters of revision {revision}")?)
}
