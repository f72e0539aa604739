//! How long certificates wait while a worker's rounds follow each other.

ghost use Rattle.std.specs.Prelude.{◌≡◌, None};
ghost use Rattle.std.specs.Thread.{IsSync};

use crate::large::Draws;
use crate::steps::submit;
use anyhow::Result;
use outside::{Keeper, MemKeeper};
use std::alloc::{AllocError, Global};
use std::sync::{Mutex, Wait};
use std::thread::{Threads, join, sleep};
use std::time::{Clock, Duration, Instant};
use turn_book::{Seat, Site};
use workers::{Gate, Go, Round, RoundStep, work_round};

/// Microseconds between two certificates, so that many rounds pass meanwhile.
const PAUSE: u64 = 100;

/// A gate that never stops a round, and notes how long the slowest freeze took, the wait for the turn included.
#[derive(Drop)]
struct FreezeWatch<'c, C: Clock> {
    clock: &'c C,
    began: Option<Instant>,
    slowest: Duration,
}

impl<C: Clock> FreezeWatch<'_, C> {
    fn note(&mut self) {
        let Some(began) = self.began else {
            return;
        };
        if let Ok(took) = began.elapsed(self.clock) {
            self.slowest = self.slowest.max(took);
        }
    }
}

impl<C: Clock> Gate for FreezeWatch<'_, C> {
    ghost stops = { λ _. 0 };

    ghost asked = { λ _. None };

    fn pass<R: Wait>(&mut self, _rt: &R, before: RoundStep) -> Go {
        match before {
            RoundStep::Freeze => self.began = Instant::now(self.clock).ok(),
            RoundStep::Solve => self.note(),
            RoundStep::Publish => {}
        }
        Go::On
    }
}

/// A worker's rounds, until they are to end. Gives how many published, and the slowest freeze.
fn work_on<R: Threads + Wait + Sync + Clock>(
    rt: &R,
    alloc: Global,
    site: &Site<MemKeeper>,
    mut seat: Seat<MemKeeper>,
    is_over: &Mutex<bool>,
) -> (Seat<MemKeeper>, u32, Duration)
    requires { seat.site ≡ site.now.table.shared.table_id }
    ensures { result.0.site ≡ seat.site }
{
    let mut gate = FreezeWatch {
        clock: rt,
        began: None,
        slowest: Duration::from_secs(0),
    };
    let mut published: u32 = 0;
    for _ in rt.forever() {
        if let Round::Published(_) = work_round(rt, alloc, site, &mut seat, &mut gate) {
            published = published.saturating_add(1);
        }
        if *is_over.lock(rt) {
            break;
        }
    }
    (seat, published, gate.slowest)
}

/// So many certificates, with a pause before each. Gives how long each took, least first.
fn certify<K: Keeper, R: Wait + Clock>(
    rt: &R,
    alloc: Global,
    site: &Site<K>,
    seat: &mut Seat<K>,
    mut draws: Draws,
    count: u32,
) -> Result<Vec<Duration>>
    requires { seat.old.site ≡ site.now.table.shared.table_id }
    ensures { seat.new.site ≡ seat.old.site }
{
    let mut times = Vec::new(alloc);
    for _cert in 0..count {
        let act = draws.certificate(alloc)?;
        sleep(rt, Duration::from_micros(PAUSE));
        let began = Instant::now(rt)?;
        if submit(rt, site, seat, act).is_ok() {
            times.push(began.elapsed(rt)?)?;
        }
    }
    times.sort_unstable();
    Ok(times)
}

/// The same, and then it says that it is over.
fn certify_and_end<R: Wait + Clock>(
    rt: &R,
    alloc: Global,
    site: &Site<MemKeeper>,
    mut seat: Seat<MemKeeper>,
    draws: Draws,
    count: u32,
    is_over: &Mutex<bool>,
) -> (Seat<MemKeeper>, Option<Vec<Duration>>)
    requires { seat.site ≡ site.now.table.shared.table_id }
    ensures { result.0.site ≡ seat.site }
{
    let times = certify(rt, alloc, site, &mut seat, draws, count).ok();
    *is_over.lock(rt) = true;
    (seat, times)
}

/// What was measured.
#[derive(Drop)]
pub(crate) struct Measured {
    /// What each certificate took that was replied to, least first.
    certificates: Option<Vec<Duration>>,
    published: u32,
    slowest_freeze: Duration,
}

impl Measured {
    /// In words, with times in nanoseconds.
    pub(crate) fn told(&self, alloc: Global) -> Result<String, AllocError> {
        let Some(times) = &self.certificates else {
            return String::from_str(alloc, "a certificate failed");
        };
        let middle = times.get(times.len() / 2).map_or(0, |time| time.as_nanos());
        let slowest = times.last().map_or(0, |time| time.as_nanos());
        format!(in alloc;
            "{} replies, the middle one after {middle}, the slowest after {slowest}; {} publications, the slowest freeze {}",
            times.len(),
            self.published,
            self.slowest_freeze.as_nanos()
        )
    }
}

/// A worker's rounds in another thread, while certificates are submitted one after another.
pub(crate) fn rounds_beside<R: Threads + Wait + Sync + Clock>(
    rt: &R,
    alloc: Global,
    site: &Site<MemKeeper>,
    worker: Seat<MemKeeper>,
    writer: Seat<MemKeeper>,
    draws: Draws,
    count: u32,
) -> (Seat<MemKeeper>, Seat<MemKeeper>, Measured)
    requires worker { worker.site ≡ site.now.table.shared.table_id }
    requires writer { writer.site ≡ site.now.table.shared.table_id }
    ensures worker { result.0.site ≡ worker.site }
    ensures writer { result.1.site ≡ writer.site }
{
    let is_over = Mutex::new(false);
    let shared = &is_over;
    let ((worker, published, slowest_freeze), (writer, certificates)) = join(
        rt,
        move || -> (Seat<MemKeeper>, u32, Duration)
            requires { worker.site ≡ site.now.table.shared.table_id }
            ensures { result.0.site ≡ worker.site }
        { work_on(rt, alloc, site, worker, shared) },
        move || -> (Seat<MemKeeper>, Option<Vec<Duration>>)
            requires { writer.site ≡ site.now.table.shared.table_id }
            ensures { result.0.site ≡ writer.site }
        { certify_and_end(rt, alloc, site, writer, draws, count, shared) },
    );
    let measured = Measured {
        certificates,
        published,
        slowest_freeze,
    };
    (worker, writer, measured)
}
