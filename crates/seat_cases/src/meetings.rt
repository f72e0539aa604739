//! What two seats, or two threads, see of one another while one of them works.

ghost use Rattle.std.specs.Prelude.{◌≡◌, None};
ghost use Rattle.roster_cell.specs.Caches.{IsCached};

use crate::steps::{publish, submit, told};
use anyhow::Result;
use outside::{Keeper, MemKeeper};
use roster_cell::{Cache, latest, refresh};
use site_history::{Act, Answer};
use std::alloc::Global;
use std::sync::{Mutex, Wait};
use std::thread::{Threads, join, yield_now};
use trust_types::Level;
use turn_book::{Seat, Site};
use wide_solver::solve_wide;
use workers::{Gate, Go, Round, RoundStep, work_round};

/// How often whoever waits for another looks, at most.
const MOST_LOOKS: u32 = 1_000_000;

/// The number of the publication in a cache, 0 of none.
pub(crate) fn number_in(cache: &Cache) -> u32 {
    match cache.publication() {
        Some(publication) => publication.number,
        None => 0,
    }
}

/// The number of the publication that a reader is shown by one load, 0 of none and where it keeps another.
fn number_shown<K: Keeper>(site: &Site<K>, reader: &mut Seat<K>, cache: &Cache) -> u32
    requires site { reader.old.site ≡ site.now.table.shared.table_id }
    requires cached { IsCached reader.old.seen cache.now }
    ensures { reader.new.site ≡ reader.old.site }
{
    match latest(site, reader, cache) {
        Ok(Some(publication)) => publication.number,
        Ok(None) | Err(_) => 0,
    }
}

/// A reader keeps the last publication; then an act is submitted and rosters are published through another seat. Gives what the reader is told, and what it
/// then keeps.
pub(crate) fn read_on<K: Keeper, R: Wait>(
    rt: &R,
    alloc: Global,
    site: &Site<K>,
    writer: &mut Seat<K>,
    reader: &mut Seat<K>,
    act: Act,
) -> Result<String>
    requires writer { writer.old.site ≡ site.now.table.shared.table_id }
    requires reader { reader.old.site ≡ site.now.table.shared.table_id }
    ensures writer { writer.new.site ≡ writer.old.site }
    ensures reader { reader.new.site ≡ reader.old.site }
{
    let mut cache = Cache::new();
    refresh(rt, site, reader, &mut cache)?;
    let answer = submit(rt, site, writer, act);
    publish(rt, alloc, site, writer, None)?;
    let mut shown = told(alloc, &answer)?;
    shown.push_str("; ")?;
    match latest(site, reader, &cache) {
        Ok(_) => shown.push_str("nothing new is out")?,
        Err(moved) => shown.push_str(&format!(in alloc; "{moved}")?)?,
    }
    refresh(rt, site, reader, &mut cache)?;
    let held = number_shown(site, reader, &cache);
    let fetched = match site.fetch(rt, reader)? {
        Some(publication) => publication.number,
        None => 0,
    };
    shown.push_str(&format!(in alloc; "; then {held} is held, and {fetched} is the last")?)?;
    Ok(shown)
}

/// How far a worker and whoever submits meanwhile have come.
#[derive(Clone, Copy, PartialEq, Eq)]
enum Stage {
    Before,
    Held,
    Answered,
}

fn set<R: Wait>(rt: &R, stage: &Mutex<Stage>, now: Stage) {
    *stage.lock(rt) = now;
}

/// Waits until the stage is this one; false where it doesn't come.
fn comes<R: Wait>(rt: &R, stage: &Mutex<Stage>, awaited: Stage) -> bool {
    for _ in 0..MOST_LOOKS {
        if *stage.lock(rt) == awaited {
            return true;
        }
        yield_now();
    }
    false
}

/// A gate that holds a round before it solves, until an act was answered.
#[derive(Drop)]
struct HoldGate<'s> {
    stage: &'s Mutex<Stage>,
    answered: bool,
}

impl Gate for HoldGate<'_> {
    ghost stops = { λ _. 0 };

    ghost asked = { λ _. None };

    fn pass<R: Wait>(&mut self, rt: &R, before: RoundStep) -> Go {
        if before == RoundStep::Solve {
            set(rt, self.stage, Stage::Held);
            self.answered = comes(rt, self.stage, Stage::Answered);
        }
        Go::On
    }
}

/// A round of a worker that is held before it solves. Says also whether an act was answered meanwhile.
fn held_round<R: Threads + Wait + Sync>(
    rt: &R,
    alloc: Global,
    site: &Site<MemKeeper>,
    mut seat: Seat<MemKeeper>,
    stage: &Mutex<Stage>,
) -> (Seat<MemKeeper>, Round, bool)
    requires { seat.site ≡ site.now.table.shared.table_id }
    ensures { result.0.site ≡ seat.site }
{
    let mut gate = HoldGate {
        stage,
        answered: false,
    };
    let round = work_round(rt, alloc, site, &mut seat, &mut gate);
    (seat, round, gate.answered)
}

/// Submits an act once a worker is held.
fn submit_meanwhile<R: Wait>(
    rt: &R,
    site: &Site<MemKeeper>,
    mut seat: Seat<MemKeeper>,
    stage: &Mutex<Stage>,
    act: Act,
) -> (Seat<MemKeeper>, Answer)
    requires { seat.site ≡ site.now.table.shared.table_id }
    ensures { result.0.site ≡ seat.site }
{
    comes(rt, stage, Stage::Held);
    let answer = submit(rt, site, &mut seat, act);
    set(rt, stage, Stage::Answered);
    (seat, answer)
}

/// The work of a worker in another thread, and an act that is submitted while it is held.
pub(crate) fn work_beside<R: Threads + Wait + Sync>(
    rt: &R,
    alloc: Global,
    site: &Site<MemKeeper>,
    worker: Seat<MemKeeper>,
    writer: Seat<MemKeeper>,
    act: Act,
) -> (Seat<MemKeeper>, Seat<MemKeeper>, Worked)
    requires worker { worker.site ≡ site.now.table.shared.table_id }
    requires writer { writer.site ≡ site.now.table.shared.table_id }
    ensures worker { result.0.site ≡ worker.site }
    ensures writer { result.1.site ≡ writer.site }
{
    let stage = Mutex::new(Stage::Before);
    let held = &stage;
    let ((worker, round, answered), (writer, answer)) = join(
        rt,
        move || -> (Seat<MemKeeper>, Round, bool)
            requires { worker.site ≡ site.now.table.shared.table_id }
            ensures { result.0.site ≡ worker.site }
        { held_round(rt, alloc, site, worker, held) },
        move || -> (Seat<MemKeeper>, Answer)
            requires { writer.site ≡ site.now.table.shared.table_id }
            ensures { result.0.site ≡ writer.site }
        { submit_meanwhile(rt, site, writer, held, act) },
    );
    let worked = Worked {
        answer,
        answered,
        round,
    };
    (worker, writer, worked)
}

/// What came of a worker's round, and of an act beside it.
#[derive(Drop)]
pub(crate) struct Worked {
    answer: Answer,
    /// Whether the act was answered while the worker was held.
    answered: bool,
    round: Round,
}

impl Worked {
    /// In words, with the revision that was published last.
    pub(crate) fn told<K: Keeper, R: Wait>(
        &self,
        rt: &R,
        alloc: Global,
        site: &Site<K>,
        seat: &mut Seat<K>,
    ) -> Result<String>
        requires { seat.old.site ≡ site.now.table.shared.table_id }
        ensures { seat.new.site ≡ seat.old.site }
    {
        let revision = match site.fetch(rt, seat)? {
            Some(publication) => publication.revision,
            None => 0,
        };
        let when = if self.answered { "while" } else { "after" };
        let answer = told(alloc, &self.answer)?;
        let round = self.round;
        Ok(format!(in alloc;
            "{answer} {when} the worker is held; {round:?} of revision {revision}"
        )?)
    }
}

/// Which of two grades' work has begun, and how many of the two saw the other's.
#[derive(Clone, Copy)]
struct Begun {
    apprentice: bool,
    master: bool,
    met: u32,
}

/// Notes that a grade's work begins; false where it is neither of the two.
fn note<R: Wait>(rt: &R, begun: &Mutex<Begun>, level: Level) -> bool {
    let mut now = begun.lock(rt);
    match level {
        Level::Apprentice => now.apprentice = true,
        Level::Master => now.master = true,
        _ => return false,
    }
    true
}

/// Waits in a grade's work until that of both has begun.
fn meet<R: Wait>(rt: &R, begun: &Mutex<Begun>, level: Level) {
    if !note(rt, begun, level) {
        return;
    }
    for _ in 0..MOST_LOOKS {
        let mut now = begun.lock(rt);
        if now.apprentice && now.master {
            now.met = now.met.wrapping_add(1);
            return;
        }
        drop(now);
        yield_now();
    }
}

/// Solves the site's graph. Says how many of its lowest and its highest grade saw that the other's work had begun, before they went on.
pub(crate) fn levels_at_once<K: Keeper, R: Threads + Wait + Sync>(
    rt: &R,
    alloc: Global,
    site: &Site<K>,
    seat: &mut Seat<K>,
) -> Result<String>
    requires { seat.old.site ≡ site.now.table.shared.table_id }
    ensures { seat.new.site ≡ seat.old.site }
{
    let graph = match site.freeze(rt, seat) {
        Ok(graph) => graph,
        Err(fault) => return Ok(format!(in alloc; "{fault}")?),
    };
    let begun = Mutex::new(Begun {
        apprentice: false,
        master: false,
        met: 0,
    });
    let candidate = solve_wide(rt, alloc, &graph, &|level| meet(rt, &begun, level))?;
    let met = begun.lock(rt).met;
    Ok(format!(in alloc;
        "{met} of two grades met, with rosters of revision {}",
        candidate.frozen().revision()
    )?)
}
