//! Rounds of work.

ghost use Rattle.std.specs.Prelude.{◌≡◌};
ghost use Rattle.outside.specs.Causes.{HasCause};
ghost use Rattle.site_history.specs.Histories.{records};
ghost use Rattle.site_history.specs.Legal.{IsLegal, IsOfPast, Suits};
ghost use Rattle.turn_book.specs.Seats.{StartsWith};
ghost use Rattle.workers.specs.Gates.{one_asked};
ghost use Rattle.workers.specs.Rounds.{Asks, IsRound, is_stopped};
ghost use Rattle.workers.specs.inner.Parts.{AsksBehind, IsAfterFreeze};
ghost use Rattle.workers.specs.declared.gate.RoundStep.TheVariants as step;

use crate::gate::{Gate, Go, RoundStep};
use frozen::Frozen;
use outside::Keeper;
use roster_form::Candidate;
use site_history::{FreezeFault, PublishFault};
use std::alloc::Global;
use std::sync::{Arc, Wait};
use std::thread::Threads;
use turn_book::{Seat, Site};
use wide_solver::solve_wide;

/// What a round came to.
#[derive(Clone, Copy, Debug, Drop, PartialEq, Eq)]
pub enum Round {
    /// It made the publication of this number.
    Published(u32),
    /// While it worked, rosters of this revision were published, which isn't below its own.
    Stale(u32),
    /// The last publication is of the present revision, which is this one.
    Same(u32),
    /// The history has as many places as it may have.
    HistoryFull,
    /// There are as many publications as there may be.
    PublicationsFull,
    /// The gate stopped it.
    Stopped,
    /// Memory ran out.
    NoMemory,
}

/// Passes the gate, and publishes rosters.
#[tactic(auto, using(crate::proofs::Rounding::looks_self, crate::proofs::Rounding::published_once))]
fn publish<K: Keeper, G: Gate, R: Wait>(
    rt: &R,
    site: &Site<K>,
    seat: &mut Seat<K>,
    gate: &mut G,
    candidate: Candidate,
) -> Round
    requires site { seat.old.site ≡ site.now.table.shared.table_id }
    requires legal { IsLegal seat.old.seen }
    requires suits { Suits seat.old.seen.opening (records seat.old.seen) candidate }
    ensures came { IsAfterFreeze seat.old candidate.graph.number seat.new result }
    ensures gate { HasCause (G.stops gate.old) (G.stops gate.new) (is_stopped result) }
    ensures asked { G.asked gate.new ≡ one_asked (G.asked gate.old) step.Publish }
{
    if let Go::Stop = gate.pass(rt, RoundStep::Publish) {
        return Round::Stopped;
    }
    match site.publish(rt, seat, candidate) {
        Ok(number) => Round::Published(number),
        Err(PublishFault::Stale(last)) => Round::Stale(last),
        Err(PublishFault::PublicationsFull) => Round::PublicationsFull,
        Err(PublishFault::HistoryFull) => Round::HistoryFull,
        Err(PublishFault::NoMemory) => Round::NoMemory,
    }
}

/// Passes the gate, solves a graph that was frozen, and publishes its rosters.
#[tactic(auto, using(crate::proofs::Rounding::looks_self))]
fn solve_and_publish<K: Keeper, G: Gate, R: Wait + Threads + Sync>(
    rt: &R,
    alloc: Global,
    site: &Site<K>,
    seat: &mut Seat<K>,
    gate: &mut G,
    graph: &Arc<Frozen>,
) -> Round
    requires site { seat.old.site ≡ site.now.table.shared.table_id }
    requires legal { IsLegal seat.old.seen }
    requires past { IsOfPast seat.old.seen.opening (records seat.old.seen) graph.now.value }
    ensures came { IsAfterFreeze seat.old graph.now.value.number seat.new result }
    ensures gate { HasCause (G.stops gate.old) (G.stops gate.new) (is_stopped result) }
    ensures asked { AsksBehind (G.asked gate.old) (G.asked gate.new) result }
{
    if let Go::Stop = gate.pass(rt, RoundStep::Solve) {
        return Round::Stopped;
    }
    match solve_wide(rt, alloc, graph, &|_| {}) {
        Ok(candidate) => publish(rt, site, seat, gate, candidate),
        Err(_) => Round::NoMemory,
    }
}

/// Passes the gate, freezes the site, and goes on with its graph.
#[tactic(auto, using(crate::proofs::Rounding::looks_self, crate::proofs::Rounding::frozen_past, crate::proofs::Asking::asks_once))]
fn freeze_and_solve<K: Keeper, G: Gate, R: Wait + Threads + Sync>(
    rt: &R,
    alloc: Global,
    site: &Site<K>,
    seat: &mut Seat<K>,
    gate: &mut G,
) -> Round
    requires site { seat.old.site ≡ site.now.table.shared.table_id }
    requires legal { IsLegal seat.old.seen }
    ensures came { IsRound seat.old seat.new result }
    ensures gate { HasCause (G.stops gate.old) (G.stops gate.new) (is_stopped result) }
    ensures asked { Asks (G.asked gate.old) (G.asked gate.new) result }
{
    if let Go::Stop = gate.pass(rt, RoundStep::Freeze) {
        return Round::Stopped;
    }
    match site.freeze(rt, seat) {
        Ok(graph) => solve_and_publish(rt, alloc, site, seat, gate, &graph),
        Err(FreezeFault::Same(revision)) => Round::Same(revision),
        Err(FreezeFault::HistoryFull) => Round::HistoryFull,
        Err(FreezeFault::NoMemory) => Round::NoMemory,
    }
}

/// One round of work on a site, through a seat: freezes the site, solves the graph at all grades and publishes the rosters, and asks the gate before each of the
/// three. It waits for the turn to freeze and for the turn to publish, and has none while it solves: certificates are then accepted as ever, and its rosters are
/// those of the revision that it froze. The gate may wait too.
///
/// What it answers has its cause in this round. Where it made no publication, it has added nothing to the history, or only that it froze the site.
/// [`Round::Stopped`] comes exactly where the gate counted one stop more.
pub fn work_round<K: Keeper, G: Gate, R: Wait + Threads + Sync>(
    rt: &R,
    alloc: Global,
    site: &Site<K>,
    seat: &mut Seat<K>,
    gate: &mut G,
) -> Round
    requires { seat.old.site ≡ site.now.table.shared.table_id }
    ensures came { IsRound seat.old seat.new result }
    ensures gate { HasCause (G.stops gate.old) (G.stops gate.new) (is_stopped result) }
    ensures asked { Asks (G.asked gate.old) (G.asked gate.new) result }
    ensures site { seat.new.site ≡ seat.old.site }
    ensures begins { StartsWith seat.new.seen seat.old.seen }
{
    // Its contract says that what the seat has seen is legal.
    let _number = seat.number();
    freeze_and_solve(rt, alloc, site, seat, gate)
}
