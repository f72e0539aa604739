//! The events of a script: acts, freezes, solves and publications, each with its output line.

ghost use Rattle.std.specs.Prelude.{◌≡◌, ◌<◌, ◌≤◌, ◌+◌, ◌++◌, IfOk, IfErr, OnOk, OnErr, codes, decimal, vec_len, vec_capacity};
ghost use Rattle.trust_types.specs.Kept.{IsMoment, revision};
ghost use Rattle.site_history.specs.Answers.{FreezeRefuses};
ghost use Rattle.site_history.specs.Histories.{with_entry, records, Freeze};
ghost use Rattle.site_history.specs.Legal.{IsFrozenOf, Suits};
ghost use Rattle.site_core.specs.Books.{IsSound};
ghost use Rattle.script.specs.Runs.{PlaysAct, PlaysFreeze, PlaysSolve, PlaysPublish, IsPublished};
ghost use Rattle.script.specs.inner.Lines.{AddsLine};
ghost use Rattle.script.specs.inner.Ready.{AreReady, Grows};

use crate::actors::Actors;
use crate::answers::reply_line;
use crate::outputs::{Line, numbered, put_line, put_number, text};
use frozen::Frozen;
use outside::Keeper;
use roster_form::Candidate;
use script_text::ActorNo;
use site_core::Book;
use site_history::{Act, FreezeFault, PublishFault, Refusal};
use std::alloc::Global;
use std::marker::Brand;
use std::sync::Arc;
use std::sync::ledger::{Blank, Ledger};
use trust_types::{NoMemory, Steps};

/// An act of nobody's own, at a moment.
pub(crate) fn play_act<K: Keeper>(
    book: &mut Book<K>,
    act: Act,
    moment: u64,
    out: &mut Vec<u8>,
) -> Result<(), NoMemory>
    requires moment { IsMoment moment }
    requires room { vec_len out.old + 97 ≤ vec_capacity out.old }
    ensures played { OnOk result (AddsLine (PlaysAct book.old.history act moment book.new.history) out.old.items out.new.items) }
    ensures grows { Grows book.old.history book.new.history }
    ensures same { OnErr result ((book.new.history ≡ book.old.history) × (out.new.items ≡ out.old.items)) }
    ensures found { book.new.found ≡ book.old.found }
{
    match book.submit(0, act, moment) {
        Ok(reply) => {
            put_line(out, &reply_line(reply));
            Ok(())
        }
        Err(Refusal::HistoryFull) => {
            put_line(out, &text("history full"));
            Ok(())
        }
        Err(Refusal::TextFull(total)) => {
            put_line(out, &numbered("text full ", total));
            Ok(())
        }
        Err(Refusal::NoMemory) => Err(NoMemory),
    }
}

/// The graph of the site as it is now, for an actor.
fn freeze<K: Keeper>(book: &mut Book<K>, actor: ActorNo) -> Result<Arc<Frozen>, FreezeFault>
    ensures graph { IfOk result (λ f. IsFrozenOf book.old.history.opening (records book.old.history) f.value) }
    ensures entry { OnOk result (book.new.history ≡ with_entry book.old.history (Freeze actor (revision (records book.old.history)))) }
    ensures refused { IfErr result (λ fault. FreezeRefuses book.old.history fault) }
    ensures same { OnErr result (book.new.history ≡ book.old.history) }
    ensures found { book.new.found ≡ book.old.found }
    ensures sound { IsSound K.rows K.faults book.new }
{
    freeze_counted::<K, Brand>(book, u64::from(actor.number()), Blank::new(1))
}

fn freeze_counted<K: Keeper, L: Ledger>(
    book: &mut Book<K>,
    caller: u64,
    blank: Blank,
) -> Result<Arc<Frozen>, FreezeFault>
    requires name { blank.name ≡ L.name }
    requires parts { blank.parts ≡ L.parts }
    requires some { 0 < blank.parts }
    ensures graph { IfOk result (λ f. IsFrozenOf book.old.history.opening (records book.old.history) f.value) }
    ensures entry { OnOk result (book.new.history ≡ with_entry book.old.history (Freeze caller (revision (records book.old.history)))) }
    ensures refused { IfErr result (λ fault. FreezeRefuses book.old.history fault) }
    ensures same { OnErr result (book.new.history ≡ book.old.history) }
    ensures found { book.new.found ≡ book.old.found }
    ensures sound { IsSound K.rows K.faults book.new }
{
    let mut steps = Steps::<L>::new(blank);
    book.freeze(caller, &mut steps)
}

/// An actor freezes the site, and keeps the graph.
pub(crate) fn play_freeze<K: Keeper>(
    book: &mut Book<K>,
    actors: &mut Actors,
    actor: ActorNo,
    out: &mut Vec<u8>,
) -> Result<(), NoMemory>
    requires ready { AreReady book.old.history actors.old }
    requires room { vec_len out.old + 97 ≤ vec_capacity out.old }
    ensures played { OnOk result (AddsLine (PlaysFreeze book.old.history actors.old actor book.new.history actors.new) out.old.items out.new.items) }
    ensures ready { OnOk result (AreReady book.new.history actors.new) }
    ensures same { OnErr result ((book.new.history ≡ book.old.history) × (out.new.items ≡ out.old.items)) }
    ensures found { book.new.found ≡ book.old.found }
{
    match freeze(book, actor) {
        Ok(graph) => {
            put_line(out, &numbered("frozen ", u64::from(graph.revision())));
            actors.keep(actor, graph);
            Ok(())
        }
        Err(FreezeFault::Same(revision)) => {
            put_line(out, &numbered("same ", u64::from(revision)));
            Ok(())
        }
        Err(FreezeFault::HistoryFull) => {
            put_line(out, &text("history full"));
            Ok(())
        }
        Err(FreezeFault::NoMemory) => Err(NoMemory),
    }
}

/// An actor finds the rosters of the graph that it keeps.
pub(crate) fn play_solve(
    alloc: Global,
    actors: &mut Actors,
    actor: ActorNo,
    out: &mut Vec<u8>,
) -> Result<(), NoMemory>
    requires { vec_len out.old + 97 ≤ vec_capacity out.old }
    ensures played { OnOk result (AddsLine (PlaysSolve actors.old actor actors.new) out.old.items out.new.items) }
    ensures same { OnErr result (out.new.items ≡ out.old.items) }
{
    match actors.solve(alloc, actor)? {
        Some(revision) => put_line(out, &numbered("solved ", u64::from(revision))),
        None => put_line(out, &text("nothing")),
    }
    Ok(())
}

/// An actor publishes the candidate that it has.
pub(crate) fn play_publish<K: Keeper>(
    book: &mut Book<K>,
    actors: &mut Actors,
    actor: ActorNo,
    out: &mut Vec<u8>,
) -> Result<(), NoMemory>
    requires ready { AreReady book.old.history actors.old }
    requires room { vec_len out.old + 97 ≤ vec_capacity out.old }
    ensures played { OnOk result (AddsLine (PlaysPublish book.old.history actors.old actor book.new.history actors.new) out.old.items out.new.items) }
    ensures ready { OnOk result (AreReady book.new.history actors.new) }
    ensures same { OnErr result ((book.new.history ≡ book.old.history) × (out.new.items ≡ out.old.items)) }
    ensures found { book.new.found ≡ book.old.found }
{
    match actors.take(actor) {
        Some(candidate) => publish(book, actor, candidate, out),
        None => {
            put_line(out, &text("nothing"));
            Ok(())
        }
    }
}

/// Publishes a candidate for an actor.
fn publish<K: Keeper>(
    book: &mut Book<K>,
    actor: ActorNo,
    candidate: Candidate,
    out: &mut Vec<u8>,
) -> Result<(), NoMemory>
    requires suits { Suits book.old.history.opening (records book.old.history) candidate }
    requires room { vec_len out.old + 97 ≤ vec_capacity out.old }
    ensures played { OnOk result (AddsLine (IsPublished book.old.history actor candidate book.new.history) out.old.items out.new.items) }
    ensures grows { Grows book.old.history book.new.history }
    ensures same { OnErr result ((book.new.history ≡ book.old.history) × (out.new.items ≡ out.old.items)) }
    ensures found { book.new.found ≡ book.old.found }
{
    let revision = candidate.frozen().revision();
    match book.publish(u64::from(actor.number()), candidate) {
        Ok(number) => {
            put_line(out, &published_line(number, revision));
            Ok(())
        }
        Err(PublishFault::Stale(last)) => {
            put_line(out, &numbered("stale ", u64::from(last)));
            Ok(())
        }
        Err(PublishFault::PublicationsFull) => {
            put_line(out, &text("publications full"));
            Ok(())
        }
        Err(PublishFault::HistoryFull) => {
            put_line(out, &text("history full"));
            Ok(())
        }
        Err(PublishFault::NoMemory) => Err(NoMemory),
    }
}

fn published_line(number: u32, revision: u32) -> Line
    ensures { result.bytes ≡ codes "published " ++ decimal number ++ codes " revision " ++ decimal revision }
{
    let mut line = Line::new();
    line.push_str("published ");
    put_number(&mut line, u64::from(number));
    line.push_str(" revision ");
    put_number(&mut line, u64::from(revision));
    line
}
