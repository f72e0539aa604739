//! A run of the program.

ghost use Rattle.std.specs.Prelude.{◌≡◌, map, List};
ghost use Rattle.commands.specs.declared.outcome.Outcome.{Outcome};
ghost use Rattle.commands.specs.Commands.{command_of};
ghost use Rattle.commands.specs.Runs.{Input, Output, ComesTo, IsTold};
ghost use Rattle.site_runs.specs.Runs.{ComesToScript, RunsApart, RunsTo};
ghost use Rattle.site_runs.specs.Words.{drill_of};

use crate::answers::answer;
use crate::drills::drill;
use crate::ran::{Kept, Ran};
use crate::words::{drill_of, is_script};
use commands::{MOST_SITE_BYTES, Outcome, Status};
use outside::{InputFault, Keeper, Sink, Source, read_to_end, write_all};
use std::alloc::Global;

/// Does what the words ask, over the source, the sink and the keeper of a site's rows, and answers how it ended and what became of the keeper. It reads its
/// input to the end before it opens a site, and plays a script to its end before it writes; for a drill it reads nothing. It always returns.
pub fn run<S: Source, W: Sink, K: Keeper>(
    alloc: Global,
    words: &[&str],
    source: &mut S,
    sink: &mut W,
    keeper: K,
) -> Ran<K>
    ensures { let before : Input = record { left = S.left source.old; faults = S.faults source.old; ends = S.ends source.old } in
        let now : Input = record { left = S.left source.new; faults = S.faults source.new; ends = S.ends source.new } in
        let held : Output = record { held = W.held sink.old; faults = W.faults sink.old } in
        let holds : Output = record { held = W.held sink.new; faults = W.faults sink.new } in
        RunsTo K.rows K.faults (map (λ word. word.now) words.now) before now held holds keeper result.kept result.status }
{
    if is_script(words) {
        play(alloc, source, sink, keeper)
    } else {
        Ran {
            status: run_apart(alloc, words, source, sink),
            kept: Kept::Keeper(keeper),
        }
    }
}

/// Does what the words ask, where that is no script.
fn run_apart<S: Source, W: Sink>(
    alloc: Global,
    words: &[&str],
    source: &mut S,
    sink: &mut W,
) -> Status
    ensures { let before : Input = record { left = S.left source.old; faults = S.faults source.old; ends = S.ends source.old } in
        let now : Input = record { left = S.left source.new; faults = S.faults source.new; ends = S.ends source.new } in
        let held : Output = record { held = W.held sink.old; faults = W.faults sink.old } in
        let holds : Output = record { held = W.held sink.new; faults = W.faults sink.new } in
        (outcome : Outcome) × RunsApart (drill_of (map (λ word. word.now) words.now)) (map (λ word. word.now) words.now) before now outcome × IsTold outcome held holds result }
{
    match drill_of(words) {
        Some(number) => tell(sink, &drill(alloc, number)),
        None => commands::run(alloc, words, source, sink),
    }
}

/// Writes the text of an outcome, and answers its status, or that a write failed.
pub fn tell<W: Sink>(sink: &mut W, outcome: &Outcome) -> Status
    ensures { let held : Output = record { held = W.held sink.old; faults = W.faults sink.old } in
        let holds : Output = record { held = W.held sink.new; faults = W.faults sink.new } in
        IsTold outcome.now held holds result }
{
    match write_all(sink, outcome.text()) {
        Ok(()) => outcome.status(),
        Err(_) => Status::WriteFault,
    }
}

/// Plays the script that the source has, and writes its output.
fn play<S: Source, W: Sink, K: Keeper>(
    alloc: Global,
    source: &mut S,
    sink: &mut W,
    keeper: K,
) -> Ran<K>
    ensures { let before : Input = record { left = S.left source.old; faults = S.faults source.old; ends = S.ends source.old } in
        let now : Input = record { left = S.left source.new; faults = S.faults source.new; ends = S.ends source.new } in
        let held : Output = record { held = W.held sink.old; faults = W.faults sink.old } in
        let holds : Output = record { held = W.held sink.new; faults = W.faults sink.new } in
        (outcome : Outcome) × ComesToScript K.rows K.faults before now keeper result.kept outcome × IsTold outcome held holds result.status }
{
    let (outcome, kept) = carry_out(alloc, source, keeper);
    Ran {
        status: tell(sink, &outcome),
        kept,
    }
}

/// What a script comes to.
fn carry_out<S: Source, K: Keeper>(alloc: Global, source: &mut S, keeper: K) -> (Outcome, Kept<K>)
    ensures { let before : Input = record { left = S.left source.old; faults = S.faults source.old; ends = S.ends source.old } in
        let now : Input = record { left = S.left source.new; faults = S.faults source.new; ends = S.ends source.new } in
        ComesToScript K.rows K.faults before now keeper result.1 result.0 }
{
    match read_to_end(alloc, source, MOST_SITE_BYTES) {
        Ok(bytes) => answer(alloc, bytes, keeper),
        Err(InputFault::TooLong) => (Outcome::TooLong, Kept::Keeper(keeper)),
        Err(InputFault::Failed) => (Outcome::Unread, Kept::Keeper(keeper)),
        Err(InputFault::NoMemory) => (Outcome::OutOfMemory, Kept::Keeper(keeper)),
    }
}
