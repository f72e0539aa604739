//! A script, played line by line.

ghost use Rattle.std.specs.Prelude.{◌≡◌, OnOk, OnErr};
ghost use Rattle.trust_types.specs.Kept.{IsMoment};
ghost use Rattle.site_core.specs.Books.{IsSound};
ghost use Rattle.script.specs.Stages.{stage_of, stage_at_first};
ghost use Rattle.script.specs.Runs.{PartRunsTo, Plays, RunsTo};
ghost use Rattle.script.specs.inner.Lines.{AddsLine};
ghost use Rattle.script.specs.inner.Ready.{AreReady};

use crate::actors::Actors;
use crate::events::{play_act, play_freeze, play_publish, play_solve};
use crate::looks::{level_line, look};
use crate::outputs::{LONGEST_LINE, numbered, put_line};
use outside::Keeper;
use script_text::{ScriptLine, SiteScript};
use site_core::Book;
use std::alloc::Global;
use trust_types::NoMemory;

/// Plays a script over the book of a site that began with its table: one line after another, in order, each of which adds at most one entry to the
/// history and one line, ended by LF, to the output. Acts have caller 0, all else the number of its actor. No line fails for what the site answers.
///
/// The output is written line by line, and acts are moved into the book: none is copied.
///
/// # Errors
/// [`NoMemory`] where memory runs out in a line. The run ends there: the book and the output have what the lines before gave.
pub fn play<K: Keeper>(
    alloc: Global,
    book: &mut Book<K>,
    script: SiteScript,
    out: &mut Vec<u8>,
) -> Result<(), NoMemory>
    requires table { script.caps ≡ book.old.history.opening }
    // The output is that of a run of the lines, which ends at the book's history; where memory ran out, of a first part of them.
    ensures run { OnOk result (RunsTo script.lines.items (stage_at_first book.old.history) book.new.history out.old.items out.new.items) }
    ensures part { OnErr result (PartRunsTo script.lines.items (stage_at_first book.old.history) book.new.history out.old.items out.new.items) }

    // The history stays legal, and the keeper has the rows of its records.
    ensures sound { IsSound K.rows K.faults book.new }
    ensures found { book.new.found ≡ book.old.found }
{
    let played = play_lines(alloc, book, script.lines, out);
    // Its contract says what a book keeps true.
    let _ = book.length();
    played
}

fn play_lines<K: Keeper>(
    alloc: Global,
    book: &mut Book<K>,
    lines: Vec<ScriptLine>,
    out: &mut Vec<u8>,
) -> Result<(), NoMemory>
    ensures run { OnOk result (RunsTo lines.items (stage_at_first book.old.history) book.new.history out.old.items out.new.items) }
    ensures part { OnErr result (PartRunsTo lines.items (stage_at_first book.old.history) book.new.history out.old.items out.new.items) }
    ensures found { book.new.found ≡ book.old.found }
{
    let mut actors = Actors::new(alloc)?;
    let mut moment = 0;
    for line in lines {
        play_line(alloc, book, &mut actors, &mut moment, line, out)?;
    }
    Ok(())
}

/// Plays a line. The room for its output is taken before its event, which is thus never done without it.
fn play_line<K: Keeper>(
    alloc: Global,
    book: &mut Book<K>,
    actors: &mut Actors,
    moment: &mut u64,
    line: ScriptLine,
    out: &mut Vec<u8>,
) -> Result<(), NoMemory>
    requires ready { AreReady book.old.history actors.old }
    requires moment { IsMoment moment.old }
    ensures played { OnOk result (AddsLine (Plays (stage_of book.old.history actors.old moment.old) line (stage_of book.new.history actors.new moment.new)) out.old.items out.new.items) }
    ensures ready { OnOk result (AreReady book.new.history actors.new) }
    ensures moment { OnOk result (IsMoment moment.new) }
    ensures same { OnErr result ((book.new.history ≡ book.old.history) × (out.new.items ≡ out.old.items)) }
    ensures found { book.new.found ≡ book.old.found }
{
    out.reserve(LONGEST_LINE + 1)?;
    match line {
        ScriptLine::Moment(later) => {
            *moment = later.seconds();
            put_line(out, &numbered("moment ", *moment));
            Ok(())
        }
        ScriptLine::Act(act) => play_act(book, act, *moment, out),
        ScriptLine::Freeze(actor) => play_freeze(book, actors, actor, out),
        ScriptLine::Solve(actor) => play_solve(alloc, actors, actor, out),
        ScriptLine::Publish(actor) => play_publish(book, actors, actor, out),
        ScriptLine::Look(_, level) => look(book, level, out),
        ScriptLine::Level(word) => {
            put_line(out, &level_line(book, &word));
            Ok(())
        }
    }
}
