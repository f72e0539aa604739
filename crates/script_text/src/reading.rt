//! Scripts, read.

ghost use Rattle.std.specs.Prelude.{◌+◌};
ghost use Rattle.text_lines.specs.Words.{lines};
ghost use Rattle.text_lines.specs.Reading.{reading, Reads, ReadsAll};
ghost use Rattle.script_text.specs.Faults.{fault_of};
ghost use Rattle.script_text.specs.Scripts.{script, script_line, no_lines, IsScriptOf};
ghost use Rattle.script_text.specs.inner.Drafts.{IsDraftOf, lines_of, AreAsked};

use crate::actors::Actors;
use crate::faults::ScriptFault;
use crate::forms::read_words;
use crate::lines::{ScriptLine, SiteScript};
use crate::words::LineWords;
use site_text::read_head;
use std::alloc::Global;
use text_lines::{LineFault, Lines};

/// A script while its lines are read.
#[derive(Drop)]
struct ScriptDraft {
    actors: Actors,
    asked: Vec<ScriptLine>,
}

impl ScriptDraft {
    /// No line was read yet. It takes no memory.
    fn new(alloc: Global) -> ScriptDraft
        ensures { IsDraftOf result no_lines }
    {
        ScriptDraft {
            actors: Actors::new(alloc),
            asked: Vec::new(alloc),
        }
    }

    /// Reads one line more.
    ///
    /// # Errors
    /// [`LineFault::Kind`] where the line has a fault, with its kind, unless memory ran out, and only there;
    /// [`LineFault::NoMemory`] where memory ran out. What the draft holds after an error is open.
    #[tactic(auto, unfolding(crate::specs::Scripts::script_line))]
    fn read(&mut self, alloc: Global, line: &[u8]) -> Result<(), LineFault>
        ensures { Reads IsDraftOf result self.new (script_line (lines_of self.old) line.now) }
    {
        let mut words = LineWords::of(line)?;
        let asked = read_words(alloc, &mut self.actors, &mut words)?;
        self.asked.push(asked)?;
        Ok(())
    }
}

/// Reads the lines of a script behind its head.
fn read_lines(alloc: Global, text: &mut Lines) -> Result<Vec<ScriptLine>, ScriptFault>
    ensures { ReadsAll AreAsked fault_of result (reading script_line (text.old.number + 1) no_lines (lines text.old.bytes)) }
{
    let mut draft = ScriptDraft::new(alloc);
    while let Some(line) = text.next_line() {
        match draft.read(alloc, line) {
            Ok(()) => {}
            Err(fault) => return Err(ScriptFault::at_line(text.number(), fault)),
        }
    }
    Ok(draft.asked)
}

/// Reads a script: just that script, with its acts as they are to be submitted. It goes once over the text, looks each actor up
/// among 64 at most, and takes memory for what the lines ask for.
///
/// # Errors
/// [`ScriptFault::Text`] exactly where the bytes are no script, with the first bad line; [`ScriptFault::NoMemory`] where memory
/// ran out.
pub fn read_script(alloc: Global, bytes: &[u8]) -> Result<SiteScript, ScriptFault>
    ensures { ReadsAll (λ script said. IsScriptOf said script) fault_of result (script bytes.now) }
{
    let mut text = Lines::of(bytes);
    let caps = read_head(&mut text)?;
    let lines = read_lines(alloc, &mut text)?;
    Ok(SiteScript { caps, lines })
}
