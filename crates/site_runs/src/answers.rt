//! The answer to a script.

ghost use Rattle.std.specs.Prelude.{◌≡◌, Ok, IfOk};
ghost use Rattle.commands.specs.Answers.{TellsFault};
ghost use Rattle.text_lines.specs.Reading.{ReadsAll};
ghost use Rattle.script_text.specs.Faults.{fault_of};
ghost use Rattle.script_text.specs.Scripts.{ScriptText, script, IsScriptOf};
ghost use Rattle.site_core.specs.Books.{IsSound};
ghost use Rattle.site_runs.specs.Runs.{ComesAfter, ComesToUnopened, IsRunOf, TellsUnopened};
ghost use Rattle.site_runs.specs.inner.Answers.{outcome_of};

use crate::ran::Kept;
use commands::{Answer, Outcome, Status};
use outside::Keeper;
use script::play;
use script_text::{ScriptFault, SiteScript, read_script};
use site_core::{Book, OpenFault, Unopened};
use std::alloc::Global;
use text_lines::TextFault;
use trust_types::NoMemory;

/// What the whole input of a script comes to. The bytes are given up as soon as they are read, before a site is opened.
pub fn answer<K: Keeper>(alloc: Global, bytes: Vec<u8>, keeper: K) -> (Outcome, Kept<K>)
    ensures { ComesAfter K.rows K.faults (script bytes.items) keeper result.1 result.0 }
{
    match into_script(alloc, bytes) {
        Ok(script) => open(alloc, script, keeper),
        Err(ScriptFault::Text(fault)) => (outcome_of(tell(alloc, fault)), Kept::Keeper(keeper)),
        Err(ScriptFault::NoMemory) => (Outcome::OutOfMemory, Kept::Keeper(keeper)),
    }
}

/// The script that the bytes are. It drops them.
fn into_script(alloc: Global, bytes: Vec<u8>) -> Result<SiteScript, ScriptFault>
    ensures { ReadsAll (λ script said. IsScriptOf said script) fault_of result (script bytes.items) }
{
    read_script(alloc, &bytes)
}

/// The fault of a text, as it is told.
fn tell(alloc: Global, fault: TextFault) -> Result<Answer, NoMemory>
    ensures { IfOk result (TellsFault fault) }
{
    Ok(Answer {
        status: Status::Text,
        text: fault.print(alloc)?,
    })
}

/// An answer, where memory sufficed for it.
fn outcome_of(answer: Result<Answer, NoMemory>) -> Outcome
    ensures { result ≡ outcome_of answer }
{
    match answer {
        Ok(answer) => Outcome::Answered(answer),
        Err(NoMemory) => Outcome::OutOfMemory,
    }
}

/// Plays a script on the site that the keeper's rows are.
fn open<K: Keeper>(alloc: Global, script: SiteScript, keeper: K) -> (Outcome, Kept<K>)
    ensures { (said : ScriptText) → IsScriptOf said script → ComesAfter K.rows K.faults (Ok said) keeper result.1 result.0 }
{
    match Book::open(alloc, keeper, script.caps) {
        Ok(mut book) => {
            let answer = played(alloc, &mut book, script);
            (Outcome::Answered(answer), Kept::Book(book))
        }
        Err(Unopened { fault, keeper }) => (unopened(alloc, fault), Kept::Keeper(keeper)),
    }
}

/// Plays a script over a book. The answer has the output, also where memory runs out.
fn played<K: Keeper>(alloc: Global, book: &mut Book<K>, script: SiteScript) -> Answer
    requires { script.caps ≡ book.old.history.opening }
    ensures run { IsRunOf script.lines.items book.old.history book.new.history result }
    ensures sound { IsSound K.rows K.faults book.new }
    ensures found { book.new.found ≡ book.old.found }
{
    let mut text = Vec::new(alloc);
    match play(alloc, book, script, &mut text) {
        Ok(()) => Answer {
            status: Status::Done,
            text,
        },
        Err(NoMemory) => Answer {
            status: Status::NoMemory,
            text,
        },
    }
}

/// What a run comes to where no site was opened: why, as it is told, or that memory ran out.
pub fn unopened(alloc: Global, fault: OpenFault) -> Outcome
    ensures { ComesToUnopened fault result }
{
    outcome_of(refuse(alloc, fault))
}

/// Why a site wasn't opened, as it is told.
fn refuse(alloc: Global, fault: OpenFault) -> Result<Answer, NoMemory>
    ensures { IfOk result (TellsUnopened fault) }
{
    let (status, text) = match fault {
        OpenFault::Keeper => (Status::KeeperFault, format!(in alloc; "keeper fault\n")?),
        OpenFault::BadRow(number) => (Status::BadRow, format!(in alloc; "bad row {number}\n")?),
        OpenFault::Full(number) => (
            Status::RowsFull,
            format!(in alloc; "row {number} passes a limit\n")?,
        ),
        OpenFault::NoMemory => return Err(NoMemory),
    };
    Ok(Answer {
        status,
        text: text.into_bytes(),
    })
}
