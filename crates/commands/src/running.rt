//! A run of the program.

ghost use Rattle.std.specs.Prelude.{map};
ghost use Rattle.commands.specs.declared.outcome.Outcome.{Outcome};
ghost use Rattle.commands.specs.Commands.{command_of, AsksGrades};
ghost use Rattle.commands.specs.Runs.{Input, Output, Comes, ComesTo, IsTold};

use crate::answers::answer;
use crate::command::Command;
use crate::outcome::Outcome;
use crate::status::Status;
use outside::{InputFault, Sink, Source, read_to_end, write_all};
use std::alloc::Global;
use trust_types::NoMemory;

/// Does what the words ask, over the source and the sink, and answers how it ended. It reads its input to the end
/// before it writes, and always returns.
pub fn run<S: Source, W: Sink>(
    alloc: Global,
    words: &[&str],
    source: &mut S,
    sink: &mut W,
) -> Status
    ensures { let before : Input = record { left = S.left source.old; faults = S.faults source.old; ends = S.ends source.old } in
        let now : Input = record { left = S.left source.new; faults = S.faults source.new; ends = S.ends source.new } in
        let held : Output = record { held = W.held sink.old; faults = W.faults sink.old } in
        let holds : Output = record { held = W.held sink.new; faults = W.faults sink.new } in
        (outcome : Outcome) × ComesTo (command_of (map (λ word. word.now) words.now)) before now outcome × IsTold outcome held holds result }
{
    let outcome = match Command::of_words(words) {
        Some(command) => carry_out(alloc, command, source),
        None => Outcome::Misused,
    };
    match write_all(sink, outcome.text()) {
        Ok(()) => outcome.status(),
        Err(_) => Status::WriteFault,
    }
}

/// What a command comes to.
fn carry_out<S: Source>(alloc: Global, command: Command, source: &mut S) -> Outcome
    requires { AsksGrades command }
    ensures { let before : Input = record { left = S.left source.old; faults = S.faults source.old; ends = S.ends source.old } in
        let now : Input = record { left = S.left source.new; faults = S.faults source.new; ends = S.ends source.new } in
        Comes command before now result }
{
    match read_to_end(alloc, source, command.limit()) {
        Ok(bytes) => match answer(alloc, command, bytes) {
            Ok(answer) => Outcome::Answered(answer),
            Err(NoMemory) => Outcome::OutOfMemory,
        },
        Err(InputFault::TooLong) => Outcome::TooLong,
        Err(InputFault::Failed) => Outcome::Unread,
        Err(InputFault::NoMemory) => Outcome::OutOfMemory,
    }
}
