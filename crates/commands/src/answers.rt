//! The answer to what was read.

ghost use Rattle.std.specs.Prelude.{◌≡◌, ◌≤◌, true, IfOk, vec_len};
ghost use Rattle.text_lines.specs.Reading.{ReadsAll};
ghost use Rattle.site_text.specs.Faults.{fault_of};
ghost use Rattle.site_text.specs.Site.{site, proof};
ghost use Rattle.site_text.specs.View.{IsFrozenOf, IsProofOf};
ghost use Rattle.commands.specs.Commands.{limit_of, AreGrades, AsksGrades};
ghost use Rattle.trust_types.specs.Levels.{IsGrade};
ghost use Rattle.trust_types.specs.Tables.{has_grade};
ghost use Rattle.trust_types.specs.Graph.{KeepsLevels};
ghost use Rattle.frozen.specs.Revision.{certificates};
ghost use Rattle.text_lines.specs.declared.faults.TextKind.TheVariants.{BadLevel};
ghost use Rattle.text_lines.specs.Steps.{fault_unless};
ghost use Rattle.commands.specs.Answers.{status_for, site_for, site_with, Answers, AnswersProof, AnswersSite, IsJudged, TellsFault, AreRosterLines, IsAuditText};

use crate::command::{Asked, Command, MOST_SITE_BYTES};
use crate::outcome::Answer;
use crate::rosters::roster_lines;
use crate::status::Status;
use audit_text::proof_text;
use cut_check::{Proof, Scratch, Verdict, check, print_verdict};
use frozen::Frozen;
use site_text::{SiteFault, TextFault, read_proof, read_site};
use solver::solve_one;
use std::alloc::Global;
use std::sync::Arc;
use text_lines::{TextKind, fault_unless, line_count};
use trust_types::{Caps, CertGraph, Level, NoMemory};

/// The answer that a command gives to its whole input. The bytes are given up as soon as they are read, before anything is judged
/// or solved.
///
/// # Errors
/// [`NoMemory`] where there isn't enough for the work or for the answer.
pub fn answer(alloc: Global, command: Command, bytes: Vec<u8>) -> Result<Answer, NoMemory>
    requires grades { AsksGrades command }
    requires few { vec_len bytes ≤ limit_of command }
    ensures { IfOk result (Answers command bytes.items) }
{
    match command {
        Command::Check => answer_check(alloc, bytes),
        Command::Rosters(asked) => answer_rosters(alloc, asked, bytes),
        Command::Audit(level) => answer_audit(alloc, level, bytes),
    }
}

/// The verdict on the proof that the bytes are, or their fault.
fn answer_check(alloc: Global, bytes: Vec<u8>) -> Result<Answer, NoMemory>
    ensures { IfOk result (AnswersProof (proof bytes.items)) }
{
    match into_proof(alloc, bytes) {
        Ok(proof) => judge(alloc, &proof),
        Err(SiteFault::Text(fault)) => tell(alloc, fault),
        Err(SiteFault::NoMemory) => Err(NoMemory),
    }
}

/// The proof that the bytes are. It drops them.
fn into_proof(alloc: Global, bytes: Vec<u8>) -> Result<Proof, SiteFault>
    ensures { ReadsAll (λ p t. IsProofOf t p) fault_of result (proof bytes.items) }
{
    read_proof(alloc, &bytes)
}

/// The verdict on a proof: its line, and the status `Done` for a greatest flow, `No` for any other. It takes room for five
/// numbers an account and for the line.
fn judge(alloc: Global, proof: &Proof) -> Result<Answer, NoMemory>
    ensures { IfOk result (IsJudged proof.now) }
{
    let mut scratch = Scratch::reserve(alloc, proof.graph.accounts())?;
    let verdict = check(proof, &mut scratch);
    Ok(Answer {
        status: status_for(verdict),
        text: print_verdict(alloc, proof, &verdict)?,
    })
}

/// How a run ends with the verdict.
fn status_for(verdict: Verdict) -> Status
    ensures { result ≡ status_for verdict }
{
    match verdict {
        Verdict::NoEdge(..)
        | Verdict::NoBalance(_)
        | Verdict::NoRoom(_)
        | Verdict::NoService(_)
        | Verdict::NoClosure(..)
        | Verdict::NoMatch(..) => Status::No,
        Verdict::Greatest(_) => Status::Done,
    }
}

/// The site of which rosters are asked. It drops the bytes.
fn into_site(alloc: Global, asked: Asked, bytes: Vec<u8>) -> Result<Arc<Frozen>, SiteFault>
    requires grades { AreGrades asked }
    requires few { vec_len bytes ≤ MOST_SITE_BYTES }
    ensures { ReadsAll (λ f s. IsFrozenOf s f.value) fault_of result (site_for asked bytes.items) }
{
    match asked {
        Asked::One(level) => into_site_with(alloc, level, bytes),
        Asked::All => read_site(alloc, &bytes),
    }
}

/// The site that the bytes are, whose table has a grade. It drops the bytes. Lines are counted only for a fault.
fn into_site_with(alloc: Global, level: Level, bytes: Vec<u8>) -> Result<Arc<Frozen>, SiteFault>
    requires grade { IsGrade level }
    requires few { vec_len bytes ≤ MOST_SITE_BYTES }
    ensures read { ReadsAll (λ f s. IsFrozenOf s f.value) fault_of result (site_with level bytes.items) }
    ensures levels { IfOk result (λ f. KeepsLevels f.value.caps (certificates f.value)) }
    ensures grade { IfOk result (λ f. has_grade f.value.caps level ≡ true) }
{
    let frozen = read_site(alloc, &bytes)?;
    match graded(frozen.caps(), level) {
        Ok(()) => Ok(frozen),
        Err(kind) => Err(SiteFault::Text(TextFault {
            line: line_count(&bytes) + 1,
            kind,
        })),
    }
}

/// Nothing, where the table has the grade.
fn graded(table: &Caps, level: Level) -> Result<(), TextKind>
    requires { IsGrade level }
    ensures { result ≡ fault_unless (has_grade table.now level) BadLevel }
{
    fault_unless(table.has(level), TextKind::BadLevel)
}

/// The rosters of the site that the bytes are, or their fault.
fn answer_rosters(alloc: Global, asked: Asked, bytes: Vec<u8>) -> Result<Answer, NoMemory>
    requires grades { AreGrades asked }
    requires few { vec_len bytes ≤ MOST_SITE_BYTES }
    ensures { IfOk result (AnswersSite (AreRosterLines asked) (site_for asked bytes.items)) }
{
    match into_site(alloc, asked, bytes) {
        Ok(frozen) => Ok(Answer {
            status: Status::Done,
            text: roster_lines(alloc, asked, &frozen)?,
        }),
        Err(SiteFault::Text(fault)) => tell(alloc, fault),
        Err(SiteFault::NoMemory) => Err(NoMemory),
    }
}

/// A proof text of a greatest flow over the site that the bytes are, or their fault.
fn answer_audit(alloc: Global, level: Level, bytes: Vec<u8>) -> Result<Answer, NoMemory>
    requires grade { IsGrade level }
    requires few { vec_len bytes ≤ MOST_SITE_BYTES }
    ensures { IfOk result (AnswersSite (IsAuditText level) (site_with level bytes.items)) }
{
    match into_site_with(alloc, level, bytes) {
        Ok(frozen) => {
            // Its contract says that no seed is past the accounts.
            let _accounts = frozen.accounts();
            let roster = solve_one(alloc, &frozen, level)?;
            Ok(Answer {
                status: Status::Done,
                text: proof_text(alloc, &frozen, &roster)?,
            })
        }
        Err(SiteFault::Text(fault)) => tell(alloc, fault),
        Err(SiteFault::NoMemory) => Err(NoMemory),
    }
}

/// The fault of a text, as it is told.
fn tell(alloc: Global, fault: TextFault) -> Result<Answer, NoMemory>
    ensures { IfOk result (TellsFault fault) }
{
    Ok(Answer {
        status: Status::Text,
        text: fault.print(alloc)?,
    })
}
