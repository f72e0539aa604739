//! Texts of sites and of proofs, read.

ghost use Rattle.std.specs.Prelude.{◌≡◌, ◌+◌, ◌<◌, ◌≤◌, ℕ, List, [], All, IfOk, OnOk, IsTrue, drop, length, option_map, vec_len};
ghost use Rattle.std.specs.List.{before_first, position_or_len};
ghost use Rattle.trust_types.specs.Levels.{IsGrade};
ghost use Rattle.trust_types.specs.Tables.{IsLevelCount};
ghost use Rattle.trust_types.specs.Graph.{KeepsLevels};
ghost use Rattle.trust_types.specs.NameLists.{AreApart};
ghost use Rattle.trust_types.specs.Certs.{CanStand};
ghost use Rattle.frozen.specs.Revision.{Freezes, certificates};
ghost use Rattle.text_lines.specs.Words.{lines};
ghost use Rattle.text_lines.specs.Reading.{reading, ReadsAll};
ghost use Rattle.site_lines.specs.Site.{site_line};
ghost use Rattle.claim_lines.specs.Claim.{Claim, nothing, claim_line, has_root};
ghost use Rattle.claim_lines.specs.Drafts.{IsClaimDraft, ArePartsOf as AreClaimed, ArePartsAmong};
ghost use Rattle.site_lines.specs.Drafts.{ArePartsOf};
ghost use Rattle.trust_types.specs.declared.records.Record.{Record};
ghost use Rattle.trust_types.specs.Kept.{accounts};
ghost use Rattle.site_text.specs.Site.{site, proof, levels_behind, table_of, head_count, behind_head, claim_of};
ghost use Rattle.site_text.specs.View.{IsFrozenOf, IsProofOf};
ghost use Rattle.site_text.specs.Faults.{fault_of};
ghost use Rattle.site_text.specs.inner.Parts.{IsPart, IsClaimed, levels_count, behind_levels, claim_from, claim_number, ends_site};

use crate::faults::SiteFault;
use claim_lines::{ClaimDraft, ClaimParts, is_level_line, read_level};
use cut_check::Proof;
use frozen::Frozen;
use name_index::NameIndex;
use site_lines::{SiteDraft, SiteParts, is_levels_line, read_entries, read_levels};
use std::alloc::Global;
use std::marker::Brand;
use std::sync::Arc;
use std::sync::ledger::{Blank, Ledger};
use text_lines::{Lines, TextFault, TextKind, at_line, fault_unless};
use trust_types::{Caps, CertList, Level, MOST_ACCOUNTS, NoMemory, Steps};

/// The lines of a site, read, and the `level` line that ended them, where one did.
#[derive(Drop)]
struct SitePart<'a> {
    draft: SiteDraft,
    level_line: Option<&'a [u8]>,
}

/// What is claimed of a site, read.
#[derive(Drop)]
struct Claimed {
    level: Level,
    draft: ClaimDraft,
}

/// Reads a text's head, which is its table: the first line, and the second where that says how many levels there are.
///
/// # Errors
/// The fault of the first line, else that of the second.
#[tactic(auto, unfolding(crate::specs::Site::table_of))]
pub fn read_head(text: &mut Lines) -> Result<Caps, TextFault>
    requires start { text.old.number ≡ 0 }
    ensures table { result ≡ table_of (lines text.old.bytes) }
    ensures left { OnOk result (lines text.new.bytes ≡ behind_head (lines text.old.bytes)) }
    ensures number { OnOk result (text.new.number ≡ head_count (lines text.old.bytes)) }
    ensures levels { IfOk result (λ caps. IsLevelCount caps.levels) }
{
    let Some(line) = text.next_line() else {
        return Err(TextFault {
            line: 1,
            kind: TextKind::BadLine,
        });
    };
    let entries = at_line(1, read_entries(line))?;
    let levels = read_second(text)?;
    Ok(Caps::of(levels, entries))
}

/// Reads the line behind the first where it says how many levels there are. Otherwise there are four.
fn read_second(text: &mut Lines) -> Result<u32, TextFault>
    ensures levels { result ≡ levels_behind (lines text.old.bytes) }
    ensures left { OnOk result (lines text.new.bytes ≡ behind_levels (lines text.old.bytes)) }
    ensures number { OnOk result (text.new.number ≡ text.old.number + levels_count (lines text.old.bytes)) }
    ensures within { IfOk result (λ levels. IsLevelCount levels) }
{
    let mut ahead = text.fork();
    let Some(line) = ahead.next_line() else {
        return Ok(4);
    };
    if !is_levels_line(line) {
        return Ok(4);
    }
    *text = ahead;
    at_line(2, read_levels(line))
}

/// Whether the line ends the site, in a proof text or in one of a site.
fn ends_site(in_proof: bool, line: &[u8]) -> bool
    ensures { result ≡ ends_site in_proof line.now }
{
    in_proof && is_level_line(line)
}

/// Reads the lines of a site behind its table: in a proof text up to the first `level` line, and else all.
fn read_site_part<'a>(
    alloc: Global,
    text: &mut Lines<'a>,
    table: &Caps,
    in_proof: bool,
) -> Result<SitePart<'a>, SiteFault>
    ensures read { ReadsAll IsPart fault_of result (reading (site_line table.now) (text.old.number + 1) [] (before_first (ends_site in_proof) (lines text.old.bytes))) }
    ensures left { IfOk result (λ part. drop (position_or_len (ends_site in_proof) (lines text.old.bytes)) (lines text.old.bytes) ≡ claim_from (option_map (λ line. line.now) part.level_line) (lines text.new.bytes)) }
    ensures number { IfOk result (λ part. claim_number (option_map (λ line. line.now) part.level_line) text.new.number ≡ text.old.number + 1 + length (before_first (ends_site in_proof) (lines text.old.bytes))) }
{
    let mut draft = SiteDraft::new(alloc);
    while let Some(line) = text.next_line() {
        if ends_site(in_proof, line) {
            return Ok(SitePart {
                draft,
                level_line: Some(line),
            });
        }
        match draft.read(table, line) {
            Ok(()) => {}
            Err(fault) => return Err(SiteFault::at_line(text.number(), fault)),
        }
    }
    Ok(SitePart {
        draft,
        level_line: None,
    })
}

/// Reads the lines of a claim behind its first.
fn read_claim_lines(
    alloc: Global,
    text: &mut Lines,
    names: &NameIndex,
) -> Result<ClaimDraft, SiteFault>
    requires few { length names.now ≤ MOST_ACCOUNTS }
    ensures read { ReadsAll (IsClaimDraft (length names.now)) fault_of result (reading (claim_line names.now) (text.old.number + 1) nothing (lines text.old.bytes)) }
    ensures number { OnOk result (text.new.number ≡ text.old.number + length (lines text.old.bytes)) }
{
    let mut draft = ClaimDraft::new(alloc, names.count() as u32)?;
    while let Some(line) = text.next_line() {
        match draft.read(names, line) {
            Ok(()) => {}
            Err(fault) => return Err(SiteFault::at_line(text.number(), fault)),
        }
    }
    Ok(draft)
}

/// Reads what is claimed of a site: the `level` line, which was the last one read where there is one, and those behind it.
fn read_claim(
    alloc: Global,
    text: &mut Lines,
    level_line: Option<&[u8]>,
    table: &Caps,
    names: &NameIndex,
) -> Result<Claimed, SiteFault>
    requires few { length names.now ≤ MOST_ACCOUNTS }
    ensures read { let first = option_map (λ line. line.now) level_line.entry in
        ReadsAll (IsClaimed (length names.now)) fault_of result (claim_of table.now names.now (claim_number first text.old.number) (claim_from first (lines text.old.bytes))) }
    ensures grade { IfOk result (λ claimed. IsGrade claimed.level) }
    ensures root { IfOk result (λ claimed. (c : Claim) → IsClaimDraft (length names.now) claimed.draft c → IsTrue (has_root c)) }
{
    let Some(level_line) = level_line else {
        return Err(SiteFault::Text(TextFault {
            line: text.number() + 1,
            kind: TextKind::MissingLevel,
        }));
    };
    let level = at_line(text.number(), read_level(table, level_line))?;
    let draft = read_claim_lines(alloc, text, names)?;
    at_line(
        text.number() + 1,
        fault_unless(draft.has_root(), TextKind::MissingRoot),
    )?;
    Ok(Claimed { level, draft })
}

/// The proof of these parts: a site's, and those of what is claimed of it.
fn proof_of(
    alloc: Global,
    caps: Caps,
    site: SiteParts,
    level: Level,
    claim: ClaimParts,
) -> Result<Proof, NoMemory>
    requires grade { IsGrade level }
    requires parts { (k : List Record) × (c : Claim) × ArePartsOf k site × AreClaimed c claim × ArePartsAmong (length (accounts k)) claim × IsTrue (has_root c) }
    ensures { (k : List Record) (c : Claim) → ArePartsOf k site → AreClaimed c claim →
        IfOk result (λ p. IsProofOf (record { site = record { table = caps; records = k }; level = level; claim = c }) p) }
{
    let names = site.names;
    let graph = CertList::of(alloc, names.len() as u32, site.seeds, site.certs)?;
    Ok(Proof {
        caps,
        names,
        graph,
        level,
        flow: claim.flow,
        pass: claim.pass,
        full: claim.full,
    })
}

/// The frozen graph of these parts of a site, whose steps nobody counts.
fn freeze<L: Ledger>(
    alloc: Global,
    revision: u32,
    caps: Caps,
    site: SiteParts,
    blank: Blank,
) -> Result<Arc<Frozen>, NoMemory>
    requires few { vec_len site.names ≤ MOST_ACCOUNTS }
    requires apart { AreApart site.names.items }
    requires seeds { All (λ a. a < vec_len site.names) site.seeds.items }
    requires certs { CanStand (vec_len site.names) site.certs.items }
    requires name { blank.name ≡ L.name }
    requires parts { blank.parts ≡ L.parts }
    requires some { 0 < blank.parts }
    ensures { IfOk result (λ f. Freezes f.value revision caps site.names.items site.seeds.items site.certs.items) }
{
    let mut steps = Steps::<L>::new(blank);
    Frozen::of(
        alloc, revision, caps, site.names, site.seeds, site.certs, &mut steps,
    )
}

/// Reads a site text: the graph of just that site, which is frozen. Its revision is the number of the text's `account`, `seed`
/// and `cert` lines. It goes once over the text, and takes memory for its accounts and certificates.
///
/// # Errors
/// [`SiteFault::Text`] exactly where the bytes are no site text, with the first bad line; [`SiteFault::NoMemory`] where memory
/// ran out.
pub fn read_site(alloc: Global, bytes: &[u8]) -> Result<Arc<Frozen>, SiteFault>
    requires few { length bytes.now ≤ 268435456 }
    ensures read { ReadsAll (λ f s. IsFrozenOf s f.value) fault_of result (site bytes.now) }
    ensures levels { IfOk result (λ f. KeepsLevels f.value.caps (certificates f.value)) }
{
    let mut text = Lines::of(bytes);
    let caps = read_head(&mut text)?;
    let head = text.number();
    let part = read_site_part(alloc, &mut text, &caps, false)?;
    let revision = text.number() - head;
    let site = part.draft.finish(alloc)?;
    Ok(freeze::<Brand>(alloc, revision as u32, caps, site, Blank::new(1))?)
}

/// Reads a proof text: just that proof, with the lines of its flow in rising order. It goes once over the text, and takes
/// memory for what the text says.
///
/// # Errors
/// [`SiteFault::Text`] exactly where the bytes are no proof text, with the first bad line; [`SiteFault::NoMemory`] where memory
/// ran out.
pub fn read_proof(alloc: Global, bytes: &[u8]) -> Result<Proof, SiteFault>
    ensures { ReadsAll (λ p t. IsProofOf t p) fault_of result (proof bytes.now) }
{
    let mut text = Lines::of(bytes);
    let caps = read_head(&mut text)?;
    let part = read_site_part(alloc, &mut text, &caps, true)?;
    let claimed = read_claim(alloc, &mut text, part.level_line, &caps, part.draft.names())?;
    let site = part.draft.finish(alloc)?;
    let claim = claimed.draft.finish(alloc)?;
    Ok(proof_of(alloc, caps, site, claimed.level, claim)?)
}
