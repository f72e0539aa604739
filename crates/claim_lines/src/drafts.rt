//! What is read of a claim so far.

ghost use Rattle.std.specs.Prelude.{◌<◌, ◌≤◌, ◌^◌, vec_len};

use crate::flows::{flow_in, lines_of};
use crate::nodes::{node_in, place_of};
use name_index::NameIndex;
use pair_map::PairMap;
use std::alloc::Global;
use text_lines::{LineFault, TextKind, Words, fault_if, fault_unless, is_line, is_same};
use trust_types::{FlowLine, NoMemory, Node};

/// A flow and a cut while their lines are read. It takes one byte an account, and memory for what the lines say.
#[derive(Drop)]
pub struct ClaimDraft {
    /// The units of each pair's line, by the giver's place and the taker's number.
    units: PairMap<u32>,
    /// By place, whether the node is on a side of the cut.
    placed: Vec<bool>,
    pass: Vec<Node>,
    full: Vec<Node>,
    // The root has a place, and a place fits a number.
    ghost root: { 0 < vec_len placed },
    ghost few: { vec_len placed ≤ 2 ^ 32 },
}

/// A flow and a cut.
#[derive(Drop)]
pub struct ClaimParts {
    /// The units of the flow, in rising order of giver and taker.
    pub flow: Vec<FlowLine>,
    /// The nodes that pass, in the order of the text.
    pub pass: Vec<Node>,
    /// The nodes that are full, in the order of the text.
    pub full: Vec<Node>,
}

impl ClaimDraft {
    ghost use Rattle.std.specs.Prelude.{ℕ, ◌≡◌, IfOk, length};
    ghost use Rattle.text_lines.specs.Reading.{Reads};
    ghost use Rattle.claim_lines.specs.Claim.{Claim, nothing, flow_line, node_line, claim_form, claim_line, has_root};
    ghost use Rattle.claim_lines.specs.Drafts.{IsFor, IsClaimDraft, ArePartsOf, ArePartsAmong};

    /// Nothing is claimed yet, of a site with so many accounts.
    ///
    /// # Errors
    /// [`NoMemory`] where there isn't enough for a byte an account.
    pub fn new(alloc: Global, accounts: u32) -> Result<ClaimDraft, NoMemory>
        ensures { IfOk result (λ draft. IsClaimDraft accounts draft nothing) }
    {
        Ok(ClaimDraft {
            units: PairMap::new(alloc),
            placed: vec![in alloc; false; accounts as usize + 1]?,
            pass: Vec::new(alloc),
            full: Vec::new(alloc),
        })
    }

    /// Reads one line more, where the names are those of the site's accounts. It looks the line's pair up among those
    /// before, in time as the logarithm of their number.
    ///
    /// # Errors
    /// The kind of the line's fault, and [`LineFault::NoMemory`] where memory ran out. What the draft holds then is open.
    #[tactic(auto, unfolding(crate::specs::Claim::claim_line))]
    pub fn read(&mut self, names: &NameIndex, line: &[u8]) -> Result<(), LineFault>
        requires { IsFor (length names.now) self.old }
        ensures { (c : Claim) → IsClaimDraft (length names.now) self.old c →
            Reads (IsClaimDraft (length names.now)) result self.new (claim_line names.now c line.now) }
    {
        fault_unless(is_line(line), TextKind::BadLine)?;
        self.read_form(names, &mut Words::of(line))
    }

    /// Whether the root is on a side of the cut.
    pub fn has_root(&self) -> bool
        ensures { (accounts : ℕ) (c : Claim) → IsClaimDraft accounts self.now c → result ≡ has_root c }
    {
        self.placed[0]
    }

    /// What was claimed. One pass over the lines.
    ///
    /// # Errors
    /// [`NoMemory`] where there isn't enough for the lines of the flow.
    pub fn finish(self, alloc: Global) -> Result<ClaimParts, NoMemory>
        ensures parts { (accounts : ℕ) (c : Claim) → IsClaimDraft accounts self c → IfOk result (ArePartsOf c) }
        ensures among { (accounts : ℕ) (c : Claim) → IsClaimDraft accounts self c → IfOk result (ArePartsAmong accounts) }
    {
        let ClaimDraft {
            units,
            pass,
            full,
            ..
        } = self;
        let flow = lines_of(alloc, units)?;
        Ok(ClaimParts { flow, pass, full })
    }

    /// Reads the words of a line.
    fn read_form(&mut self, names: &NameIndex, words: &mut Words) -> Result<(), LineFault>
        requires { IsFor (length names.now) self.old }
        ensures { (c : Claim) → IsClaimDraft (length names.now) self.old c →
            Reads (IsClaimDraft (length names.now)) result self.new (claim_form names.now c words.old) }
    {
        let keyword = words.first()?;
        if is_same(keyword, b"pass") {
            return self.read_node(names, true, words);
        }
        if is_same(keyword, b"full") {
            return self.read_node(names, false, words);
        }
        if is_same(keyword, b"flow") {
            return self.read_flow(names, words);
        }
        Err(LineFault::Kind(TextKind::BadLine))
    }

    /// Reads what is behind `flow`.
    fn read_flow(&mut self, names: &NameIndex, words: &mut Words) -> Result<(), LineFault>
        requires { IsFor (length names.now) self.old }
        ensures { (c : Claim) → IsClaimDraft (length names.now) self.old c →
            Reads (IsClaimDraft (length names.now)) result self.new (flow_line names.now c words.old) }
    {
        let line = flow_in(names, words)?;
        let FlowLine { from, to, units } = line;
        let giver = place_of(&from);
        fault_if(self.units.contains(giver, to.0), TextKind::Twice)?;
        let _none = self.units.insert(giver, to.0, units)?;
        Ok(())
    }

    /// Reads what is behind `pass` or `full`: a node that passes, or is full.
    fn read_node(
        &mut self,
        names: &NameIndex,
        passes: bool,
        words: &mut Words,
    ) -> Result<(), LineFault>
        requires { IsFor (length names.now) self.old }
        ensures { (c : Claim) → IsClaimDraft (length names.now) self.old c →
            Reads (IsClaimDraft (length names.now)) result self.new (node_line names.now passes c words.old) }
    {
        let node = node_in(names, words)?;
        let place = place_of(&node) as usize;
        fault_if(self.placed[place], TextKind::Twice)?;
        self.placed[place] = true;
        if passes {
            self.pass.push(node)?;
            return Ok(());
        }
        self.full.push(node)?;
        Ok(())
    }
}
