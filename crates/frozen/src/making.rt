//! Blocks are shared, those of a plain graph and any others.

ghost use Rattle.std.specs.Prelude.{◌≡◌, ◌<◌, ◌≤◌, ◌+◌, ◌-◌, ◌*◌, length, slice_index, IfOk, IfErr, OnOk};
ghost use Rattle.trust_types.specs.Layout.{accounts as accounts_in, AreRows};
ghost use Rattle.frozen.specs.Sites.{shared_parts, parts_for};
ghost use Rattle.frozen.specs.inner.Copies.{IsCopy, AreCopies};

use crate::blocks::Block;
use std::alloc::Global;
use std::sync::Arc;
use std::sync::ledger::Ledger;
use trust_types::{CertGraph, CertList, Name, NoMemory, Steps};

impl Block {
    /// Makes it a block that others can share, and that can't be written any more. One step.
    ///
    /// # Errors
    /// Where memory runs out, the block as it was.
    pub fn share<L: Ledger>(self, steps: &mut Steps<L>) -> Result<Arc<Block>, Block>
        ensures shared { IfOk result (λ b. b.value ≡ self) }
        ensures back { IfErr result (λ b. b ≡ self) }
        ensures steps { steps.new ≡ steps.old + 1 }
    {
        steps.tick();
        let alloc = self.allocator();
        match Arc::new(alloc, self) {
            Ok(shared) => Ok(shared),
            Err(refused) => Err(refused.value),
        }
    }
}

/// A shared block of the accounts from one on and before another. Two steps, and one more an account and a certificate.
fn shared_rows<L: Ledger>(
    alloc: Global,
    graph: &CertList,
    names: &[Name],
    first: u32,
    end: u32,
    steps: &mut Steps<L>,
) -> Result<Arc<Block>, NoMemory>
    requires rows { AreRows graph.now }
    requires names { length names.now ≡ accounts_in graph.now }
    requires ordered { first ≤ end }
    requires few { end ≤ first + 64 }
    requires within { end ≤ accounts_in graph.now }
    ensures copied { IfOk result (λ b. IsCopy graph.now names.now first end b.value.part) }
    ensures steps { OnOk result (steps.new ≡ steps.old + (2 + (end - first) + (slice_index graph.now.starts end - slice_index graph.now.starts first))) }
    ensures at_most { steps.new ≤ steps.old + (2 + (end - first) + (slice_index graph.now.starts end - slice_index graph.now.starts first)) }
{
    let block = Block::of_rows(alloc, graph, names, first, end, steps)?;
    match block.share(steps) {
        Ok(shared) => Ok(shared),
        Err(_) => Err(NoMemory),
    }
}

/// The graph in shared blocks, with the names of its accounts. Two steps a block, and one more an account and a certificate.
pub fn blocks_of<L: Ledger>(
    alloc: Global,
    graph: &CertList,
    names: &[Name],
    steps: &mut Steps<L>,
) -> Result<Vec<Arc<Block>>, NoMemory>
    requires rows { AreRows graph.now }
    requires names { length names.now ≡ accounts_in graph.now }
    ensures copied { IfOk result (λ blocks. AreCopies graph.now names.now (accounts_in graph.now) (shared_parts blocks.items)) }
    ensures count { IfOk result (λ blocks. length blocks.items ≡ parts_for (accounts_in graph.now)) }
    ensures steps { OnOk result (steps.new ≡ steps.old + (2 * parts_for (accounts_in graph.now) + accounts_in graph.now + length graph.now.takers)) }
    ensures at_most { steps.new ≤ steps.old + (2 * parts_for (accounts_in graph.now) + accounts_in graph.now + length graph.now.takers) }
{
    let accounts = graph.accounts();
    let mut blocks = Vec::new(alloc);
    let mut first = 0;
    while first < accounts {
        let end = accounts.min(first + 64);
        let block = shared_rows(alloc, graph, names, first, end, steps)?;
        blocks.push(block)?;
        first = end;
    }
    Ok(blocks)
}
