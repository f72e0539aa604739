//! Where a block of the book stands: its own, or shared with frozen graphs.

ghost use Rattle.std.specs.Prelude.{◌≡◌, ◌≤◌, ◌<◌, ◌+◌, All, IfOk, OnOk, length};
ghost use Rattle.frozen.specs.Parts.{count, degree_in, giver_in, IsPart};
ghost use Rattle.frozen.specs.Sites.{shared_parts};
ghost use Rattle.frozen.specs.Writes.{row_of, with_account, with_seed, IsPut};
ghost use Rattle.cert_book.specs.inner.Slots.{slot_part, slot_parts, HasBlock, IsOwn, IsReady};

use frozen::Block;
use std::alloc::Global;
use std::mem;
use std::sync::Arc;
use std::sync::ledger::Ledger;
use trust_types::{Cert, Name, NoMemory, Steps};

/// A block of the book.
#[derive(Drop)]
pub(crate) enum Slot {
    /// The book's own.
    Own(Block),
    /// One that frozen graphs share.
    Shared(Arc<Block>),
    /// None, while its block is made a shared one.
    Moved,
}

/// The block.
pub(crate) fn block_of(slot: &Slot) -> &Block
    requires { HasBlock slot.now }
    ensures { result.now.part ≡ slot_part slot.now }
{
    match slot {
        Slot::Own(block) => block,
        Slot::Shared(block) => block,
        Slot::Moved => unreachable!(),
    }
}

/// Makes the block a shared one, if it isn't, and lends it once more. At most one step.
fn share_slot<L: Ledger>(slot: &mut Slot, steps: &mut Steps<L>) -> Result<Arc<Block>, NoMemory>
    requires { HasBlock slot.old }
    ensures same { slot_part slot.new ≡ slot_part slot.old }
    ensures held { HasBlock slot.new }
    ensures shared { IfOk result (λ b. b.value.part ≡ slot_part slot.old) }
    ensures steps { steps.new ≤ steps.old + 1 }
{
    match mem::replace(slot, Slot::Moved) {
        Slot::Own(block) => match block.share(steps) {
            Ok(block) => {
                let lent = Arc::try_clone(&block);
                *slot = Slot::Shared(block);
                Ok(lent?)
            }
            Err(block) => {
                *slot = Slot::Own(block);
                Err(NoMemory)
            }
        },
        Slot::Shared(block) => {
            let lent = Arc::try_clone(&block);
            *slot = Slot::Shared(block);
            Ok(lent?)
        }
        Slot::Moved => Err(NoMemory),
    }
}

/// Makes all blocks shared ones, and lends them once more, in order. At most one step a block.
pub(crate) fn share_all<L: Ledger>(
    alloc: Global,
    slots: &mut [Slot],
    steps: &mut Steps<L>,
) -> Result<Vec<Arc<Block>>, NoMemory>
    requires { All HasBlock slots.old }
    ensures same { slot_parts slots.new ≡ slot_parts slots.old }
    ensures held { All HasBlock slots.new }
    ensures shared { IfOk result (λ blocks. shared_parts blocks.items ≡ slot_parts slots.old) }
    ensures steps { steps.new ≤ steps.old + length slots.old }
{
    let mut blocks = Vec::with_capacity(alloc, slots.len())?;
    for k in 0..slots.len() {
        let block = share_slot(&mut slots[k], steps)?;
        blocks.push_reserved(block);
    }
    Ok(blocks)
}

/// Makes the block ready to be written: it becomes a copy of its own if it is shared, and gets room for one account and one certificate. It copies
/// none that is the book's own.
pub(crate) fn ready_slot<L: Ledger>(
    slot: &mut Slot,
    row: u32,
    steps: &mut Steps<L>,
) -> Result<(), NoMemory>
    requires held { HasBlock slot.old }
    requires row { row < 64 }
    ensures same { slot_part slot.new ≡ slot_part slot.old }
    ensures held { HasBlock slot.new }
    ensures ready { OnOk result (IsReady slot.new) }
    ensures steps { steps.new ≤ steps.old + (1 + count (slot_part slot.old) + length (slot_part slot.old).takers) }
    ensures own { IsOwn slot.old → steps.new ≡ steps.old }
{
    if let Slot::Shared(block) = slot {
        let own = block.copy(steps)?;
        *slot = Slot::Own(own);
    }
    if let Slot::Own(block) = slot {
        block.reserve(row)?;
    }
    Ok(())
}

/// Writes a certificate into the block. One step.
pub(crate) fn put_slot<L: Ledger>(slot: &mut Slot, cert: Cert, steps: &mut Steps<L>)
    requires ready { IsReady slot.old }
    requires row { row_of cert.from < count (slot_part slot.old) }
    requires own { 0 < degree_in (slot_part slot.old) (row_of cert.from) → giver_in (slot_part slot.old) (row_of cert.from) ≡ cert.from }
    ensures held { HasBlock slot.new }
    ensures put { IsPut (slot_part slot.old) (slot_part slot.new) cert }
    ensures part { IsPart (slot_part slot.new) }
    ensures steps { steps.new ≡ steps.old + 1 }
{
    if let Slot::Own(block) = slot {
        block.put(cert, steps);
    }
}

/// Adds an account to the block. One step.
pub(crate) fn join_slot<L: Ledger>(slot: &mut Slot, name: Name, steps: &mut Steps<L>)
    requires ready { IsReady slot.old }
    requires few { count (slot_part slot.old) < 64 }
    ensures held { HasBlock slot.new }
    ensures added { slot_part slot.new ≡ with_account (slot_part slot.old) name }
    ensures steps { steps.new ≡ steps.old + 1 }
{
    if let Slot::Own(block) = slot {
        block.add_account(name, steps);
    }
}

/// Sets the seed mark of an account of the block.
pub(crate) fn seed_slot(slot: &mut Slot, row: u32, seed: bool)
    requires ready { IsReady slot.old }
    requires row { row < count (slot_part slot.old) }
    ensures held { HasBlock slot.new }
    ensures set { slot_part slot.new ≡ with_seed (slot_part slot.old) row seed }
{
    if let Slot::Own(block) = slot {
        block.set_seed(row, seed);
    }
}
