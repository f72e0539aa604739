//! The blocks of the book, of which frozen graphs take over those that are shared.

ghost use Rattle.std.specs.Prelude.{ℕ, ◌≡◌, ◌≢◌, ◌<◌, ◌≤◌, ◌+◌, ◌/◌, ◌%◌, [], Some, None, IfOk, OnOk, OnErr, length, slice_get, true, false, if◌then◌else◌};
ghost use Rattle.trust_types.specs.NameLists.{number_of};
ghost use Rattle.trust_types.specs.Changes.{Joined, Seeded, Unseeded, Certified};
ghost use Rattle.trust_types.specs.declared.limits.TheConstants.{MOST_ACCOUNTS, MOST_CERTS};
ghost use Rattle.frozen.specs.Parts.{no_part, count, degree_in, giver_in};
ghost use Rattle.frozen.specs.Sites.{AreParts, part_of, names, accounts, is_seed, standing, certs, parts_for, shared_parts};
ghost use Rattle.frozen.specs.Writes.{graded, with_account};
ghost use Rattle.cert_book.specs.inner.Slots.{slot_part, HasBlock};
ghost use Rattle.cert_book.specs.inner.Blocks.{IsSpare, IsAfter};

use crate::slots::{Slot, block_of, join_slot, put_slot, ready_slot, seed_slot, share_all};
use frozen::Block;
use std::alloc::Global;
use std::marker::Model;
use std::sync::Arc;
use std::sync::ledger::Ledger;
use trust_types::{AccountNo, Cert, Level, MOST_ACCOUNTS, MOST_CERTS, Name, NoMemory, Steps};

/// The accounts, with their names, seed marks and given certificates, in blocks of 64. Contracts see the parts of the site, and of which account
/// the block can be written.
#[derive(Drop)]
pub(crate) struct Blocks {
    slots: Vec<Slot>,
    /// An empty block, where the next account begins one.
    spare: Option<Block>,
    account_count: u32,
    cert_count: u32,
    ready: Option<u32>,
}

impl Model for Blocks {
    ghost use Rattle.std.specs.Prelude.{◌<◌, vec_len, vec_capacity};
    ghost use Rattle.cert_book.specs.inner.Slots.{slot_parts};
    ghost use Rattle.cert_book.specs.inner.Blocks.{Blocks, AreSlots, IsReadyFor};

    ghost Value = { Blocks };

    ghost view = { λ b. record { parts = slot_parts b.slots.items; ready = b.ready } };

    ghost invariant = { λ b. AreSlots b.slots.items b.account_count b.cert_count × IsReadyFor b.slots.items b.spare (vec_len b.slots < vec_capacity b.slots) b.ready };
}

impl Blocks {
    /// No account. It takes no memory.
    pub(crate) fn new(alloc: Global) -> Blocks
        ensures { result ≡ record { parts = []; ready = None } }
    {
        Blocks {
            slots: Vec::new(alloc),
            spare: None,
            account_count: 0,
            cert_count: 0,
            ready: None,
        }
    }

    pub(crate) fn allocator(&self) -> Global {
        *self.slots.allocator()
    }

    pub(crate) fn accounts(&self) -> u32
        ensures value { result ≡ accounts self.now.parts }
        ensures few { result ≤ MOST_ACCOUNTS }
        ensures parts { AreParts self.now.parts }
    {
        self.account_count
    }

    pub(crate) fn certs(&self) -> u32
        ensures value { result ≡ certs self.now.parts }
        ensures few { result ≤ MOST_CERTS }
    {
        self.cert_count
    }

    /// The block that has an account.
    pub(crate) fn block(&self, account: AccountNo) -> &Block
        requires { account < accounts self.now.parts }
        ensures part { result.now.part ≡ part_of self.now.parts account }
        ensures row { account % 64 < count result.now.part }
        ensures own { 0 < degree_in result.now.part (account % 64) → giver_in result.now.part (account % 64) ≡ account }
        ensures named { slice_get (names self.now.parts) account ≡ slice_get result.now.part.names (account % 64) }
        ensures parts { AreParts self.now.parts }
    {
        block_of(&self.slots[(account.0 / 64) as usize])
    }

    pub(crate) fn standing(&self, from: AccountNo, to: AccountNo) -> Level
        requires { from < accounts self.now.parts }
        ensures { result ≡ standing self.now.parts from to }
    {
        self.block(from).standing(from.0 % 64, to)
    }

    /// Makes the block ready that has the account, or that it is to join. It copies the block where that is shared, and so none that is ready.
    pub(crate) fn reserve<L: Ledger>(
        &mut self,
        account: u32,
        steps: &mut Steps<L>,
    ) -> Result<(), NoMemory>
        requires { account ≤ accounts self.old.parts }
        ensures same { self.new.parts ≡ self.old.parts }
        ensures ready { OnOk result (self.new.ready ≡ Some account) }
        ensures steps { steps.new ≤ steps.old + (65 + certs self.old.parts) }
        ensures again { self.old.ready ≡ Some account → account / 64 < length self.old.parts → steps.new ≡ steps.old }
    {
        if ((account / 64) as usize) < self.slots.len() {
            self.ready_block(account, steps)
        } else {
            self.ready_spare(account, steps)
        }
    }

    /// Makes a block ready that is there.
    fn ready_block<L: Ledger>(&mut self, account: u32, steps: &mut Steps<L>) -> Result<(), NoMemory>
        requires { account / 64 < length self.old.parts }
        ensures same { self.new.parts ≡ self.old.parts }
        ensures ready { OnOk result (self.new.ready ≡ Some account) }
        ensures steps { steps.new ≤ steps.old + (65 + certs self.old.parts) }
        ensures again { self.old.ready ≡ Some account → steps.new ≡ steps.old }
    {
        self.ready = None;
        ready_slot(
            &mut self.slots[(account / 64) as usize],
            account % 64,
            steps,
        )?;
        self.ready = Some(account);
        Ok(())
    }

    /// Makes a block ready that the account would begin.
    fn ready_spare<L: Ledger>(&mut self, account: u32, steps: &mut Steps<L>) -> Result<(), NoMemory>
        requires { length self.old.parts ≤ account / 64 }
        ensures same { self.new.parts ≡ self.old.parts }
        ensures ready { OnOk result (self.new.ready ≡ Some account) }
        ensures steps { steps.new ≤ steps.old + 1 }
    {
        self.ready = None;
        self.slots.reserve(1)?;
        let alloc = *self.slots.allocator();
        self.spare = Some(spare_block(alloc, steps)?);
        self.ready = Some(account);
        Ok(())
    }

    /// Adds an account, and answers its number. One step.
    pub(crate) fn join<L: Ledger>(&mut self, name: Name, steps: &mut Steps<L>) -> AccountNo
        requires ready { self.old.ready ≡ Some (accounts self.old.parts) }
        requires few { accounts self.old.parts < MOST_ACCOUNTS }
        requires new { number_of (names self.old.parts) name ≡ None }
        ensures account { result ≡ accounts self.old.parts }
        ensures joined { IsAfter (Joined name) self.old.parts self.new.parts }
        ensures parts { AreParts self.old.parts }
        ensures steps { steps.new ≡ steps.old + 1 }
    {
        if ((self.account_count / 64) as usize) < self.slots.len() {
            self.join_last(name, steps)
        } else {
            self.join_next(name, steps)
        }
    }

    /// Adds an account to the last block.
    fn join_last<L: Ledger>(&mut self, name: Name, steps: &mut Steps<L>) -> AccountNo
        requires ready { self.old.ready ≡ Some (accounts self.old.parts) }
        requires few { accounts self.old.parts < MOST_ACCOUNTS }
        requires new { number_of (names self.old.parts) name ≡ None }
        requires inside { accounts self.old.parts / 64 < length self.old.parts }
        ensures account { result ≡ accounts self.old.parts }
        ensures joined { IsAfter (Joined name) self.old.parts self.new.parts }
        ensures parts { AreParts self.old.parts }
        ensures steps { steps.new ≡ steps.old + 1 }
    {
        let account = self.account_count;
        join_slot(&mut self.slots[(account / 64) as usize], name, steps);
        self.account_count += 1;
        self.ready = None;
        AccountNo(account)
    }

    /// Adds an account that begins a block.
    fn join_next<L: Ledger>(&mut self, name: Name, steps: &mut Steps<L>) -> AccountNo
        requires ready { self.old.ready ≡ Some (accounts self.old.parts) }
        requires few { accounts self.old.parts < MOST_ACCOUNTS }
        requires new { number_of (names self.old.parts) name ≡ None }
        requires past { length self.old.parts ≤ accounts self.old.parts / 64 }
        ensures account { result ≡ accounts self.old.parts }
        ensures joined { IsAfter (Joined name) self.old.parts self.new.parts }
        ensures parts { AreParts self.old.parts }
        ensures steps { steps.new ≡ steps.old + 1 }
    {
        let account = self.account_count;
        let spare = self.spare.take();
        self.slots.push_reserved(begun_slot(spare, name, steps));
        self.account_count += 1;
        self.ready = None;
        AccountNo(account)
    }

    /// Sets the seed mark of an account.
    pub(crate) fn mark(&mut self, account: AccountNo, seed: bool)
        requires ready { self.old.ready ≡ Some account }
        requires account { account < accounts self.old.parts }
        ensures marked { IsAfter (if seed then Seeded account else Unseeded account) self.old.parts self.new.parts }
        ensures parts { AreParts self.old.parts }
    {
        seed_slot(
            &mut self.slots[(account.0 / 64) as usize],
            account.0 % 64,
            seed,
        );
        self.ready = None;
    }

    /// Writes a certificate in place of the one for the same pair; at Observer none stands then. One step.
    pub(crate) fn put<L: Ledger>(
        &mut self,
        author: AccountNo,
        subject: AccountNo,
        level: Level,
        steps: &mut Steps<L>,
    )
        requires ready { self.old.ready ≡ Some author }
        requires giver { author < accounts self.old.parts }
        requires taker { subject < accounts self.old.parts }
        requires others { author ≢ subject }
        requires fits { certs self.old.parts + graded level ≤ MOST_CERTS + graded (standing self.old.parts author subject) }
        ensures put { IsAfter (Certified (record { from = author; to = subject; level = level })) self.old.parts self.new.parts }
        ensures steps { steps.new ≡ steps.old + 1 }
    {
        let before = self.standing(author, subject);
        let cert = Cert {
            from: author,
            to: subject,
            level,
        };
        put_slot(&mut self.slots[(author.0 / 64) as usize], cert, steps);
        self.cert_count = counted(self.cert_count, before, level);
        self.ready = None;
    }

    /// Makes every block a shared one, and lends them once more, in order. At most a step a block. No block is ready then, whatever it answers.
    pub(crate) fn share<L: Ledger>(
        &mut self,
        steps: &mut Steps<L>,
    ) -> Result<Vec<Arc<Block>>, NoMemory>
        ensures same { self.new ≡ record self.old { ready = None } }
        ensures shared { IfOk result (λ blocks. shared_parts blocks.items ≡ self.old.parts) }
        ensures few { length self.old.parts ≤ parts_for (accounts self.old.parts) }
        ensures parts { AreParts self.old.parts }
        ensures steps { steps.new ≤ steps.old + length self.old.parts }
    {
        self.ready = None;
        self.spare = None;
        let alloc = *self.slots.allocator();
        share_all(alloc, &mut self.slots, steps)
    }
}

/// How many certificates stand once a pair's level changed.
fn counted(certs: u32, before: Level, after: Level) -> u32
    requires room { certs + graded after ≤ MOST_CERTS + graded before }
    requires some { graded before ≤ certs + graded after }
    ensures { result + graded before ≡ certs + graded after }
{
    match (before.is_grade(), after.is_grade()) {
        (false, true) => certs + 1,
        (true, false) => certs - 1,
        _ => certs,
    }
}

/// An empty block with room for an account. One step.
fn spare_block<L: Ledger>(alloc: Global, steps: &mut Steps<L>) -> Result<Block, NoMemory>
    ensures empty { IfOk result (λ b. b.part ≡ no_part) }
    ensures ready { IfOk result (λ b. b.has_room ≡ true) }
    ensures steps { steps.new ≡ steps.old + 1 }
{
    let mut block = Block::start(alloc, steps)?;
    block.reserve(0)?;
    Ok(block)
}

/// A block of the book's own, out of a spare one, with its first account. One step.
fn begun_slot<L: Ledger>(spare: Option<Block>, name: Name, steps: &mut Steps<L>) -> Slot
    requires { IsSpare spare }
    ensures part { slot_part result ≡ with_account no_part name }
    ensures held { HasBlock result }
    ensures steps { steps.new ≡ steps.old + 1 }
{
    match spare {
        Some(mut block) => {
            block.add_account(name, steps);
            Slot::Own(block)
        }
        None => unreachable!(),
    }
}
