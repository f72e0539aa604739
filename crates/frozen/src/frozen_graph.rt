//! Frozen graphs.

ghost use Rattle.std.specs.Prelude.{◌≡◌, ◌<◌, ◌≤◌, ◌+◌, ◌*◌, ◌%◌, ℕ, length, vec_len, slice_get, slice_index, slice_index_or, All, IfOk, OnOk, Some};
ghost use Rattle.trust_types.specs.declared.levels.Level.TheVariants.{Observer};
ghost use Rattle.trust_types.specs.Certs.{CanStand};
ghost use Rattle.trust_types.specs.NameLists.{AreApart, number_of};
ghost use Rattle.trust_types.specs.Sum.{sum_below};
ghost use Rattle.frozen.specs.Parts.{count, degree_in, giver_in};
ghost use Rattle.frozen.specs.Sites.{AreParts, certs, degree, taker, level_given, part_of, parts_for, shared_parts};
ghost use Rattle.frozen.specs.Revision.{Freezes, certificates, revision_of};

use crate::blocks::Block;
use crate::making::blocks_of;
use std::alloc::Global;
use std::marker::Model;
use std::sync::Arc;
use std::sync::ledger::Ledger;
use trust_types::{
    AccountNo, Caps, Cert, CertGraph, CertList, Level, MOST_ACCOUNTS, MOST_CERTS, Name, NoMemory,
    Steps,
};

/// One revision of a site: its accounts, seeds and standing certificates, with the capacity table. It never changes, and is
/// shared. The accounts lie in blocks of 64, which other revisions may have too.
#[derive(Drop)]
pub struct Frozen {
    revision: u32,
    caps: Caps,
    account_count: u32,
    cert_count: u32,
    blocks: Vec<Arc<Block>>,
}

impl Model for Frozen {
    ghost use Rattle.std.specs.Prelude.{◌≡◌};
    ghost use Rattle.frozen.specs.Sites.{AreParts, accounts, certs, shared_parts};
    ghost use Rattle.frozen.specs.Revision.{Revision, revision_of};

    ghost Value = { Revision };

    ghost view = { λ f. revision_of f.revision f.caps (shared_parts f.blocks.items) };

    ghost invariant = { λ f. AreParts (shared_parts f.blocks.items) × (f.account_count ≡ accounts (shared_parts f.blocks.items)) × (f.cert_count ≡ certs (shared_parts f.blocks.items)) };
}

impl Frozen {
    /// Freezes accounts by their names, seeds and standing certificates under a revision's number. It makes a plain graph of them and
    /// copies its rows into blocks, in time in proportion to their number. One step, one more an account and a certificate, and three
    /// more a block; no more than that where memory runs out.
    ///
    /// # Errors
    /// [`NoMemory`] where there isn't enough for the blocks, and for no other cause.
    pub fn of<L: Ledger>(
        alloc: Global,
        revision: u32,
        caps: Caps,
        names: Vec<Name>,
        seeds: Vec<AccountNo>,
        certs: Vec<Cert>,
        steps: &mut Steps<L>,
    ) -> Result<Arc<Frozen>, NoMemory>
        requires few { vec_len names ≤ MOST_ACCOUNTS }
        requires apart { AreApart names.items }
        requires seeds { All (λ a. a < vec_len names) seeds.items }
        requires certs { CanStand (vec_len names) certs.items }
        ensures frozen { IfOk result (λ f. Freezes f.value revision caps names.items seeds.items certs.items) }
        ensures steps { OnOk result (steps.new ≡ steps.old + (vec_len names + vec_len certs + (3 * parts_for (vec_len names) + 1))) }
        ensures at_most { steps.new ≤ steps.old + (vec_len names + vec_len certs + (3 * parts_for (vec_len names) + 1)) }
    {
        let graph = CertList::of(alloc, names.len() as u32, seeds, certs)?;
        // The contracts of these two tell how the graph is laid out, and what it says past its accounts.
        let _certs = graph.certs();
        let _accounts = graph.accounts();
        let blocks = blocks_of(alloc, &graph, &names, steps)?;
        Frozen::of_blocks(alloc, revision, caps, &blocks, steps)
    }

    /// Freezes what blocks hold under a revision's number. The blocks are taken over and not copied, in their order, and stay as they are.
    /// One step, and one more a block; no more than that where memory runs out.
    ///
    /// # Errors
    /// [`NoMemory`] where there isn't enough for the list of the blocks, and for no other cause.
    pub fn of_blocks<L: Ledger>(
        alloc: Global,
        revision: u32,
        caps: Caps,
        blocks: &[Arc<Block>],
        steps: &mut Steps<L>,
    ) -> Result<Arc<Frozen>, NoMemory>
        requires { AreParts (shared_parts blocks.now) }
        ensures frozen { IfOk result (λ f. f.value ≡ revision_of revision caps (shared_parts blocks.now)) }
        ensures steps { OnOk result (steps.new ≡ steps.old + (1 + length blocks.now)) }
        ensures at_most { steps.new ≤ steps.old + (1 + length blocks.now) }
    {
        steps.tick();
        let mut shared = Vec::with_capacity(alloc, blocks.len())?;
        let mut accounts = 0;
        let mut certs = 0;
        for block in blocks {
            steps.tick();
            accounts += block.accounts();
            certs += block.certs();
            shared.push_reserved(block.clone()?);
        }
        Ok(Arc::new(
            alloc,
            Frozen {
                revision,
                caps,
                account_count: accounts,
                cert_count: certs,
                blocks: shared,
            },
        )?)
    }

    /// The revision's number.
    pub fn revision(&self) -> u32
        ensures { result ≡ self.now.number }
    {
        self.revision
    }

    /// The capacity table.
    pub fn caps(&self) -> &Caps
        ensures { result.now ≡ self.now.caps }
    {
        &self.caps
    }

    /// The block that has an account, in the row of the account's number modulo 64.
    pub fn block(&self, account: AccountNo) -> &Block
        requires { account < (certificates self.now).accounts }
        ensures part { result.now.part ≡ part_of self.now.parts account }
        ensures row { account % 64 < count result.now.part }
        ensures own { 0 < degree_in result.now.part (account % 64) → giver_in result.now.part (account % 64) ≡ account }
        ensures named { slice_get self.now.names account ≡ slice_get result.now.part.names (account % 64) }
    {
        &self.blocks[(account.0 / 64) as usize]
    }

    /// Whom an account certifies, in rising order.
    pub fn takers(&self, account: AccountNo) -> &[AccountNo]
        requires { account < (certificates self.now).accounts }
        ensures count { length result.now ≡ degree self.now.parts account }
        ensures each { (i : ℕ) → i < degree self.now.parts account → slice_index result.now i ≡ taker self.now.parts account i }
    {
        self.block(account).takers(account.0 % 64)
    }

    /// At which levels an account certifies, in rising order of taker.
    pub fn levels(&self, account: AccountNo) -> &[Level]
        requires { account < (certificates self.now).accounts }
        ensures count { length result.now ≡ degree self.now.parts account }
        ensures each { (i : ℕ) → i < degree self.now.parts account → slice_index_or result.now i Observer ≡ level_given self.now.parts account i }
    {
        self.block(account).levels(account.0 % 64)
    }

    /// The name of an account.
    pub fn name(&self, account: AccountNo) -> Name
        requires { account < (certificates self.now).accounts }
        ensures { slice_get self.now.names account ≡ Some result }
    {
        self.block(account).name(account.0 % 64)
    }

    /// The account of that name; `None` where none has it. It looks through the names in order: where many are looked up, make an
    /// index of them.
    pub fn find(&self, name: &Name) -> Option<AccountNo>
        ensures { result ≡ number_of self.now.names name.now }
    {
        let count = self.account_count;
        for account in 0..count {
            if self.name(AccountNo(account)) == *name {
                return Some(AccountNo(account));
            }
        }
        None
    }

    /// How many certificates stand, of all that the accounts give. There are at most [`MOST_CERTS`].
    pub fn certs(&self) -> u32
        ensures value { result ≡ certs self.now.parts }
        ensures sum { result ≡ sum_below (certificates self.now).accounts (degree self.now.parts) }
        ensures few { result ≤ MOST_CERTS }
    {
        self.cert_count
    }
}

impl CertGraph for Frozen {
    ghost use Rattle.trust_types.specs.Rows.{GivesEachOnce};
    ghost use Rattle.trust_types.specs.declared.levels.Level.TheVariants.{Observer};
    ghost use Rattle.std.specs.Prelude.{false};
    ghost use Rattle.frozen.specs.Sites.{degree, given};
    ghost use Rattle.frozen.specs.Revision.{certificates};

    ghost certificates = { certificates };

    ghost degree_of = { λ r. degree r.parts };

    ghost cert_of = { λ r. given r.parts };

    /// At most [`MOST_ACCOUNTS`].
    fn accounts(&self) -> u32
        ensures value { result ≡ (certificates self.now).accounts }
        ensures readers { GivesEachOnce (certificates self.now) (degree self.now.parts) (given self.now.parts) }
        ensures named { length self.now.names ≡ result }
        ensures apart { AreApart self.now.names }
        ensures outside { (a b : ℕ) → result ≤ a → (certificates self.now).standing a b ≡ Observer }
        ensures no_seeds { (a : ℕ) → result ≤ a → (certificates self.now).is_seed a ≡ false }
        ensures few { result ≤ MOST_ACCOUNTS }
    {
        self.account_count
    }

    fn is_seed(&self, account: AccountNo) -> bool {
        self.block(account).is_seed(account.0 % 64)
    }

    fn degree(&self, account: AccountNo) -> u32 {
        self.block(account).degree(account.0 % 64)
    }

    fn given(&self, account: AccountNo, i: u32) -> Cert {
        self.block(account).given(account.0 % 64, i)
    }
}
