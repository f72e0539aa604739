//! The book of certificates.

ghost use Rattle.std.specs.Prelude.{ℕ, List, ◌≡◌, ◌<◌, ◌≤◌, ◌+◌, ◌*◌, [], Some, None, All, IfOk, IfSome, IsSome, OnOk, OnErr, length, slice_get, slice_index, true};
ghost use Rattle.trust_types.specs.Changes.{Joined, Seeded, Unseeded, Certified, Tabled};
ghost use Rattle.trust_types.specs.Kept.{changes};
ghost use Rattle.trust_types.specs.Names.{IsName};
ghost use Rattle.trust_types.specs.NameLists.{number_of};
ghost use Rattle.trust_types.specs.Tables.{Table};
ghost use Rattle.trust_types.specs.declared.records.Record.{Record};
ghost use Rattle.frozen.specs.Sites.{parts_for};
ghost use Rattle.name_index.specs.Numbers.{AreNumbersOf};
ghost use Rattle.cert_book.specs.inner.Keeping.{written, HasRoomBeside};
ghost use Rattle.cert_book.specs.inner.Takings.{givers_of};
ghost use Rattle.cert_book.specs.Books.{book, book_of, Adds, IsAccount, given, taken, Follows, HasPlace, Freezes};
ghost use Rattle.cert_book.specs.Judged.{known, has_other_seed, judged_name, judged_seeding, judged_unseeding, judged_certifying, judged_join, judged_seed, judged_unseed, judged_cert, judged_table};

use crate::blocks::Blocks;
use crate::judging::{CertFault, fault_if, fault_unless};
use crate::rooms::Room;
use crate::takings::Takings;
use frozen::Frozen;
use name_index::NameNumbers;
use std::alloc::Global;
use std::marker::Model;
use std::sync::Arc;
use std::sync::ledger::Ledger;
use trust_types::{
    AccountNo, Caps, Cert, Level, MOST_ACCOUNTS, MOST_CERTS, Name, NoMemory, Steps, Text,
};

/// A site's memory of its certificates: the accounts, which of them are seeds, who stands certified by whom, and the capacity table in force.
/// Contracts see the revision that it stands at, and for which addition there is room.
///
/// What it says is a function of the changes that were added, and of the table with which it began ([`CertBook::new`]). A change is first judged,
/// then room is made for it (`reserve`), and then it is added, which takes no memory and cannot fail. The accounts lie in blocks of 64. Frozen
/// graphs take these over, and a block that they share is copied before it is next written.
#[derive(Drop)]
pub struct CertBook {
    caps: Caps,
    revision: u32,
    blocks: Blocks,
    numbers: NameNumbers,
    takings: Takings,
    seed_count: u32,
    room: Option<Room>,
}

impl Model for CertBook {
    ghost use Rattle.std.specs.Prelude.{IfSome};
    ghost use Rattle.frozen.specs.Revision.{revision_of};
    ghost use Rattle.cert_book.specs.Books.{Held};
    ghost use Rattle.cert_book.specs.inner.Keeping.{AreKept, HasRoom};

    ghost Value = { Held };

    ghost view = { λ b. record { revision = revision_of b.revision b.caps b.blocks.parts; room = b.room } };

    ghost invariant = { λ b. record {
      kept : AreKept b.blocks.parts b.numbers b.takings b.seed_count;
      room : IfSome b.room (λ room. HasRoom room b.blocks b.numbers b.takings);
    } };
}

impl CertBook {
    /// The book of a site that begins with that table, without accounts. It takes no memory.
    pub fn new(alloc: Global, caps: Caps) -> CertBook
        ensures book { book result ≡ book_of caps [] }
        ensures room { result.room ≡ None }
    {
        CertBook {
            caps,
            revision: 0,
            blocks: Blocks::new(alloc),
            numbers: NameNumbers::new(alloc),
            takings: Takings::new(alloc),
            seed_count: 0,
            room: None,
        }
    }

    /// The capacity table in force.
    pub fn table(&self) -> &Caps
        ensures { result.now ≡ (book self.now).table }
    {
        &self.caps
    }

    /// How many accounts there are, up to [`MOST_ACCOUNTS`].
    pub fn accounts(&self) -> u32
        ensures value { result ≡ length (book self.now).names }
        ensures named { All IsName (book self.now).names }
        ensures few { result ≤ MOST_ACCOUNTS }
    {
        self.blocks.accounts()
    }

    /// How many certificates stand, up to [`MOST_CERTS`].
    pub fn certs(&self) -> u32
        ensures value { result ≡ (book self.now).certs }
        ensures few { result ≤ MOST_CERTS }
    {
        self.blocks.certs()
    }

    /// The number of the revision: how many changes were added.
    pub fn revision(&self) -> u32
        ensures { result ≡ (book self.now).revision }
    {
        self.revision
    }

    /// The account of that name; `None` where none has it. It looks the name up as [`NameNumbers`] does.
    pub fn find(&self, name: &Name) -> Option<AccountNo>
        ensures number { result ≡ number_of (book self.now).names name.now }
        ensures account { IfSome result (IsAccount (book self.now)) }
    {
        match self.numbers.find(name) {
            Some(number) => Some(AccountNo(number)),
            None => None,
        }
    }

    /// The name of an account.
    pub fn name(&self, account: AccountNo) -> Name
        requires { IsAccount (book self.now) account }
        ensures { slice_get (book self.now).names account ≡ Some result }
    {
        self.blocks.block(account).name(account.0 % 64)
    }

    /// Whether an account is a seed.
    pub fn is_seed(&self, account: AccountNo) -> bool
        requires { IsAccount (book self.now) account }
        ensures { result ≡ (book self.now).is_seed account }
    {
        self.blocks.block(account).is_seed(account.0 % 64)
    }

    /// The level at which one account stands certified by another; Observer where it isn't. It looks at no more than the logarithm of the
    /// certificates that `from` gives.
    pub fn standing(&self, from: AccountNo, to: AccountNo) -> Level
        requires { IsAccount (book self.now) from }
        ensures { result ≡ (book self.now).standing from to }
    {
        self.blocks.standing(from, to)
    }

    /// How many accounts stand certified by this one.
    pub fn given_count(&self, account: AccountNo) -> u32
        requires { IsAccount (book self.now) account }
        ensures { result ≡ length (given (book self.now) account) }
    {
        self.blocks.block(account).degree(account.0 % 64)
    }

    /// The i-th certificate that an account gives, counted from 0, in rising order of taker.
    pub fn given(&self, account: AccountNo, i: u32) -> Cert
        requires account { IsAccount (book self.now) account }
        requires within { i < length (given (book self.now) account) }
        ensures { slice_get (given (book self.now) account) i ≡ Some result }
    {
        self.blocks.block(account).given(account.0 % 64, i)
    }

    /// How many accounts certify this one.
    pub fn taken_count(&self, account: AccountNo) -> u32
        requires { IsAccount (book self.now) account }
        ensures { result ≡ length (taken (book self.now) account) }
    {
        self.givers(account).len() as u32
    }

    /// The i-th certificate that an account has taken, counted from 0, in rising order of giver. Its level is looked up as by `standing`.
    pub fn taken(&self, account: AccountNo, i: u32) -> Cert
        requires account { IsAccount (book self.now) account }
        requires within { i < length (taken (book self.now) account) }
        ensures { slice_get (taken (book self.now) account) i ≡ Some result }
    {
        let from = self.givers(account)[i as usize];
        Cert {
            from,
            to: account,
            level: self.standing(from, account),
        }
    }

    /// Who certifies an account, in rising order.
    fn givers(&self, account: AccountNo) -> &[AccountNo]
        requires { IsAccount (book self.now) account }
        ensures count { length result.now ≡ length (taken (book self.now) account) }
        ensures each { (i : ℕ) → i < length result.now → slice_get (taken (book self.now) account) i ≡
            Some (record { from = slice_index result.now i; to = account; level = (book self.now).standing (slice_index result.now i) account }) }
        ensures accounts { (i : ℕ) → i < length result.now → IsAccount (book self.now) (slice_index result.now i) }
        ensures few { length result.now ≤ MOST_ACCOUNTS }
    {
        // The contract of this one tells that the blocks are those of a site.
        let _accounts = self.blocks.accounts();
        self.takings.of(account)
    }

    /// The account whose name the word is.
    ///
    /// # Errors
    /// [`CertFault::NoSuchAccount`] exactly where there is none.
    pub fn known(&self, word: &Text) -> Result<AccountNo, CertFault>
        ensures known { result ≡ known (book self.now) word.now }
        ensures account { IfOk result (IsAccount (book self.now)) }
    {
        // The contract of this one tells that no account has a word that is no name.
        let _accounts = self.accounts();
        let Some(name) = Name::read(word.as_str().as_bytes()) else {
            return Err(CertFault::NoSuchAccount);
        };
        match self.find(&name) {
            Some(account) => Ok(account),
            None => Err(CertFault::NoSuchAccount),
        }
    }

    /// Whether an account of that name may join. It takes no memory.
    ///
    /// # Errors
    /// The first that applies: [`CertFault::NameTaken`] with the account that has the name, [`CertFault::AccountsFull`].
    pub fn judge_name(&self, name: &Name) -> Result<(), CertFault>
        ensures judged { result ≡ judged_name (book self.now) name.now }
        ensures follows { OnOk result (Follows (book self.now) (Joined name.now)) }
        ensures place { OnOk result (HasPlace (book self.now) (Joined name.now)) }
    {
        if let Some(account) = self.find(name) {
            return Err(CertFault::NameTaken(account));
        }
        fault_if(self.accounts() >= MOST_ACCOUNTS, CertFault::AccountsFull)
    }

    /// Whether an account may become a seed. It takes no memory.
    ///
    /// # Errors
    /// [`CertFault::Same`] exactly where it is one.
    pub fn judge_seeding(&self, subject: AccountNo) -> Result<(), CertFault>
        requires { IsAccount (book self.now) subject }
        ensures judged { result ≡ judged_seeding (book self.now) subject }
        ensures follows { OnOk result (Follows (book self.now) (Seeded subject)) }
    {
        fault_if(self.is_seed(subject), CertFault::Same)
    }

    /// Whether an account may be a seed no more. It takes no memory.
    ///
    /// # Errors
    /// The first that applies: [`CertFault::NotSeed`] where it is none, [`CertFault::LastSeed`] where no other account is one.
    pub fn judge_unseeding(&self, subject: AccountNo) -> Result<(), CertFault>
        requires { IsAccount (book self.now) subject }
        ensures judged { result ≡ judged_unseeding (book self.now) subject }
        ensures follows { OnOk result (Follows (book self.now) (Unseeded subject)) }
    {
        fault_unless(self.is_seed(subject), CertFault::NotSeed)?;
        fault_unless(self.has_other_seed(subject), CertFault::LastSeed)
    }

    /// Whether some account is a seed beside one that is.
    fn has_other_seed(&self, seed: AccountNo) -> bool
        requires account { IsAccount (book self.now) seed }
        requires seed { (book self.now).is_seed seed ≡ true }
        ensures { result ≡ has_other_seed (book self.now) seed }
    {
        self.seed_count > 1
    }

    /// Whether one account may certify another at a level, or at Observer certify it no more. It takes no memory.
    ///
    /// # Errors
    /// The first that applies: [`CertFault::SelfCert`], [`CertFault::NoSuchLevel`] with the number of levels of the table in force where that hasn't
    /// the level, [`CertFault::Same`] where it stands certified at just that level, [`CertFault::CertsFull`] where [`MOST_CERTS`] stand and the pair
    /// is new.
    pub fn judge_certifying(&self, cert: &Cert) -> Result<(), CertFault>
        requires author { IsAccount (book self.now) cert.now.from }
        requires subject { IsAccount (book self.now) cert.now.to }
        ensures judged { result ≡ judged_certifying (book self.now) cert.now }
        ensures follows { OnOk result (Follows (book self.now) (Certified cert.now)) }
        ensures place { OnOk result (HasPlace (book self.now) (Certified cert.now)) }
    {
        fault_if(cert.from.0 == cert.to.0, CertFault::SelfCert)?;
        fault_unless(
            self.caps.has(cert.level),
            CertFault::NoSuchLevel(self.caps.levels()),
        )?;
        let stands = self.standing(cert.from, cert.to);
        fault_if(cert.level.rank() == stands.rank(), CertFault::Same)?;
        fault_if(
            self.certs() >= MOST_CERTS && !stands.is_grade(),
            CertFault::CertsFull,
        )
    }

    /// Judges a new account by its word. Accepted, it is the account's name. It takes no memory.
    ///
    /// # Errors
    /// The first that applies: [`CertFault::BadName`] where the word is no name, and then those of [`CertBook::judge_name`].
    pub fn judge_join(&self, name: &Text) -> Result<Name, CertFault>
        ensures judged { result ≡ judged_join (book self.now) name.now }
        ensures follows { IfOk result (λ name. Follows (book self.now) (Joined name)) }
        ensures place { IfOk result (λ name. HasPlace (book self.now) (Joined name)) }
    {
        let Some(name) = Name::read(name.as_str().as_bytes()) else {
            return Err(CertFault::BadName);
        };
        self.judge_name(&name)?;
        Ok(name)
    }

    /// Judges an account by its name, that it become a seed. Accepted, it is the account. It takes no memory.
    ///
    /// # Errors
    /// The first that applies: [`CertFault::NoSuchAccount`], and then [`CertFault::Same`] where it is one.
    pub fn judge_seed(&self, subject: &Text) -> Result<AccountNo, CertFault>
        ensures judged { result ≡ judged_seed (book self.now) subject.now }
        ensures follows { IfOk result (λ a. Follows (book self.now) (Seeded a)) }
    {
        let account = self.known(subject)?;
        self.judge_seeding(account)?;
        Ok(account)
    }

    /// Judges an account by its name, that it be a seed no more. Accepted, it is the account. It takes no memory.
    ///
    /// # Errors
    /// The first that applies: [`CertFault::NoSuchAccount`], and then those of [`CertBook::judge_unseeding`].
    pub fn judge_unseed(&self, subject: &Text) -> Result<AccountNo, CertFault>
        ensures judged { result ≡ judged_unseed (book self.now) subject.now }
        ensures follows { IfOk result (λ a. Follows (book self.now) (Unseeded a)) }
    {
        let account = self.known(subject)?;
        self.judge_unseeding(account)?;
        Ok(account)
    }

    /// Judges an account by its name, that the author certify it at a level. Accepted, it is the account. It takes no memory.
    ///
    /// # Errors
    /// The first that applies: [`CertFault::NoSuchAccount`], and then those of [`CertBook::judge_certifying`].
    pub fn judge_cert(
        &self,
        author: AccountNo,
        subject: &Text,
        level: Level,
    ) -> Result<AccountNo, CertFault>
        requires { IsAccount (book self.now) author }
        ensures judged { result ≡ judged_cert (book self.now) author subject.now level }
        ensures follows { IfOk result (λ a. Follows (book self.now) (Certified (record { from = author; to = a; level = level }))) }
        ensures place { IfOk result (λ a. HasPlace (book self.now) (Certified (record { from = author; to = a; level = level }))) }
    {
        let account = self.known(subject)?;
        self.judge_certifying(&Cert {
            from: author,
            to: account,
            level,
        })?;
        Ok(account)
    }

    /// Judges another table. It takes no memory.
    ///
    /// # Errors
    /// The first that applies: [`CertFault::LevelsFall`] with the number of levels of the table in force where the new one has fewer,
    /// [`CertFault::Same`] where it is the one in force.
    pub fn judge_table(&self, caps: &Caps) -> Result<(), CertFault>
        ensures judged { result ≡ judged_table (book self.now) caps.now }
        ensures follows { OnOk result (Follows (book self.now) (Tabled caps.now)) }
    {
        fault_if(
            caps.levels() < self.caps.levels(),
            CertFault::LevelsFall(self.caps.levels()),
        )?;
        fault_if(
            caps.levels() == self.caps.levels() && caps.entries() == self.caps.entries(),
            CertFault::Same,
        )
    }

    /// Makes room for one addition: a join where neither account is given, a seed or its withdrawal where the subject alone is, a certificate where
    /// both are, and a table in each case. Room that was reserved before is given up. What the book says stays, whatever it answers.
    ///
    /// It copies the one block that the addition writes where frozen graphs share it, and no other: that is a step an account and a certificate of
    /// 64 accounts.
    ///
    /// # Errors
    /// [`NoMemory`] where there isn't enough. There is no room then.
    pub fn reserve<L: Ledger>(
        &mut self,
        author: Option<AccountNo>,
        subject: Option<AccountNo>,
        steps: &mut Steps<L>,
    ) -> Result<(), NoMemory>
        requires author { IfSome author (IsAccount (book self.old)) }
        requires subject { IfSome subject (IsAccount (book self.old)) }
        ensures room { OnOk result (self.new.room ≡ Some (record { author = author; subject = subject })) }
        ensures none { OnErr result (self.new.room ≡ None) }
        ensures same { self.new.revision ≡ self.old.revision }
        // A block that can be written already is copied no more.
        ensures steps { steps.new ≤ steps.old + (65 + (book self.old).certs) }
        ensures again { IsSome subject → self.old.room ≡ Some (record { author = author; subject = subject }) → steps.new ≡ steps.old }
    {
        self.room = None;
        reserve_beside(&author, &subject, &mut self.numbers, &mut self.takings)?;
        let account = written(self.blocks.accounts(), &author, &subject);
        self.blocks.reserve(account, steps)?;
        self.room = Some(Room { author, subject });
        Ok(())
    }

    /// Adds an account, and answers its number, the next one. It takes no memory and cannot fail. One step.
    pub fn add_join<L: Ledger>(&mut self, name: Name, steps: &mut Steps<L>) -> AccountNo
        requires room { self.old.room ≡ Some (record { author = None; subject = None }) }
        requires follows { Follows (book self.old) (Joined name) }
        requires place { HasPlace (book self.old) (Joined name) }
        requires short { (book self.old).revision < 4_294_967_295 }
        ensures account { result ≡ length (book self.old).names }
        ensures added { Adds (book self.old) (book self.new) (Joined name) }
        ensures revision { (book self.new).revision ≡ (book self.old).revision + 1 }
        ensures room { self.new.room ≡ None }
        ensures steps { steps.new ≡ steps.old + 1 }
    {
        // The contract of this one tells that its bytes are a name.
        let _bytes = name.bytes();
        let account = self.blocks.join(name, steps);
        self.numbers.push(&name, account.0);
        self.takings.push_list();
        self.revision += 1;
        self.room = None;
        account
    }

    /// Makes an account a seed. It takes no memory and cannot fail. No step.
    pub fn add_seed<L: Ledger>(&mut self, subject: AccountNo, steps: &mut Steps<L>)
        requires room { self.old.room ≡ Some (record { author = None; subject = Some subject }) }
        requires follows { Follows (book self.old) (Seeded subject) }
        requires short { (book self.old).revision < 4_294_967_295 }
        ensures added { Adds (book self.old) (book self.new) (Seeded subject) }
        ensures revision { (book self.new).revision ≡ (book self.old).revision + 1 }
        ensures room { self.new.room ≡ None }
        ensures steps { steps.new ≡ steps.old }
    {
        let _ = steps;
        self.blocks.mark(subject, true);
        self.seed_count += 1;
        self.revision += 1;
        self.room = None;
    }

    /// Makes an account a seed no more. It takes no memory and cannot fail.
    pub fn add_unseed(&mut self, subject: AccountNo)
        requires room { self.old.room ≡ Some (record { author = None; subject = Some subject }) }
        requires follows { Follows (book self.old) (Unseeded subject) }
        requires short { (book self.old).revision < 4_294_967_295 }
        ensures added { Adds (book self.old) (book self.new) (Unseeded subject) }
        ensures revision { (book self.new).revision ≡ (book self.old).revision + 1 }
        ensures room { self.new.room ≡ None }
    {
        self.blocks.mark(subject, false);
        self.seed_count -= 1;
        self.revision += 1;
        self.room = None;
    }

    /// Adds a certificate, in place of the one that stands for the pair; at Observer none does then. It takes no memory and cannot fail. One step.
    ///
    /// It looks at the logarithm of what the author gives and the subject has taken. Where the pair is new, or stands no more, it moves what lies
    /// behind in the author's block and in the subject's list.
    pub fn add_cert<L: Ledger>(
        &mut self,
        author: AccountNo,
        subject: AccountNo,
        level: Level,
        steps: &mut Steps<L>,
    )
        requires room { self.old.room ≡ Some (record { author = Some author; subject = Some subject }) }
        requires follows { Follows (book self.old) (Certified (record { from = author; to = subject; level = level })) }
        requires place { HasPlace (book self.old) (Certified (record { from = author; to = subject; level = level })) }
        requires short { (book self.old).revision < 4_294_967_295 }
        ensures added { Adds (book self.old) (book self.new) (Certified (record { from = author; to = subject; level = level })) }
        ensures revision { (book self.new).revision ≡ (book self.old).revision + 1 }
        ensures room { self.new.room ≡ None }
        ensures steps { steps.new ≡ steps.old + 1 }
    {
        self.blocks.put(author, subject, level, steps);
        self.takings.set(subject, author, level.is_grade());
        self.revision += 1;
        self.room = None;
    }

    /// Puts another table in force. It takes no memory and cannot fail.
    pub fn add_table(&mut self, caps: Caps)
        requires room { IsSome self.old.room }
        requires follows { Follows (book self.old) (Tabled caps) }
        requires short { (book self.old).revision < 4_294_967_295 }
        ensures added { Adds (book self.old) (book self.new) (Tabled caps) }
        ensures revision { (book self.new).revision ≡ (book self.old).revision + 1 }
        ensures room { self.new.room ≡ None }
    {
        self.caps = caps;
        self.revision += 1;
        self.room = None;
    }

    /// The graph as it is now, under the number of its revision, with the table in force. It takes over every block and copies none: at most two
    /// steps a block, and one more. There is no room then, whatever it answers. The graph never changes: the book copies a block that is shared
    /// before it next writes it.
    ///
    /// # Errors
    /// [`NoMemory`] where there isn't enough for it, and for no other cause. What the book says stays.
    pub fn freeze<L: Ledger>(&mut self, steps: &mut Steps<L>) -> Result<Arc<Frozen>, NoMemory>
        ensures frozen { IfOk result (λ f. f.value ≡ self.old.revision) }
        ensures records { IfOk result (λ f. (opening : Table) (k : List Record) → book self.old ≡ book_of opening (changes k) → Freezes opening k f.value) }
        ensures same { self.new ≡ record self.old { room = None } }
        ensures steps { steps.new ≤ steps.old + (2 * parts_for (length (book self.old).names) + 1) }
    {
        self.room = None;
        let alloc = self.blocks.allocator();
        let blocks = self.blocks.share(steps)?;
        Frozen::of_blocks(alloc, self.revision, self.caps, &blocks, steps)
    }
}

/// The account whose block an addition writes, of so many accounts.
fn written(accounts: u32, author: &Option<AccountNo>, subject: &Option<AccountNo>) -> u32
    ensures { result ≡ written accounts author.now subject.now }
{
    match (author, subject) {
        (Some(author), _) => author.0,
        (None, Some(subject)) => subject.0,
        (None, None) => accounts,
    }
}

/// Makes room beside the blocks for one addition that touches these accounts.
fn reserve_beside(
    author: &Option<AccountNo>,
    subject: &Option<AccountNo>,
    numbers: &mut NameNumbers,
    takings: &mut Takings,
) -> Result<(), NoMemory>
    requires { IfSome subject.now (λ b. b < length takings.old.lists) }
    ensures room { OnOk result (HasRoomBeside author.now subject.now numbers.new takings.new) }
    ensures numbers { (names : List (List ℕ)) → AreNumbersOf names numbers.old.entries → AreNumbersOf names numbers.new.entries }
    ensures long { length takings.new.lists ≡ length takings.old.lists }
    ensures takings { (b : ℕ) → givers_of takings.new b ≡ givers_of takings.old b }
{
    match (author, subject) {
        (None, None) => {
            numbers.reserve()?;
            Ok(takings.reserve_list()?)
        }
        (Some(_), Some(subject)) => Ok(takings.reserve(*subject)?),
        _ => Ok(()),
    }
}
