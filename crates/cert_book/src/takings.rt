//! Who certifies whom, by account that is certified.

ghost use Rattle.std.specs.Prelude.{ℕ, ◌≡◌, ◌≢◌, ◌<◌, ◌≤◌, ◌+◌, ◌++◌, ◌∷◌, [], OnOk, MatchResult, vec_len, vec_capacity, insert, length, true, false, if◌then◌else◌, ◌==◌};
ghost use Rattle.cert_book.specs.inner.Takings.{givers_of, room_at, has, Rises, IsFound, IsPlace};

use std::alloc::{AllocError, Global};
use std::marker::Model;
use trust_types::AccountNo;

/// The accounts that certify one. Contracts see the list of them, which rises, and how many more fit before memory is taken.
#[derive(Drop)]
struct Givers {
    accounts: Vec<AccountNo>,
}

impl Model for Givers {
    ghost use Rattle.std.specs.Prelude.{◌-◌, vec_len, vec_capacity};
    ghost use Rattle.cert_book.specs.inner.Takings.{Givers, Rises};

    ghost Value = { Givers };

    ghost view = { λ givers. record { accounts = givers.accounts.items; room = vec_capacity givers.accounts - vec_len givers.accounts } };

    ghost invariant = { λ givers. Rises givers.accounts.items };
}

impl Givers {
    /// None. It takes no memory.
    fn new(alloc: Global) -> Givers
        ensures { result.accounts ≡ [] }
    {
        Givers {
            accounts: Vec::new(alloc),
        }
    }

    fn accounts(&self) -> &[AccountNo]
        ensures value { result.now ≡ self.now.accounts }
        ensures rises { Rises result.now }
    {
        &self.accounts
    }

    /// Makes room for one more.
    fn reserve(&mut self) -> Result<(), AllocError>
        ensures room { OnOk result (0 < self.new.room) }
        ensures same { self.new.accounts ≡ self.old.accounts }
    {
        self.accounts.reserve(1)
    }

    /// Has the giver among them from now on, or not. It looks at the logarithm of their number, and moves those behind where their number changes.
    fn set(&mut self, giver: AccountNo, gives: bool)
        requires { 0 < self.old.room }
        ensures { (a : ℕ) → has self.new.accounts a ≡ (if a == giver then gives else has self.old.accounts a) }
    {
        match self.search(giver) {
            Ok(place) => {
                if !gives {
                    self.remove(place, giver);
                }
            }
            Err(place) => {
                if gives {
                    self.insert(place, giver);
                }
            }
        }
    }

    /// Where the giver stands, or else where it would.
    fn search(&self, giver: AccountNo) -> Result<usize, usize>
        ensures { MatchResult result (λ place. IsFound self.now.accounts giver place) (λ place. IsPlace self.now.accounts giver place) }
    {
        self.accounts.binary_search(&giver)
    }

    /// One more, in its place.
    fn insert(&mut self, place: usize, giver: AccountNo)
        requires room { 0 < self.old.room }
        requires place { IsPlace self.old.accounts giver place }
        ensures { (a : ℕ) → has self.new.accounts a ≡ (if a == giver then true else has self.old.accounts a) }
    {
        insert_reserved(&mut self.accounts, place, giver);
    }

    /// One less.
    fn remove(&mut self, place: usize, giver: AccountNo)
        requires { IsFound self.old.accounts giver place }
        ensures { (a : ℕ) → has self.new.accounts a ≡ (if a == giver then false else has self.old.accounts a) }
    {
        self.accounts.remove(place);
    }
}

/// Inserts an account where there is room for it.
fn insert_reserved(accounts: &mut Vec<AccountNo>, place: usize, account: AccountNo)
    requires room { vec_len accounts.old < vec_capacity accounts.old }
    requires within { place ≤ vec_len accounts.old }
    ensures { accounts.new.items ≡ insert accounts.old.items place account }
{
    let _ = accounts.insert(place, account);
}

/// A list of givers for each account. Contracts see the lists, and how many more fit before memory is taken.
#[derive(Drop)]
pub(crate) struct Takings {
    lists: Vec<Givers>,
}

impl Model for Takings {
    ghost use Rattle.std.specs.Prelude.{◌-◌, vec_len, vec_capacity};
    ghost use Rattle.cert_book.specs.inner.Takings.{Takings};

    ghost Value = { Takings };

    ghost view = { λ takings. record { lists = takings.lists.items; room = vec_capacity takings.lists - vec_len takings.lists } };
}

impl Takings {
    /// Those of no accounts. It takes no memory.
    pub(crate) fn new(alloc: Global) -> Takings
        ensures { result.lists ≡ [] }
    {
        Takings {
            lists: Vec::new(alloc),
        }
    }

    /// Who certifies an account, in rising order.
    pub(crate) fn of(&self, account: AccountNo) -> &[AccountNo]
        requires { account < length self.now.lists }
        ensures value { result.now ≡ givers_of self.now account }
        ensures rises { Rises result.now }
    {
        let givers = &self.lists[account.index()];
        givers.accounts()
    }

    /// Makes room for the list of one more account.
    pub(crate) fn reserve_list(&mut self) -> Result<(), AllocError>
        ensures room { OnOk result (0 < self.new.room) }
        ensures same { self.new.lists ≡ self.old.lists }
    {
        self.lists.reserve(1)
    }

    /// Adds the list of one more account, whom nobody certifies yet. It takes no memory.
    pub(crate) fn push_list(&mut self)
        requires { 0 < self.old.room }
        ensures long { length self.new.lists ≡ length self.old.lists + 1 }
        ensures same { (b : ℕ) → givers_of self.new b ≡ givers_of self.old b }
    {
        let alloc = *self.lists.allocator();
        self.lists.push_reserved(Givers::new(alloc));
    }

    /// Makes room for one more who certifies an account.
    pub(crate) fn reserve(&mut self, account: AccountNo) -> Result<(), AllocError>
        requires { account < length self.old.lists }
        ensures room { OnOk result (0 < room_at self.new account) }
        ensures long { length self.new.lists ≡ length self.old.lists }
        ensures same { (b : ℕ) → givers_of self.new b ≡ givers_of self.old b }
    {
        let givers = &mut self.lists[account.index()];
        givers.reserve()
    }

    /// Has the giver among those who certify an account from now on, or not. It takes no memory.
    pub(crate) fn set(&mut self, account: AccountNo, giver: AccountNo, gives: bool)
        requires account { account < length self.old.lists }
        requires room { 0 < room_at self.old account }
        ensures long { length self.new.lists ≡ length self.old.lists }
        ensures there { (a : ℕ) → has (givers_of self.new account) a ≡ (if a == giver then gives else has (givers_of self.old account) a) }
        ensures others { (b : ℕ) → b ≢ account → givers_of self.new b ≡ givers_of self.old b }
    {
        let givers = &mut self.lists[account.index()];
        givers.set(giver, gives);
    }
}
