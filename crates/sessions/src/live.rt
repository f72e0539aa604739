ghost use Rattle.std.specs.Prelude.{ℕ, List, ◌≡◌, ◌≢◌, ◌++◌, ◌∷◌, ◌<◌, ◌≤◌, ◌+◌, [], None, OnOk, length};
ghost use Rattle.sessions.specs.Sessions.{who, without, judged_login};

use crate::secrets::is_proof;
use crate::tokens::Token;
use indexmap::IndexMap;
use std::alloc::Global;
use std::marker::Model;
use trust_types::{AccountNo, NoMemory, Secret};

/// The most live sessions.
pub const MOST_SESSIONS: usize = 65_536;

/// Why a login is refused.
#[derive(Clone, Copy, Debug, PartialEq, Eq)]
pub enum LoginFault {
    /// The account has no password, or another one.
    WrongPassword,
    /// A live session has the token.
    TokenTaken,
    /// There are as many live sessions as a site may have.
    SessionsFull,
}

/// The live sessions of a site. They aren't kept: none is live when a site is opened. Contracts see them in the order of their logins, and how
/// many more may log in before memory is taken.
#[derive(Drop)]
pub struct Sessions {
    accounts: IndexMap<Token, AccountNo>,
}

impl Model for Sessions {
    ghost use Rattle.indexmap.specs.IndexMap.{spare};
    ghost use Rattle.sessions.specs.Sessions.{Sessions};

    ghost Value = { Sessions };

    ghost view = { λ sessions. record { live = sessions.accounts.entries; room = spare sessions.accounts } };
}

impl Sessions {
    /// No session. It takes no memory.
    pub fn new(alloc: Global) -> Sessions
        ensures { result.live ≡ [] }
    {
        Sessions {
            accounts: IndexMap::new(alloc),
        }
    }

    /// How many sessions are live.
    pub fn count(&self) -> usize
        ensures { result ≡ length self.now.live }
    {
        self.accounts.len()
    }

    /// The account that is logged in under the token; `None` where none is. It looks the token up by its hash.
    pub fn who(&self, token: &Token) -> Option<AccountNo>
        ensures { result ≡ who self.now.live token.now }
    {
        self.accounts.get(token).copied()
    }

    /// Whether who shows this digest of a password may log in under the token, where this is kept of the account's. It takes no memory.
    ///
    /// # Errors
    /// The first that applies: [`LoginFault::WrongPassword`] where no password is kept or the digest is another one,
    /// [`LoginFault::TokenTaken`] where a live session has the token, [`LoginFault::SessionsFull`] where [`MOST_SESSIONS`] are live.
    pub fn judge(&self, kept: &Secret, proof: &[u8; 32], token: &Token) -> Result<(), LoginFault>
        ensures { result ≡ judged_login kept.now proof.now self.now.live token.now }
    {
        if !is_proof(kept, proof) {
            return Err(LoginFault::WrongPassword);
        }
        if self.who(token).is_some() {
            return Err(LoginFault::TokenTaken);
        }
        if self.count() >= MOST_SESSIONS {
            return Err(LoginFault::SessionsFull);
        }
        Ok(())
    }

    /// Makes room for one more login. The sessions stay as they are, whatever it answers.
    ///
    /// # Errors
    /// [`NoMemory`] where there isn't enough.
    pub fn reserve(&mut self) -> Result<(), NoMemory>
        ensures room { OnOk result (0 < self.new.room) }
        ensures same { self.new.live ≡ self.old.live }
    {
        Ok(self.accounts.reserve(1)?)
    }

    /// Logs the account in under a token that no live session has. It takes no memory and cannot fail.
    pub fn login(&mut self, account: AccountNo, token: Token)
        requires new { who self.old.live token ≡ None }
        requires room { 0 < self.old.room }
        ensures live { self.new.live ≡ self.old.live ++ (token, account) ∷ [] }
        ensures room { self.old.room ≤ self.new.room + 1 }
    {
        let _inserted = self.accounts.insert(token, account);
    }

    /// Ends the session of the token, and no other; where it isn't live nothing happens. The token is no live session's afterwards, and each other
    /// token stays as it was. The others stay in the order of their logins, so it may move all of those after it.
    pub fn logout(&mut self, token: &Token)
        ensures live { self.new.live ≡ without self.old.live token.now }
        ensures gone { who self.new.live token.now ≡ None }
        ensures others { (other : List ℕ) → other ≢ token.now → who self.new.live other ≡ who self.old.live other }
        ensures room { self.old.room ≤ self.new.room }
    {
        let _account = self.accounts.shift_remove(token);
    }
}
