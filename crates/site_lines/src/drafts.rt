//! What is read of a site so far.

ghost use Rattle.std.specs.Prelude.{◌≤◌, length, vec_len};
ghost use Rattle.trust_types.specs.declared.limits.TheConstants.{MOST_ACCOUNTS};

use crate::accounts::{known_account, new_name};
use crate::seeds::mark;
use cert_log::CertLog;
use name_index::NameIndex;
use std::alloc::Global;
use text_lines::{
    LineFault, TextKind, Words, fault_if, fault_unless, is_line, is_same, level_in, name_in,
};
use trust_types::{AccountNo, Caps, Cert, Name, NoMemory};

/// A site while its lines are read: its accounts, seeds and certificates so far. Contracts tell of which records it is a
/// draft.
#[derive(Drop)]
pub struct SiteDraft {
    pub(crate) names: NameIndex,
    /// For each account, whether it is a seed.
    pub(crate) seeds: Vec<bool>,
    pub(crate) certs: CertLog,
    /// The last giver: in a text in order, most certificates are of the giver of the one before.
    pub(crate) giver: Option<Known>,
    ghost few: { length names ≤ MOST_ACCOUNTS },
    ghost flagged: { vec_len seeds ≤ length names },
}

/// An account by its name.
#[derive(Drop)]
pub struct Known {
    name: Name,
    account: AccountNo,
}

impl SiteDraft {
    ghost use Rattle.std.specs.Prelude.{◌≡◌, [], ℕ, List};
    ghost use Rattle.trust_types.specs.declared.records.Record.{Record};
    ghost use Rattle.trust_types.specs.Kept.{accounts};
    ghost use Rattle.trust_types.specs.NameLists.{number_of};
    ghost use Rattle.text_lines.specs.Reading.{Reads};
    ghost use Rattle.site_lines.specs.Site.{account_line, seed_line, cert_line, given_cert, pair_in, form, site_line};
    ghost use Rattle.site_lines.specs.Drafts.{IsSiteDraft, Adds};

    /// No line was read yet. It takes no memory.
    pub fn new(alloc: Global) -> SiteDraft
        ensures { IsSiteDraft result [] }
    {
        SiteDraft {
            names: NameIndex::new(alloc),
            seeds: Vec::new(alloc),
            certs: CertLog::new(alloc),
            giver: None,
        }
    }

    /// Reads one line more of a site with that table.
    ///
    /// # Errors
    /// [`LineFault::Kind`] where the line has a fault, with its kind, unless memory ran out, and only there;
    /// [`LineFault::NoMemory`] where memory ran out. What the draft holds after an error is open.
    #[tactic(auto, unfolding(crate::specs::Site::site_line))]
    pub fn read(&mut self, table: &Caps, line: &[u8]) -> Result<(), LineFault>
        ensures { (k : List Record) → IsSiteDraft self.old k → Reads IsSiteDraft result self.new (site_line table.now k line.now) }
    {
        let outcome = self.form(table, &mut Words::of(line));
        // Keywords, names and levels are words, so a line that was read is one. The test may come last, and sees only lines
        // with a fault.
        if outcome.is_err() && !is_line(line) {
            return Err(LineFault::Kind(TextKind::BadLine));
        }
        outcome
    }

    /// The names of the accounts so far, with their numbers.
    pub fn names(&self) -> &NameIndex
        ensures { (k : List Record) → IsSiteDraft self.now k → result.now ≡ accounts k }
    {
        &self.names
    }

    /// Reads a line of these words.
    fn form(&mut self, table: &Caps, words: &mut Words) -> Result<(), LineFault>
        ensures { (k : List Record) → IsSiteDraft self.old k → Adds k result self.new (form table.now k words.old) }
    {
        let keyword = words.first()?;
        if is_same(keyword, b"account") {
            return self.account(words);
        }
        if is_same(keyword, b"seed") {
            return self.seed(words);
        }
        if is_same(keyword, b"cert") {
            return self.cert(table, words);
        }
        Err(LineFault::Kind(TextKind::BadLine))
    }

    /// Reads what is behind `account`.
    fn account(&mut self, words: &mut Words) -> Result<(), LineFault>
        ensures { (k : List Record) → IsSiteDraft self.old k → Adds k result self.new (account_line k words.old) }
    {
        let name = new_name(&self.names, words)?;
        self.names.push(name)?;
        self.seeds.push(false)?;
        Ok(())
    }

    /// Reads what is behind `seed`.
    fn seed(&mut self, words: &mut Words) -> Result<(), LineFault>
        ensures { (k : List Record) → IsSiteDraft self.old k → Adds k result self.new (seed_line k words.old) }
    {
        let account = known_account(&self.names, words)?;
        fault_if(mark(&mut self.seeds, account), TextKind::Twice)?;
        Ok(())
    }

    /// Reads what is behind `cert`.
    fn cert(&mut self, table: &Caps, words: &mut Words) -> Result<(), LineFault>
        ensures { (k : List Record) → IsSiteDraft self.old k → Adds k result self.new (cert_line table.now k words.old) }
    {
        self.settle()?;
        let cert = self.given_cert(table, words)?;
        fault_unless(self.certs.push(cert)?, TextKind::TooMany)?;
        Ok(())
    }

    /// Has the names sorted, if many came since they last were: certificates look two up each.
    fn settle(&mut self) -> Result<(), NoMemory>
        ensures { (k : List Record) → IsSiteDraft self.old k → IsSiteDraft self.new k }
    {
        self.names.settle()?;
        Ok(())
    }

    /// The certificate behind `cert`.
    fn given_cert(&mut self, table: &Caps, words: &mut Words) -> Result<Cert, TextKind>
        ensures draft { (k : List Record) → IsSiteDraft self.old k → IsSiteDraft self.new k }
        ensures cert { (k : List Record) → IsSiteDraft self.old k → result ≡ given_cert table.now (accounts k) words.old }
    {
        let (giver, taker, word) = words.three()?;
        let level = level_in(table, word)?;
        let (from, to) = self.pair(giver, taker)?;
        Ok(Cert { from, to, level })
    }

    /// Two accounts by their names.
    fn pair(&mut self, giver: &[u8], taker: &[u8]) -> Result<(AccountNo, AccountNo), TextKind>
        ensures draft { (k : List Record) → IsSiteDraft self.old k → IsSiteDraft self.new k }
        ensures pair { (k : List Record) → IsSiteDraft self.old k → result ≡ pair_in (accounts k) giver.now taker.now }
    {
        let giver = name_in(giver)?;
        let taker = name_in(taker)?;
        let from = self.find_giver(&giver).ok_or(TextKind::Unknown)?;
        let to = self.names.find(&taker).ok_or(TextKind::Unknown)?;
        fault_if(from == to, TextKind::SelfCert)?;
        Ok((from, to))
    }

    /// The account of that name, where there is one. The last giver's needs no look-up.
    fn find_giver(&mut self, name: &Name) -> Option<AccountNo>
        ensures draft { (k : List Record) → IsSiteDraft self.old k → IsSiteDraft self.new k }
        ensures found { (k : List Record) → IsSiteDraft self.old k → result ≡ number_of (accounts k) name.now }
    {
        if let Some(known) = &self.giver {
            if known.name == *name {
                return Some(known.account);
            }
        }
        let account = self.names.find(name)?;
        self.giver = Some(Known {
            name: *name,
            account,
        });
        Some(account)
    }
}
