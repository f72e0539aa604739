ghost use Rattle.std.specs.Prelude.{◌≡◌};
ghost use Rattle.cert_book.specs.Judged.{fault_if, fault_unless};

use trust_types::AccountNo;

/// Why a change of accounts, seeds, certificates or the table is refused.
#[derive(Clone, Copy, Debug, Drop, PartialEq, Eq)]
pub enum CertFault {
    /// The word is no name.
    BadName,
    /// This account has the name.
    NameTaken(AccountNo),
    /// There are [`MOST_ACCOUNTS`](trust_types::MOST_ACCOUNTS) accounts.
    AccountsFull,
    /// No account has the name.
    NoSuchAccount,
    /// The account is the author itself.
    SelfCert,
    /// The table in force hasn't the level. It has this many.
    NoSuchLevel(u32),
    /// So it stands already.
    Same,
    /// [`MOST_CERTS`](trust_types::MOST_CERTS) certificates stand, and this one would be for a new pair.
    CertsFull,
    /// The account is no seed.
    NotSeed,
    /// The account is the only seed.
    LastSeed,
    /// The new table has fewer levels than the one in force, which has this many.
    LevelsFall(u32),
}

/// The fault, where the test holds.
pub(crate) fn fault_if(test: bool, fault: CertFault) -> Result<(), CertFault>
    ensures { result ≡ fault_if test fault }
{
    if test { Err(fault) } else { Ok(()) }
}

/// The fault, unless the test holds.
pub(crate) fn fault_unless(test: bool, fault: CertFault) -> Result<(), CertFault>
    ensures { result ≡ fault_unless test fault }
{
    if test { Ok(()) } else { Err(fault) }
}
