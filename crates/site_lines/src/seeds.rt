//! Which accounts are seeds, as a flag each.

ghost use Rattle.std.specs.Prelude.{◌≡◌, ◌≤◌, ◌↔◌, ℕ, length, IfOk, Contains, IsTrue, true, false, slice_set};
ghost use Rattle.std.specs.List.Sorted.{IsStrictlyIncreasing};
ghost use Rattle.site_lines.specs.Drafts.{flag};

use std::alloc::{AllocError, Global};
use trust_types::{AccountNo, MOST_ACCOUNTS};

/// Sets an account's flag, and answers what it was. Past the end there is none.
pub fn mark(flags: &mut Vec<bool>, account: AccountNo) -> bool
    ensures was { result ≡ flag flags.old.items account }
    ensures is { flags.new.items ≡ slice_set flags.old.items account true }
{
    let Some(flag) = flags.get_mut(account.index()) else {
        return false;
    };
    let was = *flag;
    *flag = true;
    was
}

/// The accounts whose flag is set, in rising order.
pub fn marked(alloc: Global, flags: &[bool]) -> Result<Vec<AccountNo>, AllocError>
    requires { length flags.now ≤ MOST_ACCOUNTS }
    ensures rises { IfOk result (λ accounts. IsStrictlyIncreasing accounts.items) }
    ensures just { IfOk result (λ accounts. (a : ℕ) → Contains accounts.items a ↔ IsTrue (flag flags.now a)) }
{
    let mut accounts = Vec::new(alloc);
    for (account, flag) in flags.iter().enumerate() {
        if *flag {
            accounts.push(AccountNo(account as u32))?;
        }
    }
    Ok(accounts)
}
