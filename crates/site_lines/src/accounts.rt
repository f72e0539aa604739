//! The accounts that lines name.

ghost use Rattle.std.specs.Prelude.{◌≡◌, ◌<◌, IfOk, OnOk, None, length};
ghost use Rattle.trust_types.specs.NameLists.{number_of};
ghost use Rattle.site_lines.specs.Site.{known_account, new_name};

use name_index::NameIndex;
use text_lines::{TextKind, Words, fault_if, fault_unless, name_in};
use trust_types::{AccountNo, MOST_ACCOUNTS, Name};

/// The name behind `account`, which none of these is.
pub fn new_name(names: &NameIndex, words: &mut Words) -> Result<Name, TextKind>
    ensures name { result ≡ new_name names.now words.old }
    ensures new { IfOk result (λ name. number_of names.now name ≡ None) }
    ensures room { OnOk result (length names.now < MOST_ACCOUNTS) }
{
    let name = name_in(words.one()?)?;
    fault_if(names.find(&name).is_some(), TextKind::Twice)?;
    fault_unless(names.count() < MOST_ACCOUNTS as usize, TextKind::TooMany)?;
    Ok(name)
}

/// The account behind `seed`.
pub fn known_account(names: &NameIndex, words: &mut Words) -> Result<AccountNo, TextKind>
    ensures account { result ≡ known_account names.now words.old }
    ensures among { IfOk result (λ a. a < length names.now) }
{
    let name = name_in(words.one()?)?;
    names.find(&name).ok_or(TextKind::Unknown)
}
