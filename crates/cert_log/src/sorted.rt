//! The certificates that stand, of a list in order of giver and taker.

ghost use Rattle.std.specs.Prelude.{◌≡◌, ◌<◌, ◌≤◌, ℕ, OnOk, length, take, drop};
ghost use Rattle.std.specs.List.Sorted.{IsStableBy};
ghost use Rattle.trust_types.specs.Changes.{standing_among};
ghost use Rattle.cert_log.specs.inner.Order.{standing_list, first_stands, RisesByPair, pair_lt, begins_with_pair};

use std::alloc::AllocError;
use trust_types::{AccountNo, Cert};

/// Puts certificates in order of giver and taker, those of one pair in the order in which they came.
fn sort(certs: &mut Vec<Cert>) -> Result<(), AllocError>
    ensures rises { OnOk result (RisesByPair certs.new.items) }
    ensures stable { IsStableBy pair_lt certs.old.items certs.new.items }
    ensures count { length certs.new.items ≡ length certs.old.items }
{
    certs.sort_by_key(|cert| (cert.from, cert.to))?;
    Ok(())
}

/// The same, with what it leaves as it was.
pub fn sort_by_pair(certs: &mut Vec<Cert>) -> Result<(), AllocError>
    ensures rises { OnOk result (RisesByPair certs.new.items) }
    ensures same { (a b : ℕ) → standing_among certs.new.items a b ≡ standing_among certs.old.items a b }
    ensures count { length certs.new.items ≡ length certs.old.items }
{
    sort(certs)
}

/// Keeps the certificates that stand, of a list in order of giver and taker.
pub fn keep_standing(certs: &mut Vec<Cert>)
    requires { RisesByPair certs.old.items }
    ensures { certs.new.items ≡ standing_list certs.old.items }
{
    let count = move_to_front(certs);
    certs.truncate(count);
}

/// Moves the certificates that stand to the front, and answers how many they are.
fn move_to_front(certs: &mut [Cert]) -> usize
    requires { RisesByPair certs.old }
    ensures within { result ≤ length certs.new }
    ensures front { take result certs.new ≡ standing_list certs.old }
{
    let mut count = 0;
    for place in 0..certs.len() {
        if stands_at(certs, place) {
            certs.swap(count, place);
            count += 1;
        }
    }
    count
}

/// Whether the certificate at that place stands before those behind it, which are in order of giver and taker.
fn stands_at(certs: &[Cert], place: usize) -> bool
    requires within { place < length certs.now }
    requires rises { RisesByPair (drop place certs.now) }
    ensures { result ≡ first_stands (drop place certs.now) }
{
    first_stands(&certs[place..])
}

/// Whether the first of certificates in order of giver and taker stands before the later ones.
fn first_stands(certs: &[Cert]) -> bool
    requires { RisesByPair certs.now }
    ensures { result ≡ first_stands certs.now }
{
    match certs {
        [cert, later @ ..] => cert.level.is_grade() && !begins_with(later, cert.from, cert.to),
        [] => false,
    }
}

/// Whether the first of the certificates is of the pair.
fn begins_with(certs: &[Cert], giver: AccountNo, taker: AccountNo) -> bool
    ensures { result ≡ begins_with_pair giver taker certs.now }
{
    match certs.first() {
        Some(cert) => cert.from == giver && cert.to == taker,
        None => false,
    }
}
