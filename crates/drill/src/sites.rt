ghost use Rattle.std.specs.Prelude.{◌≡◌, ◌<◌, ◌≤◌, All, IfOk, vec_len};
ghost use Rattle.trust_types.specs.Certs.{CanStand};
ghost use Rattle.trust_types.specs.NameLists.{AreApart};
ghost use Rattle.trust_types.specs.Tables.{standard_table};
ghost use Rattle.frozen.specs.Revision.{Freezes};
ghost use Rattle.cert_log.specs.Standing.{AreStanding};
ghost use Rattle.drill.specs.Draws.{certs_from};
ghost use Rattle.drill.specs.Drill.{IsDrill, name_at, names, seeds};

use crate::draws::{ACCOUNTS, Draws};
use cert_log::CertLog;
use frozen::Frozen;
use std::alloc::Global;
use std::marker::Brand;
use std::sync::Arc;
use std::sync::ledger::{Blank, Ledger};
use trust_types::{AccountNo, Caps, Cert, MOST_ACCOUNTS, Name, NoMemory, Steps};

/// How many certificates are drawn.
const CERTS: u32 = 20_000;

/// The number of the revision: that of the accounts, the four seeds and the drawn certificates together.
const REVISION: u32 = 22_004;

/// The name of an account.
fn name_at(alloc: Global, account: u32) -> Result<Name, NoMemory>
    requires { account < ACCOUNTS }
    ensures { IfOk result (λ name. name ≡ name_at account) }
{
    let word = format!(in alloc; "u{account}")?;
    match Name::read(word.as_bytes()) {
        Some(name) => Ok(name),
        None => unreachable!(),
    }
}

/// The names of the accounts.
fn names(alloc: Global) -> Result<Vec<Name>, NoMemory>
    ensures all { IfOk result (λ all. all.items ≡ names 2000) }
    ensures count { IfOk result (λ all. vec_len all ≡ 2000) }
    ensures apart { IfOk result (λ all. AreApart all.items) }
{
    let mut names = Vec::new(alloc);
    for account in 0..ACCOUNTS {
        names.push(name_at(alloc, account)?)?;
    }
    Ok(names)
}

/// The seeds.
fn seeds(alloc: Global) -> Result<Vec<AccountNo>, NoMemory>
    ensures { IfOk result (λ all. all.items ≡ seeds) }
{
    Ok(Vec::from_array(
        alloc,
        [AccountNo(0), AccountNo(1), AccountNo(2), AccountNo(3)],
    )?)
}

/// The certificates that stand after all that are drawn of a number.
fn certs(alloc: Global, number: u32) -> Result<Vec<Cert>, NoMemory>
    ensures stand { IfOk result (λ standing. AreStanding (certs_from 20000 number) standing.items) }
    ensures beside { IfOk result (λ standing. CanStand 2000 standing.items) }
{
    let mut draws = Draws::of(number);
    let mut log = CertLog::new(alloc);
    for _ in 0..CERTS {
        let _fits = log.push(draws.cert())?;
    }
    Ok(log.into_standing()?)
}

/// The frozen graph of these parts, whose steps nobody counts.
fn freeze<L: Ledger>(
    alloc: Global,
    names: Vec<Name>,
    seeds: Vec<AccountNo>,
    certs: Vec<Cert>,
    blank: Blank,
) -> Result<Arc<Frozen>, NoMemory>
    requires few { vec_len names ≤ MOST_ACCOUNTS }
    requires apart { AreApart names.items }
    requires seeds { All (λ a. a < vec_len names) seeds.items }
    requires certs { CanStand (vec_len names) certs.items }
    requires name { blank.name ≡ L.name }
    requires parts { blank.parts ≡ L.parts }
    requires some { 0 < blank.parts }
    ensures { IfOk result (λ f. Freezes f.value 22004 standard_table names.items seeds.items certs.items) }
{
    let mut steps = Steps::<L>::new(blank);
    Frozen::of(
        alloc,
        REVISION,
        Caps::standard(),
        names,
        seeds,
        certs,
        &mut steps,
    )
}

/// Makes the drill's site from a number, frozen. It takes memory for 2,000 accounts and 20,000 certificates.
///
/// # Errors
/// [`NoMemory`] where there isn't enough.
pub fn drill_site(alloc: Global, number: u32) -> Result<Arc<Frozen>, NoMemory>
    ensures { IfOk result (λ f. IsDrill number f.value) }
{
    let names = names(alloc)?;
    let seeds = seeds(alloc)?;
    let certs = certs(alloc, number)?;
    Ok(freeze::<Brand>(alloc, names, seeds, certs, Blank::new(1))?)
}
