//! The levels at which pairs stand, by pair.

ghost use Rattle.std.specs.Prelude.{◌≡◌, ◌≤◌, List, IfOk, length, map};
ghost use Rattle.trust_types.specs.declared.graphs.Cert.{Cert};
ghost use Rattle.cert_log.specs.Standing.{AreStanding};
ghost use Rattle.cert_log.specs.inner.Levels.{AreLevels, TakesLevel, cert_at};
ghost use Rattle.pair_map.specs.Pairs.{Rises};

use crate::logs::MOST;
use pair_map::PairMap;
use std::alloc::{AllocError, Global};
use trust_types::{AccountNo, Cert, Level, MOST_CERTS, NoMemory};

/// The levels at which these certificates leave their pairs, of which no more than [`MOST_CERTS`] stand.
pub fn levels_of(alloc: Global, certs: &[Cert]) -> Result<PairMap<Level>, NoMemory>
    ensures { length certs.now ≤ MOST_CERTS → IfOk result (λ levels. AreLevels levels certs.now) }
{
    let mut levels = PairMap::new(alloc);
    for cert in certs {
        let _fits = put(&mut levels, *cert)?;
    }
    Ok(levels)
}

/// Puts one more certificate in, if no more than [`MOST_CERTS`] stand then.
pub fn put(levels: &mut PairMap<Level>, cert: Cert) -> Result<bool, NoMemory>
    ensures { (cs : List Cert) → AreLevels levels.old cs → TakesLevel cs cert result levels.new }
{
    let giver = cert.from.0;
    let taker = cert.to.0;
    if !cert.level.is_grade() {
        let _before = levels.remove(giver, taker);
        return Ok(true);
    }
    if levels.len() >= MOST && !levels.contains(giver, taker) {
        return Ok(false);
    }
    let _before = levels.insert(giver, taker, cert.level)?;
    Ok(true)
}

/// The certificates that leave pairs at these levels.
pub fn certs_of(alloc: Global, levels: PairMap<Level>) -> Result<Vec<Cert>, NoMemory>
    ensures { (cs : List Cert) → AreLevels levels cs → IfOk result (λ kept. AreStanding cs kept.items) }
{
    Ok(listed(alloc, levels)?)
}

/// A certificate for each pair that has a level.
fn listed(alloc: Global, levels: PairMap<Level>) -> Result<Vec<Cert>, AllocError>
    ensures all { IfOk result (λ certs. certs.items ≡ map cert_at levels) }
    ensures rises { Rises levels }
{
    levels
        .into_pairs()
        .map(|((giver, taker), level)| cert_at(giver, taker, level))
        .collect(alloc)
}

fn cert_at(giver: u32, taker: u32, level: Level) -> Cert
    ensures { result ≡ cert_at ((giver, taker), level) }
{
    Cert {
        from: AccountNo(giver),
        to: AccountNo(taker),
        level,
    }
}
