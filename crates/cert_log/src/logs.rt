ghost use Rattle.std.specs.Prelude.{[], List, IfOk};
ghost use Rattle.trust_types.specs.declared.graphs.Cert.{Cert};
ghost use Rattle.cert_log.specs.Standing.{AreStanding};
ghost use Rattle.cert_log.specs.Log.{IsLog, Takes};

use crate::levels::{certs_of, levels_of, put};
use crate::sorted::{keep_standing, sort_by_pair};
use pair_map::PairMap;
use std::alloc::Global;
use trust_types::{Cert, Level, MOST_CERTS, NoMemory};

/// The most certificates that stand, as a length.
pub const MOST: usize = MOST_CERTS as usize;

/// Certificates in the order in which they were given. A later one of a pair takes the earlier's place, and one at
/// Observer takes it away; at most [`MOST_CERTS`] stand.
#[derive(Drop)]
pub struct CertLog {
    alloc: Global,
    kept: Kept,
}

/// Up to [`MOST_CERTS`] certificates are kept as they come, since no more can stand. One more is looked up.
#[derive(Drop)]
enum Kept {
    Lines(Vec<Cert>),
    Levels(PairMap<Level>),
}

impl CertLog {
    /// No certificate yet. It takes no memory.
    pub fn new(alloc: Global) -> CertLog
        ensures { IsLog result [] }
    {
        CertLog {
            alloc,
            kept: Kept::Lines(Vec::new(alloc)),
        }
    }

    /// Adds a certificate, and answers whether it did: it adds none by which more than [`MOST_CERTS`] would stand. The first
    /// [`MOST_CERTS`] take a place in a list each, and a later one a look-up.
    ///
    /// # Errors
    /// [`NoMemory`] where there isn't enough for it: then the log is as it was.
    pub fn push(&mut self, cert: Cert) -> Result<bool, NoMemory>
        ensures { (cs : List Cert) → IsLog self.old cs → Takes cs cert result self.new }
    {
        match &mut self.kept {
            Kept::Levels(levels) => put(levels, cert),
            Kept::Lines(certs) => {
                if certs.len() < MOST {
                    certs.push(cert)?;
                    return Ok(true);
                }
                let mut levels = levels_of(self.alloc, certs)?;
                let fits = put(&mut levels, cert)?;
                self.kept = Kept::Levels(levels);
                Ok(fits)
            }
        }
    }

    /// The certificates that stand, in rising order of giver and taker. It takes a stable sort, and memory for that.
    ///
    /// # Errors
    /// [`NoMemory`] where there isn't enough.
    pub fn into_standing(self) -> Result<Vec<Cert>, NoMemory>
        ensures { (cs : List Cert) → IsLog self cs → IfOk result (λ kept. AreStanding cs kept.items) }
    {
        let CertLog { alloc, kept } = self;
        match kept {
            Kept::Lines(mut certs) => {
                sort_by_pair(&mut certs)?;
                keep_standing(&mut certs);
                Ok(certs)
            }
            Kept::Levels(levels) => certs_of(alloc, levels),
        }
    }
}
