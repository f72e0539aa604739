//! A site's parts, once all of its lines were read.

ghost use Rattle.std.specs.Prelude.{ℕ, List, IfOk};
ghost use Rattle.trust_types.specs.declared.records.Record.{Record};
ghost use Rattle.site_lines.specs.Drafts.{IsSiteDraft, ArePartsOf};

use crate::drafts::SiteDraft;
use crate::seeds::marked;
use std::alloc::Global;
use trust_types::{AccountNo, Cert, Name, NoMemory};

/// The parts of a site, of which a graph can be made.
#[derive(Drop)]
pub struct SiteParts {
    /// The accounts' names, by number.
    pub names: Vec<Name>,
    /// The seeds, in rising order.
    pub seeds: Vec<AccountNo>,
    /// The certificates that stand, in rising order of giver and taker.
    pub certs: Vec<Cert>,
}

impl SiteDraft {
    /// The parts of the site. Certificates are sorted, and seeds gone over once; the index of names ends here.
    ///
    /// # Errors
    /// [`NoMemory`] where there isn't enough for them.
    pub fn finish(self, alloc: Global) -> Result<SiteParts, NoMemory>
        ensures { (k : List Record) → IsSiteDraft self k → IfOk result (λ parts. ArePartsOf k parts) }
    {
        let SiteDraft {
            names,
            seeds,
            certs,
            ..
        } = self;
        Ok(SiteParts {
            names: names.into_names(),
            seeds: marked(alloc, &seeds)?,
            certs: certs.into_standing()?,
        })
    }
}
