//! Links that were served.

ghost use Rattle.std.specs.Prelude.{◌≡◌};

use outside_serving::Link;
use std::marker::Model;

/// A link that went through [`serve_link`](crate::serve_link), which alone makes one. It can't be copied and doesn't give its link away, so no two of
/// them stand for one link. Contracts see the link as the call left it.
#[derive(Drop)]
pub struct Served<L: Link> {
    link: L,
}

impl<L: Link> Model for Served<L> {
    ghost Value = { L };

    ghost view = { λ served. served.link };
}

impl<L: Link> Served<L> {
    pub(crate) fn of(link: L) -> Served<L>
        ensures { result ≡ link }
    {
        Served { link }
    }

    /// The link, as the call left it.
    pub fn link(&self) -> &L
        ensures { result.now ≡ self.now }
    {
        &self.link
    }
}
