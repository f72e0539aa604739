//! What is shown of a site.

ghost use Rattle.std.specs.Prelude.{◌≡◌, IfOk};
ghost use Rattle.site_history.specs.Views.{said, shown};

use crate::book::Book;
use outside::Keeper;
use site_history::{Query, View};
use trust_types::NoMemory;

impl<K: Keeper> Book<K> {
    /// What a query shows of the site: [`View::Missing`] exactly where nothing has the name or number, and else what the history says of it. It copies
    /// the texts that are shown. Nothing that grows with the site is searched through, but the accounts for their seeds.
    ///
    /// # Errors
    /// [`NoMemory`] where there isn't enough, and for no other cause.
    pub fn view(&self, query: &Query) -> Result<View, NoMemory>
        ensures { IfOk result (λ view. said view ≡ shown self.now.history query.now) }
    {
        self.state.view(self.alloc, query)
    }
}
