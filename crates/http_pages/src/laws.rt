//! The laws of pages, each the contract of a function that does nothing.

ghost use Rattle.http_pages.specs.Safe.{ViewsAreSafe, RostersAreSafe, FixedAreSafe, RefusalsAreSafe};

/// The page of a view is in the grammar of pages, whatever members wrote: its titles and texts add no element but those of safe markup.
pub fn views_are_safe()
    ensures { ViewsAreSafe }
{}

/// The page of a roster is in the grammar of pages, and so is that before there is a publication.
pub fn rosters_are_safe()
    ensures { RostersAreSafe }
{}

/// The page of a fixed status is in the grammar of pages.
pub fn fixed_are_safe()
    ensures { FixedAreSafe }
{}

/// The page of a refusal is in the grammar of pages.
pub fn refusals_are_safe()
    ensures { RefusalsAreSafe }
{}
