//! The laws of the book, each the contract of a function that does nothing.

ghost use Rattle.cert_book.specs.Laws.{FollowsWhereContinues, HasPlaceWhereFits};

/// A change may follow exactly where a record that makes it continues the records of the book.
pub fn follows_where_continues()
    ensures { FollowsWhereContinues }
{}

/// A change passes no limit exactly where a record that makes it fits the records of the book.
pub fn has_place_where_fits()
    ensures { HasPlaceWhereFits }
{}
