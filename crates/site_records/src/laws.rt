//! The law of rows, as the contract of a function that does nothing.

ghost use Rattle.site_records.specs.Laws.{NoRowOfTwoRecords};

/// No bytes are rows of two records, whatever their versions.
pub fn no_row_of_two_records()
    ensures { NoRowOfTwoRecords }
{}
