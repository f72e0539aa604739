//! The laws of opening, each the contract of a function that does nothing.

ghost use Rattle.site_core.specs.Laws.{KeptRowsOpen, OpenRowsPass, RowsOpenOnce};

/// Rows of the records of a legal history, of either version, open to these records.
pub fn kept_rows_open()
    ensures { KeptRowsOpen }
{}

/// Rows open to one list of records at most.
pub fn rows_open_once()
    ensures { RowsOpenOnce }
{}

/// None of rows that open is refused.
pub fn open_rows_pass()
    ensures { OpenRowsPass }
{}
