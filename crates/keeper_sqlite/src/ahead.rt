use outside::KeepFault;
use sqlite::Row;
use sqlite::types::ValueRef;
use std::alloc::Global;

/// Rows that were read ahead, so that whoever reads all rows in order goes through the table once.
#[derive(Drop)]
pub struct Ahead {
    /// The number of the first, counted from 0.
    first: u64,
    rows: Vec<Row>,
}

impl Ahead {
    /// None.
    pub fn new(alloc: Global) -> Ahead {
        Ahead {
            first: 0,
            rows: Vec::new(alloc),
        }
    }

    /// These rows, the first of which should be row `first`.
    pub fn of(first: u64, rows: Vec<Row>) -> Ahead {
        Ahead { first, rows }
    }

    /// Row `n`, if it is among them.
    pub fn row(&self, n: u64) -> Option<&Row> {
        self.rows.get(n.checked_sub(self.first)? as usize)
    }
}

/// The bytes of a row of the table, if it is the one behind `last`. Another number, or a value that isn't of its type, is a damaged table.
pub(crate) fn body_behind(row: &Row, last: i64) -> Result<&[u8], KeepFault> {
    match (row.get_ref(0), row.get_ref(1)) {
        (Ok(ValueRef::Int(seq)), Ok(ValueRef::Blob(body))) if last.checked_add(1) == Some(seq) => {
            Ok(body)
        }
        _ => Err(KeepFault::Failed),
    }
}
