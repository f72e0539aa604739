//! The statements on a database. Their contracts say nothing of its rows, which a keeper over SQLite doesn't tell.

ghost use Rattle.std.specs.Prelude.{◌≡◌, Err, IfErr, IfOk, IsOk};
ghost use Rattle.keeper_sqlite.specs.Faults.{fault_of};

use crate::ahead::Ahead;
use outside::KeepFault;
use sqlite::{Alter, Connection, Error, ErrorCode, Row, params};

/// What a refused statement is for a keeper.
pub(crate) fn fault_of(error: Error) -> KeepFault
    ensures { result ≡ fault_of error }
{
    match error {
        Error::SqliteFailure(ErrorCode::OutOfMemory) => KeepFault::NoMemory,
        _ => KeepFault::Failed,
    }
}

/// What a keeper answers to an append, from what the statement answered.
pub(crate) fn kept_of(answer: Result<usize, Error>) -> Result<(), KeepFault>
    ensures ok { IfOk answer (λ _. IsOk result) }
    ensures err { IfErr answer (λ error. result ≡ Err (fault_of error)) }
{
    answer.map_err(fault_of)?;
    Ok(())
}

/// Holds the rows that a statement answered, the first of which should be row `first`. Where it failed, that is the answer, and not that there are none.
pub(crate) fn hold(
    ahead: &mut Ahead,
    first: u64,
    answer: Result<Vec<Row>, Error>,
) -> Result<(), KeepFault>
    ensures ok { IfOk answer (λ _. IsOk result) }
    ensures err { IfErr answer (λ error. result ≡ Err (fault_of error)) }
{
    *ahead = Ahead::of(first, answer.map_err(fault_of)?);
    Ok(())
}

/// Makes the table of rows, if the database has none.
pub(crate) fn make_table<S: Alter>(database: &mut Connection<S>) -> Result<(), KeepFault> {
    database
        .execute(
            "CREATE TABLE IF NOT EXISTS kept (seq INTEGER PRIMARY KEY, body BLOB NOT NULL)",
            &[],
        )
        .map_err(fault_of)?;
    Ok(())
}

/// Adds a row. SQLite gives it the number that follows the greatest in the table, so a refused statement leaves its number for the next row.
pub(crate) fn insert<S: Alter>(database: &mut Connection<S>, row: &[u8]) -> Result<usize, Error> {
    database.execute("INSERT INTO kept (body) VALUES (?1)", params![row])
}

/// The first rows behind number `last`, in order, at most 128 of them.
pub(crate) fn select_behind<S: Alter>(
    database: &mut Connection<S>,
    last: i64,
) -> Result<Vec<Row>, Error> {
    database.query_all(
        "SELECT seq, body FROM kept WHERE seq > ?1 ORDER BY seq LIMIT 128",
        params![last],
    )
}
