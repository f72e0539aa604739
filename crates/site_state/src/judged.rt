use sessions::Token;
use site_history::Reply;
use trust_types::{AccountNo, Record};

/// What becomes of an act.
#[derive(Drop)]
pub enum Judged {
    /// It is refused, by this reply.
    Refused(Reply),
    /// It is accepted by this reply, and adds this record.
    Kept(Record, Reply),
    /// The account logs in under this token.
    LogsIn(AccountNo, Token),
    /// The author's session ends.
    LogsOut,
}
