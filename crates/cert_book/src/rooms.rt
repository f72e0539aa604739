use trust_types::AccountNo;

/// The addition for which there is room, by the accounts that it touches: who certifies, and whom an addition is about. Neither for a join.
#[derive(Clone, Copy, Debug, PartialEq, Eq)]
pub struct Room {
    pub author: Option<AccountNo>,
    pub subject: Option<AccountNo>,
}
