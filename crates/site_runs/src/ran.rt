use commands::Status;
use outside::Keeper;
use site_core::Book;

/// What became of the keeper that a run was handed.
#[derive(Drop)]
pub enum Kept<K: Keeper> {
    /// No site was opened over it.
    Keeper(K),
    /// The book of the site that was opened over it.
    Book(Book<K>),
}

/// How a run ended, and what became of its keeper.
#[derive(Drop)]
pub struct Ran<K: Keeper> {
    pub status: Status,
    pub kept: Kept<K>,
}
