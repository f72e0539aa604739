use thiserror::Error;

/// Why there is no frozen graph. Of several the first of this list counts.
#[derive(Clone, Copy, Debug, Drop, PartialEq, Eq, Error)]
pub enum FreezeFault {
    /// The last publication is of the present revision, which is this one.
    #[error("revision {0} is published already")]
    Same(u32),
    /// The history has as many places as it may have.
    #[error("the history is full")]
    HistoryFull,
    /// Memory ran out.
    #[error("out of memory")]
    NoMemory,
}

/// Why a candidate isn't published. Of several the first of this list counts.
#[derive(Clone, Copy, Debug, Drop, PartialEq, Eq, Error)]
pub enum PublishFault {
    /// The last publication is of this revision, and the candidate's isn't above it.
    #[error("a later revision than the candidate's, {0}, or the same one is published")]
    Stale(u32),
    /// There are as many publications as there may be.
    #[error("there are too many publications")]
    PublicationsFull,
    /// The history has as many places as it may have.
    #[error("the history is full")]
    HistoryFull,
    /// Memory ran out.
    #[error("out of memory")]
    NoMemory,
}
