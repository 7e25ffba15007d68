//! What ends a record.
use std::alloc::AllocError;
use std::io;
use thiserror::Error;

/// A fault of the record itself.
#[derive(Clone, Copy, Debug, Error)]
pub enum Fault {
    #[error("no record of the form A72REC03 with 39 words to an operation, or 43 of four cores")]
    NoRecord,
    #[error("the last line is not whole")]
    ShortLine,
    #[error("no such line")]
    NoSuchLine,
    #[error("no such operation")]
    NoSuchOperation,
    #[error("the window is too large")]
    LargeWindow,
    #[error("the list of windows is too long")]
    LongList,
    #[error("no operation was replayed")]
    NothingReplayed,
    #[error("the header has other numbers")]
    OtherNumbers,
}

/// A fault of the record, or that what is said of it can't be written.
#[derive(Clone, Copy, Debug, Error)]
pub enum Stop {
    #[error(transparent)]
    Broken(#[from] Fault),
    #[error(transparent)]
    Output(#[from] io::Error),
}

impl From<AllocError> for Stop {
    fn from(error: AllocError) -> Stop {
        Stop::Output(io::Error::from(error))
    }
}
