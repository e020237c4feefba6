//! Why a file of a shelf is not read.

use thiserror::Error;

/// Why a file is not read.
#[derive(Clone, Copy, Debug, Error)]
pub enum ShelfError {
    /// The call failed, or the shelf has no file of that name.
    #[error("file not read")]
    Failed,
    /// The file has more bytes than the limit.
    #[error("file too long")]
    TooLong { limit: u64 },
    /// Memory could not be had.
    #[error("no memory")]
    Memory,
}
