//! Why a read or a write of the outside didn't succeed.
use thiserror::Error;

/// The source failed to read.
#[derive(Debug, Drop, Error)]
#[error("failed")]
pub struct Failed;

/// Why a write didn't succeed.
#[derive(Debug, Drop, Error)]
pub enum SinkFault {
    /// Memory ran out.
    #[error("out of memory")]
    Memory,
    /// The sink failed to write.
    #[error("failed")]
    Failed,
}

/// Why an input wasn't read to its end.
#[derive(Debug, Drop, Error)]
pub enum InputFault {
    /// Memory ran out.
    #[error("out of memory")]
    Memory,
    /// The source failed to read.
    #[error("failed")]
    Failed,
    /// The input is longer than the limit.
    #[error("too long")]
    TooLong,
}
