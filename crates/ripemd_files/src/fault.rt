//! Errors that end a run.

ghost use Rattle.std.specs.Prelude.{◌≡◌};
ghost use Rattle.ripemd_files.specs.Types.{NoMemory};

use std::alloc::AllocError;
use std::io;
use thiserror::Error;

/// Why a run ends before all files were printed or checked.
#[derive(Debug, Drop, Error)]
pub enum Fault {
    /// Writing a line or a remark failed with this error.
    #[error("write error")]
    Write(io::Error),
    /// There is no memory left.
    #[error("memory exhausted")]
    NoMemory,
    /// A list has more than 2^64 - 2 lines, or a run about 2^64 names.
    #[error("too many checksum lines")]
    TooManyLines,
}

impl From<AllocError> for Fault {
    ghost from_gives = { λ _ fault. fault ≡ NoMemory };

    fn from(_error: AllocError) -> Fault {
        Fault::NoMemory
    }
}
