//! Why a run of the program fails.

ghost use Rattle.std.specs.Prelude.{◌≡◌};
ghost use Rattle.ripemd_sum.specs.Faults.{of_reading};

use std::io;
use thiserror::Error;

/// Why hashing a reader failed.
#[derive(Debug, Drop, Error)]
pub enum ReadFault {
    /// A read failed with this error.
    #[error("read error")]
    Read(io::Error),
    /// The reader gave more bytes than the limit.
    #[error("input too long")]
    TooLong,
}

/// Why a run failed.
#[derive(Debug, Drop, Error)]
#[error("{}", self.message())]
pub enum RunFault {
    /// A read failed with this error.
    Read(io::Error),
    /// The reader gave more bytes than the limit.
    TooLong,
    /// The write failed with this error.
    Write(io::Error),
}

impl RunFault {
    ghost use Rattle.ripemd_sum.specs.Faults.{message_of};

    /// The line that the program prints, without a newline.
    pub fn message(&self) -> &'static str
        ensures { result.now ≡ message_of self.now }
    {
        match self {
            RunFault::Read(_) => "ripemd_sum: read error",
            RunFault::TooLong => "ripemd_sum: input too long",
            RunFault::Write(_) => "ripemd_sum: write error",
        }
    }
}

impl From<ReadFault> for RunFault {
    ghost from_gives = { λ fault run_fault. run_fault ≡ of_reading fault };

    fn from(fault: ReadFault) -> RunFault {
        match fault {
            ReadFault::Read(error) => RunFault::Read(error),
            ReadFault::TooLong => RunFault::TooLong,
        }
    }
}
