//! Outcomes of reading files.

use std::io;

/// What came of reading a file to its end.
#[derive(Debug, Drop)]
pub enum Outcome {
    /// The digest of all that it gave.
    Digest(Vec<u8>),
    /// It could not be opened.
    Refused(io::Error),
    /// A read failed, or the file is longer than 2^61 - 1 bytes.
    Broken(io::Error),
}
