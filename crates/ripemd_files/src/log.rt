//! Where the lines and remarks of a run go.

ghost use Rattle.std.specs.Prelude.{◌≡◌, [], ◌∷◌, IfErr, None, OnOk, Some};
ghost use Rattle.ripemd_files.specs.Said.{AddsFirst, Tells, Told, about_list, unreadable, written};

use std::io;

/// What is wrong with a list.
#[derive(Clone, Copy, PartialEq, Eq, Debug)]
pub enum Complaint {
    /// The line of this number is misformatted: it says nothing that counts.
    Misformatted(u64),
    /// So many of its lines are misformatted.
    MisformattedLines(u64),
    /// None of its lines says anything that counts.
    NoLines,
    /// So many of its files could not be read.
    UnreadableFiles(u64),
    /// So many of its files have another digest.
    Mismatches(u64),
    /// None of its files matches.
    NothingVerified,
    /// It could not be read to its end.
    Unreadable,
}

/// Takes lines and remarks, in order. An error ends the run: after it nothing is told.
pub trait Log {
    // What it was told, and the error of the last call that failed.
    ghost told: { Self → Told };

    /// Writes and flushes lines. If it fails, it may have written their first bytes.
    fn write(&mut self, lines: &[u8]) -> io::Result<()>
        requires works { (told self.old).failure ≡ None }
        ensures ok { OnOk result (Tells (told self.old) (told self.new) (written lines.now)) }
        ensures err { IfErr result (λ error. AddsFirst (told self.old).items (told self.new).items (written lines.now)
            × ((told self.new).failure ≡ Some error)) };

    /// Remarks that a file could not be opened or read, with this error.
    fn unreadable(&mut self, name: &[u8], error: io::Error) -> io::Result<()>
        requires works { (told self.old).failure ≡ None }
        ensures ok { OnOk result (Tells (told self.old) (told self.new) (unreadable name.now error ∷ [])) }
        ensures err { IfErr result (λ failure. AddsFirst (told self.old).items (told self.new).items (unreadable name.now error ∷ [])
            × ((told self.new).failure ≡ Some failure)) };

    /// Says what is wrong with a list.
    fn complain(&mut self, complaint: Complaint) -> io::Result<()>
        requires works { (told self.old).failure ≡ None }
        ensures ok { OnOk result (Tells (told self.old) (told self.new) (about_list complaint ∷ [])) }
        ensures err { IfErr result (λ failure. AddsFirst (told self.old).items (told self.new).items (about_list complaint ∷ [])
            × ((told self.new).failure ≡ Some failure)) };
}
