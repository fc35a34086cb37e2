//! Where names are opened as files.

ghost use Rattle.std.specs.Prelude.{◌<◌, IfOk, IfErr};
ghost use Rattle.std.specs.Io.{ReadsAtMost};
ghost use Rattle.std.specs.Io.KnownBytes.{ReadConsumes};
ghost use Rattle.ripemd_files.specs.Files.{Place};

use std::io;

/// Opens files by their names, which need not be text, and reads them.
pub trait Folder {
    /// An opened file.
    type File: Drop;

    // The folder as contracts see it.
    ghost place: { Self → Place Self.File };

    /// Opens the file of a name.
    fn open(&self, name: &[u8]) -> io::Result<Self::File>
        ensures ok { IfOk result ((place self.now).opens name.now) }
        ensures readable { IfOk result (place self.now).readable }
        ensures err { IfErr result ((place self.now).refuses name.now) };

    /// Whether the file of a name seems, before it is opened, to be a regular one of less than 64 KiB, for which
    /// nothing waits long. Several such files are read before their lines are written; before any other file, all
    /// lines so far are written.
    fn is_short(&self, name: &[u8]) -> bool;

    /// Reads bytes of a file to the front of the buffer, and answers how many: 0 at its end. No file is read after
    /// that, or after a failed read.
    fn read(&self, file: &mut Self::File, buffer: &mut [u8]) -> io::Result<usize>
        requires readable { (place self.now).readable file.old }
        ensures bound { ReadsAtMost result buffer.new }
        ensures bytes { ReadConsumes ((place self.now).left file.old) ((place self.now).left file.new) result buffer.new }
        ensures readable { IfOk result (λ count. 0 < count → (place self.now).readable file.new) }
        ensures err { IfErr result ((place self.now).may_fail file.old) };
}
