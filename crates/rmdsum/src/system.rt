//! The files of the system.

ghost use Rattle.ripemd_files.specs.Files.{any_place};

use crate::progress::Progress;
use ripemd_files::folder::Folder;
use ripemd_files::list::is_input;
use std::alloc::AllocError;
use std::fs::File;
use std::io::{BufReader, ErrorKind, IsTerminal, Read, Stdin};
use std::{fs, io, str};

/// What is read: standard input or a file.
#[derive(Drop)]
pub enum Source {
    Input(Stdin),
    File(File),
}

impl Source {
    /// Opens the file of a name, or standard input for `-`. Names have to be UTF-8: the standard library opens no
    /// others.
    pub fn open(rt: &HostRuntime, name: &[u8]) -> io::Result<Source> {
        if is_input(name) {
            return Ok(Source::Input(rt.stdin()));
        }
        match str::from_utf8(name) {
            Ok(path) => Ok(Source::File(fs::open(rt, path)?)),
            Err(_) => Err(io::Error::from(ErrorKind::InvalidFilename)),
        }
    }

    // The size of a regular file.
    fn size(&self) -> Option<u64> {
        let Source::File(file) = self else {
            return None;
        };
        let metadata = file.metadata().ok()?;
        metadata.is_file().then_some(metadata.len())
    }
}

impl Read for Source {
    fn read(&mut self, buffer: &mut [u8]) -> io::Result<usize> {
        match self {
            Source::Input(input) => input.read(buffer),
            Source::File(file) => file.read(buffer),
        }
    }
}

/// A buffer of 64 KiB for a list or a file of names.
pub fn buffered(rt: &HostRuntime, source: Source) -> Result<BufReader<Source>, AllocError> {
    BufReader::with_capacity(rt.alloc(), 1 << 16, source).map_err(|_| AllocError)
}

/// A file, and its progress if that is shown.
#[derive(Drop)]
pub struct Opened {
    source: Source,
    progress: Option<Progress>,
}

/// The files of the system, by name.
#[derive(Clone, Copy)]
pub struct System<'a> {
    rt: &'a HostRuntime,
    progress: bool,
}

impl<'a> System<'a> {
    /// With `progress`, a terminal on standard error shows how far a file is read.
    pub fn new(rt: &'a HostRuntime, progress: bool) -> System<'a> {
        System {
            rt,
            progress: progress && rt.stderr().is_terminal(),
        }
    }
}

impl Folder for System<'_> {
    type File = Opened;

    ghost place = { λ system. any_place };

    fn open(&self, name: &[u8]) -> io::Result<Opened> {
        let source = Source::open(self.rt, name)?;
        let progress = if self.progress {
            Progress::new(self.rt, name, source.size()).ok()
        } else {
            None
        };
        Ok(Opened { source, progress })
    }

    fn is_short(&self, name: &[u8]) -> bool {
        let Ok(path) = str::from_utf8(name) else {
            return false;
        };
        // Most files of the kernel, which may wait, report size 0.
        !is_input(name)
            && fs::metadata(self.rt, path).is_ok_and(|metadata| {
                metadata.is_file() && (1..1 << 16).contains(&metadata.len())
            })
    }

    fn read(&self, file: &mut Opened, buffer: &mut [u8]) -> io::Result<usize> {
        let outcome = file.source.read(buffer);
        if let Some(progress) = &mut file.progress {
            match &outcome {
                Ok(0) | Err(_) => progress.clear(),
                Ok(count) => progress.advance(*count),
            }
        }
        outcome
    }
}
