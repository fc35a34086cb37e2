//! The names of files, as they come.

ghost use Rattle.std.specs.Prelude.{◌≡◌, [], ℕ, List, Option, true, false, IfOk, OnOk, IfSome, IsSome, IsSomeAnd, None, is_none, map, vec_items, Vec};
ghost use Rattle.std.specs.Global.{Global};
ghost use Rattle.rmdsum.specs.Types.{From, Operands};
ghost use Rattle.rmdsum.specs.Names.{left_in, NextName, Continues, IsEntry};

use crate::messages::{Message, say};
use crate::request;
use crate::system::{Source, buffered};
use ripemd_files::fault::Fault;
use ripemd_files::list::is_input;
use ripemd_files::piece::{Piece, read_piece};
use std::alloc::Global;
use std::io::{BufReader, Read};
use std::{io, mem};

// The most names of a file that are given at once.
const MOST: usize = 100;

/// The names of the arguments, or those in a file, each ended by a byte 0.
#[derive(Drop)]
pub struct Names<R> {
    given: Vec<Vec<u8>>,
    file: Vec<u8>,
    // The file, until its end or a failed read.
    reader: Option<BufReader<R>>,
    // How many of its names were read, wrong ones too.
    number: u64,
}

/// Names, and what is wrong after them. At the end there is neither.
#[derive(Drop)]
pub struct Batch {
    pub names: Vec<Vec<u8>>,
    pub wrong: Option<Wrong>,
}

/// What is wrong with a file of names.
#[derive(Clone, Copy)]
pub enum Wrong {
    /// A read of it failed.
    Unread(io::Error),
    /// Its name of this number is empty.
    Empty(u64),
    /// It is standard input, and so is one of its names.
    Input,
}

impl Names<Source> {
    /// These names, and no file.
    pub fn of(alloc: Global, given: Vec<Vec<u8>>) -> Names<Source>
        ensures { (result.given ≡ given) × (result.reader ≡ None) × (result.number ≡ 0) }
    {
        Names {
            given,
            file: Vec::new(alloc),
            reader: None,
            number: 0,
        }
    }

    /// Opens the file, if the arguments name one. If this fails, it says so and returns `None`.
    pub fn open(
        rt: &HostRuntime,
        names: request::NameSource,
    ) -> Result<Option<Names<Source>>, Fault>
        ensures given { (given : Vec (Vec ℕ Global) Global) → names ≡ Operands given
            → IfOk result (λ opened. IsSomeAnd opened (λ opened. (opened.given ≡ given) × (opened.reader ≡ None) × (opened.number ≡ 0))) }
        ensures file { (file : Vec ℕ Global) → names ≡ From file
            → IfOk result (λ opened. IfSome opened (λ opened. (opened.given.items ≡ []) × (opened.file ≡ file) × IsSome opened.reader × (opened.number ≡ 0))) }
    {
        let alloc = rt.alloc();
        match names {
            request::NameSource::Operands(given) => Ok(Some(Names::of(alloc, given))),
            request::NameSource::From(file) => match Source::open(rt, file.as_slice()) {
                Ok(source) => Ok(Some(Names {
                    given: Vec::new(alloc),
                    file,
                    reader: Some(buffered(rt, source)?),
                    number: 0,
                })),
                Err(error) => {
                    say(rt, Message::NamesUnopened(file.as_slice(), error)).map_err(Fault::Write)?;
                    Ok(None)
                }
            },
        }
    }

    /// Says what is wrong, if anything.
    pub fn tell(&self, rt: &HostRuntime, wrong: Option<Wrong>) -> Result<bool, Fault>
        ensures { IfOk result (λ answer. answer ≡ is_none wrong) }
    {
        let message = match wrong {
            None => return Ok(true),
            Some(Wrong::Unread(error)) => Message::NamesUnread(self.file.as_slice(), error),
            Some(Wrong::Empty(number)) => Message::EmptyName(self.file.as_slice(), number),
            Some(Wrong::Input) => Message::InputName,
        };
        say(rt, message).map_err(Fault::Write)?;
        Ok(false)
    }
}

// What is read of a file.
#[derive(Drop)]
enum Entry {
    Name(Vec<u8>),
    Wrong(Wrong),
    End,
}

impl<R: Read + Drop> Names<R> {
    /// The next names, up to a wrong one. It waits only while it has none.
    pub fn next(&mut self, alloc: Global) -> Result<Batch, Fault>
        ensures next { IfOk result (λ batch. Continues self.old.file.items self.old.number self.new.number
            (left_in R.remaining self.old.reader) (left_in R.remaining self.new.reader)
            (map vec_items self.old.given.items) (map vec_items batch.names.items) batch.wrong) }
        ensures given { IfOk result (λ _. self.new.given.items ≡ []) }
        ensures file { OnOk result (self.new.file ≡ self.old.file) }
    {
        let mut names = mem::replace(&mut self.given, Vec::new(alloc));
        for _ in 0..MOST {
            if !self.has_name(names.is_empty()) {
                break;
            }
            match self.read_name(alloc)? {
                Entry::Name(name) => names.push(name).map_err(|_| Fault::NoMemory)?,
                Entry::Wrong(wrong) => {
                    let wrong = Some(wrong);
                    return Ok(Batch { names, wrong });
                }
                Entry::End => break,
            }
        }
        Ok(Batch { names, wrong: None })
    }

    // Whether to read a name: the first of a batch, or one that the buffer has.
    fn has_name(&self, is_first: bool) -> bool
        ensures { is_first ≡ true → result ≡ false → self.now.reader ≡ None }
    {
        match &self.reader {
            None => false,
            Some(reader) => is_first || reader.buffer().contains(&0),
        }
    }

    fn read_name(&mut self, alloc: Global) -> Result<Entry, Fault>
        ensures entry { IfOk result (IsEntry self.old.file.items self.old.number self.new.number
            (left_in R.remaining self.old.reader) (left_in R.remaining self.new.reader)) }
        ensures given { self.new.given ≡ self.old.given }
        ensures file { self.new.file ≡ self.old.file }
    {
        let Some(reader) = &mut self.reader else {
            return Ok(Entry::End);
        };
        let mut name = Vec::new(alloc);
        match read_piece(reader, 0, &mut name)? {
            Piece::Whole => self.entry(name),
            Piece::Last => {
                self.reader = None;
                self.entry(name)
            }
            Piece::Nothing => {
                self.reader = None;
                Ok(Entry::End)
            }
            Piece::Failed(error) => {
                self.reader = None;
                Ok(Entry::Wrong(Wrong::Unread(error)))
            }
        }
    }

    // Counts a name that was read, and checks it.
    fn entry(&mut self, name: Vec<u8>) -> Result<Entry, Fault>
        ensures entry { IfOk result (λ entry. (old new : Option (List ℕ)) → NextName old name.items new
            → IsEntry self.old.file.items self.old.number self.new.number old new entry) }
        ensures reader { self.new.reader ≡ self.old.reader }
        ensures given { self.new.given ≡ self.old.given }
        ensures file { self.new.file ≡ self.old.file }
    {
        self.number = self.number.checked_add(1).ok_or(Fault::TooManyLines)?;
        if name.is_empty() {
            Ok(Entry::Wrong(Wrong::Empty(self.number)))
        } else if is_input(self.file.as_slice()) && is_input(name.as_slice()) {
            Ok(Entry::Wrong(Wrong::Input))
        } else {
            Ok(Entry::Name(name))
        }
    }
}
