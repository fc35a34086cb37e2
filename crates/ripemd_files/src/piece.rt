//! Texts, read piece by piece: lists by lines.

ghost use Rattle.std.specs.Prelude.{◌≡◌, IfErr, IfOk};
ghost use Rattle.std.specs.Io.Buffered.{reader_remaining};
ghost use Rattle.std.specs.Io.BufRead.{ends_with_byte, strip_last};
ghost use Rattle.ripemd_files.specs.Splitting.{IsPiece, ListState, ReadsOn, stage_after, state_of};
ghost use Rattle.ripemd_files.specs.Types.{Among};

use std::alloc::AllocError;
use std::io;
use std::io::{BufRead, BufReader, ErrorKind, Read};

/// What was read of a text whose pieces end with a certain byte, as lines with a newline.
#[derive(Clone, Copy, Debug)]
pub enum Piece {
    /// A piece that ended with its byte.
    Whole,
    /// The last piece, which ended with the text.
    Last,
    /// No piece: the text had ended.
    Nothing,
    /// The front of a piece, which may be empty: a read failed with this error.
    Failed(io::Error),
}

/// How far a text was read.
#[derive(Clone, Copy, PartialEq, Eq, Debug)]
pub enum Stage {
    /// More may follow.
    Among,
    /// To its end.
    Ended,
    /// To a read that failed.
    Failed,
}

impl Piece {
    // How far a text is read with this piece.
    pub(crate) fn stage(self) -> Stage
        ensures { result ≡ stage_after self }
    {
        match self {
            Piece::Whole => Stage::Among,
            Piece::Last | Piece::Nothing => Stage::Ended,
            Piece::Failed(_) => Stage::Failed,
        }
    }
}

/// Replaces `text` by the next piece, without the byte `end` that ends it.
///
/// # Errors
///
/// `AllocError` if memory is exhausted.
#[tactic(auto, using(crate::proofs::Cutting::read_rest))]
pub fn read_piece<R: Read>(
    reader: &mut BufReader<R>,
    end: u8,
    text: &mut Vec<u8>,
) -> Result<Piece, AllocError>
    ensures piece { IfOk result (IsPiece end (reader_remaining R.remaining reader.old) (reader_remaining R.remaining reader.new) text.new.items) }
    ensures err { IfErr result (λ _. ReadsOn (reader_remaining R.remaining reader.old) (reader_remaining R.remaining reader.new)) }
{
    text.clear();
    let outcome = reader.read_until(end, text);
    let is_whole = pop(text, end);
    match outcome {
        Err(error) if error.kind() == ErrorKind::OutOfMemory => Err(AllocError),
        // No read fails after the byte; if one did, the next would tell.
        _ if is_whole => Ok(Piece::Whole),
        Err(error) => Ok(Piece::Failed(error)),
        Ok(0) => Ok(Piece::Nothing),
        Ok(_) => Ok(Piece::Last),
    }
}

// Removes the byte `end` from the end of a text. Whether it was there.
fn pop(text: &mut Vec<u8>, end: u8) -> bool
    ensures found { result ≡ ends_with_byte end text.old.items }
    ensures text { text.new.items ≡ strip_last end text.old.items }
{
    let found = text.as_slice().ends_with(&[end]);
    if found {
        text.truncate(text.len() - 1);
    }
    found
}

/// A list, as it is read.
pub trait ReadList {
    // What is left of it, and how far it was read.
    ghost state: { Self → ListState };

    /// Whether the next line is at hand, so that reading it does not wait. Before a read that may wait, what earlier
    /// lines say is written.
    fn has_line(&self) -> bool;

    /// Replaces `text` by the next line, without its newline. No list is read after its end, or after a failed read.
    ///
    /// # Errors
    ///
    /// `AllocError` if memory is exhausted.
    fn read_line(&mut self, text: &mut Vec<u8>) -> Result<Piece, AllocError>
        requires readable { (state self.old).stage ≡ Among }
        ensures piece { IfOk result (IsPiece 10 (state self.old).left (state self.new).left text.new.items) }
        ensures stage { IfOk result (λ piece. (state self.new).stage ≡ stage_after piece) }
        ensures err { IfErr result (λ _. ReadsOn (state self.old).left (state self.new).left) };
}

/// A list that is read through a buffer.
#[derive(Drop)]
pub struct List<R> {
    reader: BufReader<R>,
    stage: Stage,
}

impl<R: Read> List<R> {
    /// A list of which nothing was read. Its buffer must have room.
    pub fn new(reader: BufReader<R>) -> List<R>
        ensures stage { (state_of R.remaining result).stage ≡ Among }
        ensures left { (state_of R.remaining result).left ≡ reader_remaining R.remaining reader }
    {
        List {
            reader,
            stage: Stage::Among,
        }
    }
}

impl<R: Read> ReadList for List<R> {
    ghost state = { state_of R.remaining };

    fn has_line(&self) -> bool {
        self.reader.buffer().contains(&b'\n')
    }

    fn read_line(&mut self, text: &mut Vec<u8>) -> Result<Piece, AllocError> {
        let piece = read_piece(&mut self.reader, b'\n', text)?;
        self.stage = piece.stage();
        Ok(piece)
    }
}
