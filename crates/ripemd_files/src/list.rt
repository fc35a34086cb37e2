//! Lists of lines, as a check reads them.

ghost use Rattle.std.specs.Prelude.{◌≡◌, ◌≢◌, ◌↔◌, ◌+◌, ◌<◌, ◌^◌, ◌++◌, ◌∷◌, [], codes, false, length, IfErr, IfOk, IsFalse, IsTrue, OnOk};
ghost use Rattle.ripemd_files.specs.Lists.{IsTaken, IsWanted, body_of_line, is_passed_over, layout_after};
ghost use Rattle.ripemd_files.specs.Types.{Among};
ghost use Rattle.ripemd_files.specs.Groups.{ExplainsReading, IsEntry, ReadsGroup, StopsReading, Takes};

use crate::digests::FILES_AT_ONCE;
use crate::fault::Fault;
use crate::line::{Layout, Line, Variant};
use crate::piece::{Piece, ReadList, Stage};
use crate::reading::parse_listed;
use std::alloc::{AllocError, Global};

/// Which lines of a list count.
#[derive(Clone, Copy, PartialEq, Eq, Debug)]
pub struct Rules {
    /// Lines of this variant alone, or of all.
    pub only: Option<Variant>,
    /// Whether the list is standard input, which no line of it can name.
    pub from_input: bool,
}

// How far a list is read: its layout, if known, and the number of the next line.
#[derive(Clone, Copy)]
pub(crate) struct Cursor {
    pub layout: Option<Layout>,
    pub number: u64,
}

// Some lines, the number of a misformatted one after them, and how far the list was read with them.
#[derive(Drop)]
pub(crate) struct Group {
    pub lines: Vec<Line>,
    pub misformatted: Option<u64>,
    pub stage: Stage,
}

// A line without a carriage return at its end.
fn without_return(text: &[u8]) -> &[u8]
    ensures { result.now ≡ body_of_line text.now }
{
    match text {
        [body @ .., b'\r'] => body,
        _ => text,
    }
}

// Whether a line is empty or a comment.
fn is_skipped(text: &[u8]) -> bool
    ensures { result ≡ is_passed_over text.now }
{
    match text {
        [b'#', ..] => true,
        _ => without_return(text).is_empty(),
    }
}

fn is_wanted(only: Option<Variant>, variant: Variant) -> bool
    ensures { IsTrue result ↔ IsWanted only variant }
{
    only.is_none_or(|one| one == variant)
}

/// Whether a name is that of standard input.
pub fn is_input(name: &[u8]) -> bool
    ensures { IsTrue result ↔ (name.now ≡ codes "-") }
{
    matches!(name, b"-")
}

// Whether what a line says counts.
fn is_taken(rules: Rules, line: &Line) -> bool
    ensures { IsTrue result ↔ (IsWanted rules.only line.now.variant × (IsTrue rules.from_input → line.now.name.items ≢ codes "-")) }
{
    is_wanted(rules.only, line.variant) && !(rules.from_input && is_input(line.name.as_slice()))
}

// What a line that is not skipped says, if it counts; it may decide the layout.
#[tactic(auto, using(crate::proofs::Listed::is_taken))]
fn read_entry(
    alloc: Global,
    rules: Rules,
    layout: &mut Option<Layout>,
    text: &[u8],
) -> Result<Option<Line>, AllocError>
    requires { IsFalse (is_passed_over text.now) }
    ensures layout { layout.new ≡ layout_after rules layout.old text.now }
    ensures entry { IfOk result (IsEntry rules layout.new text.now) }
{
    match parse_listed(alloc, rules.only, layout, without_return(text))? {
        Some(line) if is_taken(rules, &line) => Ok(Some(line)),
        _ => Ok(None),
    }
}

// Adds what the next line says to `lines`. Its number, if it is misformatted.
fn take_line(
    alloc: Global,
    rules: Rules,
    cursor: &mut Cursor,
    text: &[u8],
    lines: &mut Vec<Line>,
) -> Result<Option<u64>, Fault>
    ensures takes { IfOk result (Takes rules cursor.old cursor.new text.now lines.old.items lines.new.items) }
    ensures advances { OnOk result (cursor.new.number ≡ cursor.old.number + 1) }
    ensures bound { OnOk result (cursor.new.number < 2 ^ 64) }
    ensures err { IfErr result (ExplainsReading (cursor.old.number + 1) []) }
{
    let number = cursor.number;
    if number == u64::MAX {
        return Err(Fault::TooManyLines);
    }
    cursor.number = number + 1;
    if is_skipped(text) {
        return Ok(None);
    }
    match read_entry(alloc, rules, &mut cursor.layout, text)? {
        None => Ok(Some(number)),
        Some(line) => match lines.push(line) {
            Ok(()) => Ok(None),
            Err(_) => Err(Fault::NoMemory),
        },
    }
}

// Whether the files of the lines are read now: there are enough, or the next line may be waited for.
fn is_group<R: ReadList>(lines: &[Line], reader: &R) -> bool
    ensures { IsTrue result → 0 < length lines.now }
{
    lines.len() >= FILES_AT_ONCE || (!lines.is_empty() && !reader.has_line())
}

// Reads lines until there are enough, one is misformatted, or the next is not at hand.
pub(crate) fn read_lines<R: ReadList>(
    alloc: Global,
    rules: Rules,
    cursor: &mut Cursor,
    reader: &mut R,
) -> Result<Group, Fault>
    requires readable { (R.state reader.old).stage ≡ Among }
    ensures ok { IfOk result (ReadsGroup rules (R.state reader.old).left (R.state reader.new) cursor.old cursor.new) }
    ensures err { IfErr result (StopsReading (R.state reader.old).left (R.state reader.new).left cursor.old.number) }
{
    let mut lines = Vec::with_capacity(alloc, FILES_AT_ONCE)?;
    let mut text = Vec::new(alloc);
    'lines: while !is_group(lines.as_slice(), reader) {
        let piece = reader.read_line(&mut text)?;
        let misformatted = match piece {
            Piece::Whole | Piece::Last => {
                take_line(alloc, rules, cursor, text.as_slice(), &mut lines)?
            }
            Piece::Nothing | Piece::Failed(_) => None,
        };
        match (misformatted, piece.stage()) {
            (None, Stage::Among) => {}
            (misformatted, stage) => {
                return Ok(Group {
                    lines,
                    misformatted,
                    stage,
                });
            }
        }
    }
    Ok(Group {
        lines,
        misformatted: None,
        stage: Stage::Among,
    })
}
