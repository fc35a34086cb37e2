//! Prints the digests of files.

ghost use Rattle.std.specs.Prelude.{◌≡◌, ◌<◌, ◌++◌, ◌∷◌, [], length, IfErr, IfOk, None, OnOk};
ghost use Rattle.std.specs.List.{AllZip};
ghost use Rattle.ripemd.specs.Standard.{ripemd};
ghost use Rattle.ripemd_batch.specs.Lanes.{targets};
ghost use Rattle.ripemd_files.specs.Files.{ComesTo, parameters_of};
ghost use Rattle.ripemd_files.specs.Said.{Pends, Stops, Tells, unreadable, written};
ghost use Rattle.ripemd_files.specs.Printing.{PrintsAll, PrintsFirst, items_on, was_read};

use crate::digests::read_digests;
use crate::fault::Fault;
use crate::folder::Folder;
use crate::line::{Ending, Form, Variant};
use crate::log::Log;
use crate::outcome::Outcome;
use crate::writing::write_line;
use std::alloc::{AllocError, Global};
use std::io;

/// How lines are printed.
#[derive(Clone, Copy, PartialEq, Eq, Debug)]
pub struct Style {
    /// The hash.
    pub variant: Variant,
    /// How digest and name stand in a line.
    pub form: Form,
    /// What follows a line.
    pub ending: Ending,
}

// How much of a file is read at once.
const BUFFER: usize = 1 << 16;

/// Writes a line for each file, with the digest of all that it gave, in order. A file that can't be opened or read is
/// remarked on instead. Whether all were read.
///
/// # Errors
///
/// - `Write`: a call of the log failed with this error.
/// - `NoMemory`: memory is exhausted.
#[tactic(auto, using(crate::proofs::Printed::prints_no_memory))]
pub fn print_digests<F: Folder, L: Log>(
    alloc: Global,
    folder: &F,
    style: Style,
    names: &[&[u8]],
    log: &mut L,
) -> Result<bool, Fault>
    requires told { (L.told log.old).failure ≡ None }
    ensures ok { IfOk result (PrintsAll (F.place folder.now) style (targets names.now) (L.told log.old) (L.told log.new)) }
    ensures err { IfErr result (PrintsFirst (F.place folder.now) style (targets names.now) (L.told log.old) (L.told log.new)) }
{
    let mut buffer = new_buffer(alloc)?;
    print_groups(alloc, folder, style, names, &mut buffer, log)
}

// Prints files in groups, read through the buffer.
fn print_groups<F: Folder, L: Log>(
    alloc: Global,
    folder: &F,
    style: Style,
    names: &[&[u8]],
    buffer: &mut [u8],
    log: &mut L,
) -> Result<bool, Fault>
    requires told { (L.told log.old).failure ≡ None }
    requires room { 0 < length buffer.old }
    ensures ok { IfOk result (PrintsAll (F.place folder.now) style (targets names.now) (L.told log.old) (L.told log.new)) }
    ensures err { IfErr result (PrintsFirst (F.place folder.now) style (targets names.now) (L.told log.old) (L.told log.new)) }
{
    let mut all = true;
    let mut start = 0;
    while start < names.len() {
        let outcomes = read_digests(alloc, folder, style.variant, &names[start..], buffer)?;
        let end = start + outcomes.len();
        let group = &names[start..end];
        all &= print_outcomes(alloc, folder, style, group, outcomes.as_slice(), log)?;
        start = end;
    }
    Ok(all)
}

pub(crate) fn new_buffer(alloc: Global) -> Result<Vec<u8>, AllocError>
    ensures { IfOk result (λ buffer. 0 < length buffer.items) }
{
    vec![in alloc; 0; BUFFER]
}

// Prints outcomes. Their lines are written at once, and before a remark.
fn print_outcomes<F: Folder, L: Log>(
    alloc: Global,
    // Proof only.
    _folder: &F,
    style: Style,
    names: &[&[u8]],
    outcomes: &[Outcome],
    log: &mut L,
) -> Result<bool, Fault>
    requires told { (L.told log.old).failure ≡ None }
    requires read { AllZip (ComesTo (F.place _folder.now) (ripemd (parameters_of style.variant))) (targets names.now) outcomes.now }
    ensures ok { IfOk result (PrintsAll (F.place _folder.now) style (targets names.now) (L.told log.old) (L.told log.new)) }
    ensures err { IfErr result (PrintsFirst (F.place _folder.now) style (targets names.now) (L.told log.old) (L.told log.new)) }
{
    let mut lines = Vec::new(alloc);
    let mut all = true;
    for k in 0..outcomes.len() {
        let name = names[k];
        all &= print_outcome(alloc, style, name, &outcomes[k], &mut lines, log)?;
    }
    put(log, lines.as_slice())?;
    Ok(all)
}

// Adds the line of a file to those not yet written, or remarks on it. Whether it was read.
#[tactic(auto, using(crate::proofs::Telling::telling))]
fn print_outcome<L: Log>(
    alloc: Global,
    style: Style,
    name: &[u8],
    outcome: &Outcome,
    lines: &mut Vec<u8>,
    log: &mut L,
) -> Result<bool, Fault>
    requires told { (L.told log.old).failure ≡ None }
    ensures told { OnOk result (Pends (L.told log.old) (L.told log.new) lines.old.items lines.new.items (items_on style name.now outcome.now)) }
    ensures read { IfOk result (λ read. read ≡ was_read outcome.now) }
    ensures err { IfErr result (Stops ⊥ (L.told log.old) (L.told log.new) (written lines.old.items ++ items_on style name.now outcome.now)) }
{
    match outcome {
        Outcome::Digest(digest) => {
            write_line(alloc, style, digest.as_slice(), name, lines)?;
            Ok(true)
        }
        Outcome::Refused(error) | Outcome::Broken(error) => {
            remark_unreadable(name, *error, lines, log)?;
            Ok(false)
        }
    }
}

// Writes lines, and then remarks that a file can't be read.
#[tactic(auto, using(crate::proofs::Telling::telling))]
pub(crate) fn remark_unreadable<L: Log>(
    name: &[u8],
    error: io::Error,
    lines: &mut Vec<u8>,
    log: &mut L,
) -> Result<(), Fault>
    requires told { (L.told log.old).failure ≡ None }
    ensures told { OnOk result (Pends (L.told log.old) (L.told log.new) lines.old.items lines.new.items (unreadable name.now error ∷ [])) }
    ensures err { IfErr result (Stops ⊥ (L.told log.old) (L.told log.new) (written lines.old.items ++ unreadable name.now error ∷ [])) }
{
    put(log, lines.as_slice())?;
    lines.clear();
    log.unreadable(name, error).map_err(Fault::Write)
}

// Writes lines, if there are any.
pub(crate) fn put<L: Log>(log: &mut L, lines: &[u8]) -> Result<(), Fault>
    requires told { (L.told log.old).failure ≡ None }
    ensures ok { OnOk result (Tells (L.told log.old) (L.told log.new) (written lines.now)) }
    ensures err { IfErr result (Stops ⊥ (L.told log.old) (L.told log.new) (written lines.now)) }
{
    if lines.is_empty() {
        return Ok(());
    }
    log.write(lines).map_err(Fault::Write)
}
