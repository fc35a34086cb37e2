//! The check of a list.

ghost use Rattle.std.specs.Prelude.{◌≡◌, ◌<◌, ◌++◌, [], ◌∷◌, flat_map, get_or, length, IfErr, IfOk, IsErr, None, OnOk, List};
ghost use Rattle.std.specs.List.{AllZip};
ghost use Rattle.ripemd_batch.specs.Lanes.{targets};
ghost use Rattle.ripemd_files.specs.Types.{Among};
ghost use Rattle.ripemd_files.specs.Files.{OfFirst};
ghost use Rattle.ripemd_files.specs.Said.{Pends, Stops, Tells, about_list, written};
ghost use Rattle.ripemd_files.specs.Lists.{ChecksList, StopsList, last_remarks, succeeds};
ghost use Rattle.ripemd_files.specs.Groups.{ChecksFirst, ChecksLines, misformatted_events};
ghost use Rattle.ripemd_files.specs.Checking.{Event, IsNamed, IsOutcomeOf, IsTally, checked, count_remarks, has_lines, items_of_event, line_of_event, remark_where, remarks_on_verdict, report_of, shown};

use crate::digests::read_digests;
use crate::fault::Fault;
use crate::folder::Folder;
use crate::line::{Layout, Line, Variant};
use crate::list::{Cursor, Rules, read_lines};
use crate::log::{Complaint, Log};
use crate::outcome::Outcome;
use crate::piece::{ReadList, Stage};
use crate::printing::{new_buffer, put, remark_unreadable};
use crate::verdict::{Options, Tally, Verdict};
use crate::writing::push_text;
use std::alloc::{AllocError, Global};

/// Checks a list that may still be read: reads it, and the files that its lines name, writes a line for each
/// file, and remarks on unreadable files, misformatted lines, and counts. Whether the check succeeds.
///
/// `layout` holds the layout that the first untagged line of this or an earlier list decides.
///
/// # Errors
///
/// - `Write`: a call of the log failed with this error.
/// - `NoMemory`: memory is exhausted.
/// - `TooManyLines`: the list has more than 2^64 - 2 lines.
///
/// Till then the front of the report was told. `layout` is as it was.
#[tactic(auto, using(crate::proofs::Checked::stops_at_once))]
pub fn check_list<F: Folder, R: ReadList, L: Log>(
    alloc: Global,
    folder: &F,
    options: Options,
    rules: Rules,
    layout: &mut Option<Layout>,
    reader: &mut R,
    log: &mut L,
) -> Result<bool, Fault>
    requires told { (L.told log.old).failure ≡ None }
    requires readable { (R.state reader.old).stage ≡ Among }
    ensures ok { IfOk result (ChecksList (F.place folder.now) options rules layout.old layout.new
        (R.state reader.old).left (R.state reader.new) (L.told log.old) (L.told log.new)) }
    ensures err { IfErr result (StopsList (F.place folder.now) options rules layout.old
        (R.state reader.old).left (R.state reader.new).left (L.told log.old) (L.told log.new)) }
    ensures layout { IsErr result → layout.new ≡ layout.old }
{
    let mut buffer = new_buffer(alloc)?;
    let mut cursor = Cursor {
        layout: *layout,
        number: 1,
    };
    let success = check_groups(
        alloc,
        folder,
        options,
        rules,
        &mut cursor,
        reader,
        &mut buffer,
        log,
    )?;
    *layout = cursor.layout;
    Ok(success)
}

// Checks a list in groups of lines.
fn check_groups<F: Folder, R: ReadList, L: Log>(
    alloc: Global,
    folder: &F,
    options: Options,
    rules: Rules,
    cursor: &mut Cursor,
    reader: &mut R,
    buffer: &mut [u8],
    log: &mut L,
) -> Result<bool, Fault>
    requires told { (L.told log.old).failure ≡ None }
    requires room { 0 < length buffer.old }
    requires start { cursor.old.number ≡ 1 }
    requires readable { (R.state reader.old).stage ≡ Among }
    ensures ok { IfOk result (ChecksList (F.place folder.now) options rules cursor.old.layout cursor.new.layout
        (R.state reader.old).left (R.state reader.new) (L.told log.old) (L.told log.new)) }
    ensures err { IfErr result (StopsList (F.place folder.now) options rules cursor.old.layout
        (R.state reader.old).left (R.state reader.new).left (L.told log.old) (L.told log.new)) }
{
    let mut tally = Tally::new();
    'groups: loop {
        let group = read_lines(alloc, rules, cursor, reader)?;
        check_lines(
            alloc,
            folder,
            options,
            group.lines.as_slice(),
            buffer,
            &mut tally,
            log,
        )?;
        check_misformatted(options, group.misformatted, &mut tally, log)?;
        match group.stage {
            Stage::Among => {}
            stage => {
                let success = close(options, stage, &tally, log)?;
                return Ok(success);
            }
        }
    }
}

// Counts and remarks on a misformatted line, if there is one.
#[tactic(auto, using(crate::proofs::Telling::telling))]
fn check_misformatted<L: Log>(
    options: Options,
    misformatted: Option<u64>,
    tally: &mut Tally,
    log: &mut L,
) -> Result<(), Fault>
    requires told { (L.told log.old).failure ≡ None }
    ensures counts { (earlier : List Event) → IsTally earlier tally.old → IsTally (earlier ++ misformatted_events misformatted) tally.new }
    ensures told { OnOk result (Tells (L.told log.old) (L.told log.new) (flat_map (items_of_event options) (misformatted_events misformatted))) }
    ensures err { IfErr result (Stops ⊥ (L.told log.old) (L.told log.new) (flat_map (items_of_event options) (misformatted_events misformatted))) }
{
    let Some(number) = misformatted else {
        return Ok(());
    };
    tally.add_misformatted();
    remark_if(log, options.warn, Complaint::Misformatted(number))
}

// Remarks on the counts, or that the list was not read to its end. Whether the check succeeds.
#[tactic(auto, using(crate::proofs::Telling::telling))]
fn close<L: Log>(options: Options, stage: Stage, tally: &Tally, log: &mut L) -> Result<bool, Fault>
    requires told { (L.told log.old).failure ≡ None }
    ensures told { OnOk result (Tells (L.told log.old) (L.told log.new) (last_remarks stage options tally.now)) }
    ensures success { IfOk result (λ success. success ≡ succeeds stage options tally.now) }
    ensures err { IfErr result (Stops ⊥ (L.told log.old) (L.told log.new) (last_remarks stage options tally.now)) }
{
    match stage {
        Stage::Among => {}
        Stage::Ended if !tally.checked => remark(log, Complaint::NoLines)?,
        Stage::Ended if options.status => {}
        Stage::Ended => remark_counts(options, tally, log)?,
        Stage::Failed => remark(log, Complaint::Unreadable)?,
    }
    Ok(stage == Stage::Ended && tally.is_success(options))
}

// Remarks on counts other than 0, and that nothing was verified.
#[tactic(auto, using(crate::proofs::Telling::telling))]
fn remark_counts<L: Log>(options: Options, tally: &Tally, log: &mut L) -> Result<(), Fault>
    requires told { (L.told log.old).failure ≡ None }
    ensures told { OnOk result (Tells (L.told log.old) (L.told log.new) (count_remarks options tally.now)) }
    ensures err { IfErr result (Stops ⊥ (L.told log.old) (L.told log.new) (count_remarks options tally.now)) }
{
    let misformatted = Complaint::MisformattedLines(tally.misformatted);
    remark_if(log, tally.misformatted != 0, misformatted)?;
    let unreadable = Complaint::UnreadableFiles(tally.unreadable);
    remark_if(log, tally.unreadable != 0, unreadable)?;
    let differing = Complaint::Mismatches(tally.differing);
    remark_if(log, tally.differing != 0, differing)?;
    let nothing = options.ignore_missing && !tally.matched;
    remark_if(log, nothing, Complaint::NothingVerified)
}

fn remark<L: Log>(log: &mut L, complaint: Complaint) -> Result<(), Fault>
    requires told { (L.told log.old).failure ≡ None }
    ensures told { OnOk result (Tells (L.told log.old) (L.told log.new) (about_list complaint ∷ [])) }
    ensures err { IfErr result (Stops ⊥ (L.told log.old) (L.told log.new) (about_list complaint ∷ [])) }
{
    log.complain(complaint).map_err(Fault::Write)
}

#[tactic(auto, using(crate::proofs::Telling::telling))]
fn remark_if<L: Log>(log: &mut L, wrong: bool, complaint: Complaint) -> Result<(), Fault>
    requires told { (L.told log.old).failure ≡ None }
    ensures told { OnOk result (Tells (L.told log.old) (L.told log.new) (remark_where wrong complaint)) }
    ensures err { IfErr result (Stops ⊥ (L.told log.old) (L.told log.new) (remark_where wrong complaint)) }
{
    if wrong {
        remark(log, complaint)?;
    }
    Ok(())
}

// Reads the files of some lines, and tells and counts what was found.
fn check_lines<F: Folder, L: Log>(
    alloc: Global,
    folder: &F,
    options: Options,
    lines: &[Line],
    buffer: &mut [u8],
    tally: &mut Tally,
    log: &mut L,
) -> Result<(), Fault>
    requires told { (L.told log.old).failure ≡ None }
    requires room { 0 < length buffer.old }
    ensures ok { OnOk result (ChecksLines (F.place folder.now) options lines.now (L.told log.old) (L.told log.new) tally.old tally.new) }
    ensures err { IfErr result (ChecksFirst (F.place folder.now) options lines.now (L.told log.old) (L.told log.new)) }
{
    let mut start = 0;
    while start < lines.len() {
        let outcomes = read_files_of(alloc, folder, &lines[start..], buffer)?;
        let end = start + outcomes.len();
        let group = &lines[start..end];
        check_outcomes(
            alloc,
            folder,
            options,
            group,
            outcomes.as_slice(),
            tally,
            log,
        )?;
        start = end;
    }
    Ok(())
}

// Tells and counts outcomes. Their lines are written at once, and before a remark.
fn check_outcomes<F: Folder, L: Log>(
    alloc: Global,
    // Proof only.
    _folder: &F,
    options: Options,
    lines: &[Line],
    outcomes: &[Outcome],
    tally: &mut Tally,
    log: &mut L,
) -> Result<(), Fault>
    requires told { (L.told log.old).failure ≡ None }
    requires read { AllZip (IsOutcomeOf (F.place _folder.now)) lines.now outcomes.now }
    ensures ok { OnOk result (ChecksLines (F.place _folder.now) options lines.now (L.told log.old) (L.told log.new) tally.old tally.new) }
    ensures err { IfErr result (ChecksFirst (F.place _folder.now) options lines.now (L.told log.old) (L.told log.new)) }
{
    let mut report = Vec::new(alloc);
    for k in 0..outcomes.len() {
        let line = &lines[k];
        let verdict = Verdict::of(options.ignore_missing, line.digest.as_slice(), &outcomes[k]);
        tell(options, line.name.as_slice(), verdict, &mut report, log)?;
        tally.add(&verdict);
    }
    put(log, report.as_slice())
}

// Reads the files of the first lines, all of one variant.
#[tactic(auto, using(crate::proofs::Zips::first_through, crate::proofs::Checked::outcome_of_named))]
fn read_files_of<F: Folder>(
    alloc: Global,
    folder: &F,
    lines: &[Line],
    buffer: &mut [u8],
) -> Result<Vec<Outcome>, AllocError>
    requires some { 0 < length lines.now }
    requires room { 0 < length buffer.old }
    ensures { IfOk result (λ outcomes. OfFirst (IsOutcomeOf (F.place folder.now)) lines.now outcomes.items) }
{
    let variant = lines[0].variant;
    let names = names_of(alloc, variant, lines)?;
    read_digests(alloc, folder, variant, names.as_slice(), buffer)
}

// The names of the first lines, up to another variant.
fn names_of(alloc: Global, variant: Variant, lines: &[Line]) -> Result<Vec<&[u8]>, AllocError>
    requires first { (line : Line) → 0 < length lines.now → get_or lines.now 0 line ≡ line → line.variant ≡ variant }
    ensures { IfOk result (λ names. OfFirst (IsNamed variant) lines.now (targets names.items)) }
{
    let mut names = Vec::with_capacity(alloc, lines.len())?;
    for line in lines {
        if line.variant != variant {
            return Ok(names);
        }
        names.push(line.name.as_slice())?;
    }
    Ok(names)
}

// Remarks on a file, and adds its line to those not yet written.
#[tactic(auto, using(crate::proofs::Telling::stops_in, crate::proofs::Telling::pends_line))]
fn tell<L: Log>(
    options: Options,
    name: &[u8],
    verdict: Verdict,
    lines: &mut Vec<u8>,
    log: &mut L,
) -> Result<(), Fault>
    requires told { (L.told log.old).failure ≡ None }
    ensures told { OnOk result (Pends (L.told log.old) (L.told log.new) lines.old.items lines.new.items
        (items_of_event options (checked name.now verdict))) }
    ensures err { IfErr result (Stops ⊥ (L.told log.old) (L.told log.new)
        (written lines.old.items ++ items_of_event options (checked name.now verdict))) }
{
    remark_on(name, verdict, lines, log)?;
    push_verdict(lines, options, name, verdict)?;
    Ok(())
}

// Remarks on an unreadable file.
#[tactic(auto, using(crate::proofs::Telling::telling))]
fn remark_on<L: Log>(
    name: &[u8],
    verdict: Verdict,
    lines: &mut Vec<u8>,
    log: &mut L,
) -> Result<(), Fault>
    requires told { (L.told log.old).failure ≡ None }
    ensures told { OnOk result (Pends (L.told log.old) (L.told log.new) lines.old.items lines.new.items (remarks_on_verdict name.now verdict)) }
    ensures err { IfErr result (Stops ⊥ (L.told log.old) (L.told log.new) (written lines.old.items ++ remarks_on_verdict name.now verdict)) }
{
    if let Verdict::Unreadable(error) = verdict {
        remark_unreadable(name, error, lines, log)?;
    }
    Ok(())
}

// Adds the verdict's line, if it has one.
fn push_verdict(
    lines: &mut Vec<u8>,
    options: Options,
    name: &[u8],
    verdict: Verdict,
) -> Result<(), AllocError>
    ensures { OnOk result (lines.new.items ≡ lines.old.items ++ line_of_event options (checked name.now verdict)) }
{
    if options.status {
        return Ok(());
    }
    match verdict {
        Verdict::Matches if options.quiet => Ok(()),
        Verdict::Matches => push_shown(lines, name, b": OK\n"),
        Verdict::Differs => push_shown(lines, name, b": FAILED\n"),
        Verdict::Unreadable(_) => push_shown(lines, name, b": FAILED open or read\n"),
        Verdict::Missing => Ok(()),
    }
}

fn has_newline(name: &[u8]) -> bool
    ensures { result ≡ has_lines name.now }
{
    name.iter().any(|byte| *byte == b'\n')
}

// Adds a name, escaped only if it has a newline, and what follows it.
fn push_shown(lines: &mut Vec<u8>, name: &[u8], after: &[u8]) -> Result<(), AllocError>
    ensures { OnOk result (lines.new.items ≡ lines.old.items ++ (shown name.now ++ after.now)) }
{
    let marked = has_newline(name);
    if marked {
        lines.push(b'\\')?;
    }
    push_text(lines, marked, name)?;
    lines.extend_from_slice(after)
}
