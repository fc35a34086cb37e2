//! A run of the program.

ghost use Rattle.std.specs.Prelude.{◌≡◌, [], ◌∷◌, List, Option, IfOk, is_none, map, vec_items};
ghost use Rattle.rmdsum.specs.Types.{Any, Check};
ghost use Rattle.ripemd_files.specs.Said.{Adds};
ghost use Rattle.rmdsum.specs.Arguments.{reading};
ghost use Rattle.rmdsum.specs.Runs.{AreRules, Deed, Extends, DoesAsked, Performs, IsRun, Handles};
ghost use Rattle.rmdsum.specs.Runs.Item.{Name};
ghost use Rattle.rmdsum.specs.Runs.Deed.{Refuses, ShowsHelp, ShowsVersion, Opens, Gets, Prints, Checks, Says};

use crate::arguments::parse;
use crate::names::{Batch, Wrong};
use crate::refusals::Misuse;
use crate::request::{NameSource, Request, Work};
use ripemd_files::Variant;
use ripemd_files::fault::Fault;
use ripemd_files::list::{Rules, is_input};
use ripemd_files::printing::Style;
use ripemd_files::verdict::Options;
use std::alloc::Global;

/// Does the work of a run.
pub trait Worker {
    // What was done, where that is known.
    ghost done: { Self → Option (List Deed) };

    /// Says why the arguments are refused.
    fn refuse(&mut self, misuse: Misuse) -> Result<(), Fault>
        ensures { IfOk result (λ _. Adds (done self.old) (done self.new) (Refuses misuse ∷ [])) };

    /// Prints the help.
    fn show_help(&mut self) -> Result<(), Fault>
        ensures { IfOk result (λ _. Adds (done self.old) (done self.new) (ShowsHelp ∷ [])) };

    /// Prints the version.
    fn show_version(&mut self) -> Result<(), Fault>
        ensures { IfOk result (λ _. Adds (done self.old) (done self.new) (ShowsVersion ∷ [])) };

    /// Opens `names`, and returns whether it could. With `progress` the run shows how far files are read.
    fn open(&mut self, names: NameSource, progress: bool) -> Result<bool, Fault>
        ensures { IfOk result (λ answer. Adds (done self.old) (done self.new) (Opens names progress answer ∷ [])) };

    /// The next names.
    fn next(&mut self) -> Result<Batch, Fault>
        ensures { IfOk result (λ batch. Adds (done self.old) (done self.new) (Gets (map vec_items batch.names.items) batch.wrong ∷ [])) };

    /// Prints the digests of files. Whether all could be read.
    fn print(&mut self, style: Style, names: &[Vec<u8>]) -> Result<bool, Fault>
        ensures { IfOk result (λ answer. Adds (done self.old) (done self.new) (Prints style (map vec_items names.now) answer ∷ [])) };

    /// Checks a list. Whether the check succeeds.
    fn check(&mut self, rules: Rules, options: Options, name: &[u8]) -> Result<bool, Fault>
        ensures { IfOk result (λ answer. Adds (done self.old) (done self.new) (Checks rules options name.now answer ∷ [])) };

    /// Says what is wrong after some names, if anything.
    fn tell(&mut self, wrong: Option<Wrong>) -> Result<bool, Fault>
        ensures answer { IfOk result (λ answer. answer ≡ is_none wrong) }
        ensures done { IfOk result (λ answer. Adds (done self.old) (done self.new) (Says wrong answer ∷ [])) };
}

/// Does what the arguments after the program's name ask for, as `parse` reads them. Whether all could be done.
pub fn run<W: Worker>(
    alloc: Global,
    worker: &mut W,
    operands_last: bool,
    arguments: &[Vec<u8>],
) -> Result<bool, Fault>
    ensures { IfOk result (λ success. Extends (W.done worker.old) (W.done worker.new)
        (λ deeds. DoesAsked (reading operands_last Any (map vec_items arguments.now)) deeds success)) }
{
    match parse(alloc, operands_last, arguments)? {
        Ok(request) => perform(worker, request),
        Err(misuse) => {
            worker.refuse(misuse)?;
            Ok(false)
        }
    }
}

// Whether all could be done.
fn perform<W: Worker>(worker: &mut W, request: Request) -> Result<bool, Fault>
    ensures { IfOk result (λ success. Extends (W.done worker.old) (W.done worker.new) (λ deeds. Performs request deeds success)) }
{
    match request {
        Request::Help => {
            worker.show_help()?;
            Ok(true)
        }
        Request::Version => {
            worker.show_version()?;
            Ok(true)
        }
        Request::Run {
            work,
            names,
            progress,
        } => Ok(worker.open(names, progress)? && do_all(worker, work)?),
    }
}

// Does the work with all names.
fn do_all<W: Worker>(worker: &mut W, work: Work) -> Result<bool, Fault>
    ensures { IfOk result (λ success. Extends (W.done worker.old) (W.done worker.new) (λ deeds. IsRun work deeds success)) }
{
    let mut success = true;
    for _ in 0..u64::MAX {
        let batch = worker.next()?;
        if batch.names.is_empty() && batch.wrong.is_none() {
            return Ok(success);
        }
        let handled = do_some(worker, work, batch.names.as_slice())?;
        let sound = worker.tell(batch.wrong)?;
        success &= handled;
        success &= sound;
    }
    Err(Fault::TooManyLines)
}

#[tactic(auto, using(crate::proofs::Deeds::no_names, crate::proofs::Deeds::some_names))]
fn do_some<W: Worker>(worker: &mut W, work: Work, names: &[Vec<u8>]) -> Result<bool, Fault>
    ensures { IfOk result (λ success. Extends (W.done worker.old) (W.done worker.new)
        (λ deeds. Handles work (map Name (map vec_items names.now)) deeds success)) }
{
    match work {
        Work::Print(_) if names.is_empty() => Ok(true),
        Work::Print(style) => worker.print(style, names),
        Work::Check { only, options } => check_lists(worker, only, options, names),
    }
}

// Whether all checks succeed.
fn check_lists<W: Worker>(
    worker: &mut W,
    only: Option<Variant>,
    options: Options,
    names: &[Vec<u8>],
) -> Result<bool, Fault>
    ensures { IfOk result (λ success. Extends (W.done worker.old) (W.done worker.new)
        (λ deeds. Handles (Check only options) (map Name (map vec_items names.now)) deeds success)) }
{
    let mut success = true;
    for name in names {
        let rules = rules_of(only, name.as_slice());
        let checked = worker.check(rules, options, name.as_slice())?;
        success &= checked;
    }
    Ok(success)
}

// The rules for lines of the list `name`.
fn rules_of(only: Option<Variant>, name: &[u8]) -> Rules
    ensures { AreRules only name.now result }
{
    Rules {
        only,
        from_input: is_input(name),
    }
}
