//! What the program is to do, by what its arguments say.

ghost use Rattle.std.specs.Prelude.{◌≡◌, List, [], ◌∷◌, IfOk, MatchResult, map, option_map, vec_items, codes};
ghost use Rattle.rmdsum.specs.Options.{Said};
ghost use Rattle.rmdsum.specs.Asked.{Holds, Asks, IsRefused, IsExtra, conflict, excluded, needs_check, form_of, options_of, AreNames, or_input};

use crate::refusals::Misuse;
use crate::switches::Flag;
use ripemd_files::printing::Style;
use ripemd_files::verdict::Options;
use ripemd_files::{Ending, Form, Variant};
use std::alloc::{AllocError, Global};

/// What the program is to do.
#[derive(Debug, Drop)]
pub enum Request {
    /// Print the help.
    Help,
    /// Print the version.
    Version,
    /// Print or check.
    Run {
        /// What is done.
        work: Work,
        /// The files or lists.
        names: NameSource,
        /// Whether to show how far a file is read.
        progress: bool,
    },
}

/// What is done with files or lists.
#[derive(Clone, Copy, Debug, Drop)]
pub enum Work {
    /// Print the digests of files.
    Print(Style),
    /// Check lists of digests.
    Check {
        /// Lines of this hash alone are taken; all if it is `None`.
        only: Option<Variant>,
        /// What is told, and what is a failure. At most one of `quiet`, `status` and `warn` is set.
        options: Options,
    },
}

/// The names of files, where `-` stands for standard input.
#[derive(Debug, Drop)]
pub enum NameSource {
    /// These, at least one.
    Operands(Vec<Vec<u8>>),
    /// Those in the file of this name, each ended by a byte 0.
    From(Vec<u8>),
}

/// What was said together.
#[derive(Drop)]
pub struct Settings {
    pub variant: Option<Variant>,
    pub check: bool,
    /// The mode that a line shows, by its option. Files are read alike in both.
    pub mode: Option<Flag>,
    pub tag: bool,
    pub zero: bool,
    /// Which of `--quiet`, `--status` and `--warn` came last.
    pub telling: Option<Flag>,
    pub ignore_missing: bool,
    pub strict: bool,
    pub progress: bool,
    pub names_in: Option<Vec<u8>>,
    pub names: Vec<Vec<u8>>,
}

impl Settings {
    /// The settings before anything is said.
    pub fn new(alloc: Global) -> Settings
        ensures { Holds [] result }
    {
        Settings {
            variant: None,
            check: false,
            mode: None,
            tag: false,
            zero: false,
            telling: None,
            ignore_missing: false,
            strict: false,
            progress: false,
            names_in: None,
            names: Vec::new(alloc),
        }
    }

    // The first conflict of options, in the order in which `sha256sum` looks.
    fn conflict(&self) -> Option<Misuse>
        ensures { (words : List Said) → Holds words self.now → result ≡ conflict words }
    {
        if self.tag && self.mode == Some(Flag::Text) {
            Some(Misuse::TextWithTag)
        } else if self.check {
            self.conflict_with_check()
        } else {
            self.needs_check().map(Misuse::OnlyWithCheck)
        }
    }

    // An option that `--check` excludes.
    fn conflict_with_check(&self) -> Option<Misuse>
        ensures { result ≡ excluded self.now.zero self.now.tag self.now.mode }
    {
        if self.zero {
            Some(Misuse::ZeroWithCheck)
        } else if self.tag {
            Some(Misuse::TagWithCheck)
        } else if self.mode.is_some() {
            Some(Misuse::ModeWithCheck)
        } else {
            None
        }
    }

    // An option that needs `--check`.
    fn needs_check(&self) -> Option<Flag>
        ensures { result ≡ needs_check self.now.ignore_missing self.now.telling self.now.strict }
    {
        if self.ignore_missing {
            return Some(Flag::IgnoreMissing);
        }
        self.telling.or(self.strict.then_some(Flag::Strict))
    }

    fn options(&self) -> Options
        ensures { (words : List Said) → Holds words self.now → result ≡ options_of words }
    {
        Options {
            ignore_missing: self.ignore_missing,
            quiet: self.telling == Some(Flag::Quiet),
            status: self.telling == Some(Flag::Status),
            strict: self.strict,
            warn: self.telling == Some(Flag::Warn),
        }
    }

    fn form(&self) -> Form
        ensures { result ≡ form_of self.now.tag self.now.mode }
    {
        if self.tag {
            Form::Tagged
        } else if self.mode == Some(Flag::Binary) {
            Form::Binary
        } else {
            Form::Text
        }
    }

    /// What they ask for, or why they are refused.
    pub fn request(self, alloc: Global) -> Result<Result<Request, Misuse>, AllocError>
        ensures { (words : List Said) → Holds words self → IfOk result (λ answer. MatchResult answer (Asks words) (IsRefused words)) }
    {
        if let Some(misuse) = self.conflict() {
            return Ok(Err(misuse));
        }
        let options = self.options();
        let form = self.form();
        let ending = if self.zero {
            Ending::Zero
        } else {
            Ending::Newline
        };
        let work = if self.check {
            Work::Check {
                only: self.variant,
                options,
            }
        } else {
            Work::Print(Style {
                variant: self.variant.unwrap_or(Variant::R160),
                form,
                ending,
            })
        };
        let progress = self.progress;
        Ok(match choose_names(alloc, self.names_in, self.names)? {
            Ok(names) => Ok(Request::Run {
                work,
                names,
                progress,
            }),
            Err(misuse) => Err(misuse),
        })
    }
}

fn choose_names(
    alloc: Global,
    names_in: Option<Vec<u8>>,
    names: Vec<Vec<u8>>,
) -> Result<Result<NameSource, Misuse>, AllocError>
    ensures { IfOk result (λ answer. MatchResult answer (AreNames (option_map vec_items names_in) (map vec_items names.items))
        (IsExtra (option_map vec_items names_in) (map vec_items names.items))) }
{
    let Some(file) = names_in else {
        if names.is_empty() {
            return Ok(Ok(NameSource::Operands(standard_input(alloc)?)));
        }
        return Ok(Ok(NameSource::Operands(names)));
    };
    Ok(match names.into_iter().next() {
        None => Ok(NameSource::From(file)),
        Some(name) => Err(Misuse::ExtraOperand(name)),
    })
}

fn standard_input(alloc: Global) -> Result<Vec<Vec<u8>>, AllocError>
    ensures { IfOk result (λ names. map vec_items names.items ≡ codes "-" ∷ []) }
{
    let name = Vec::from_slice(alloc, b"-")?;
    Ok(vec![in alloc; name]?)
}
