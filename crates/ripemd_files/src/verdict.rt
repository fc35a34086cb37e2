//! What a check finds, and counts.

ghost use Rattle.std.specs.Prelude.{◌≡◌, ◌++◌, ◌∷◌, [], List, ℕ};
ghost use Rattle.ripemd_files.specs.Checking.{Event, IsTally, checked, is_missing, is_success, misformatted, verdict_of, verdict_of_digest};

use crate::outcome::Outcome;
use std::io;
use std::io::ErrorKind;

/// How a list is checked: options of `sha256sum`.
#[derive(Clone, Copy, PartialEq, Eq, Debug)]
pub struct Options {
    /// Leave out missing files.
    pub ignore_missing: bool,
    /// Write no line for a file that matches.
    pub quiet: bool,
    /// Write no lines, and remark on no counts.
    pub status: bool,
    /// Fail if a line is misformatted.
    pub strict: bool,
    /// Remark on each such line.
    pub warn: bool,
}

/// What was found of the file that a line names.
#[derive(Clone, Copy, Debug)]
pub enum Verdict {
    /// Its digest is the line's.
    Matches,
    /// Its digest is another.
    Differs,
    /// It is missing, and left out.
    Missing,
    /// It could not be opened or read.
    Unreadable(io::Error),
}

impl Verdict {
    /// The verdict on a file with this outcome, whose line has the digest `wanted`.
    pub fn of(ignore_missing: bool, wanted: &[u8], outcome: &Outcome) -> Verdict
        ensures { result ≡ verdict_of ignore_missing wanted.now outcome.now }
    {
        match outcome {
            Outcome::Digest(digest) => Verdict::of_digest(digest.as_slice(), wanted),
            Outcome::Refused(error) => {
                if ignore_missing && is_missing_error(error) {
                    Verdict::Missing
                } else {
                    Verdict::Unreadable(*error)
                }
            }
            Outcome::Broken(error) => Verdict::Unreadable(*error),
        }
    }

    fn of_digest(digest: &[u8], wanted: &[u8]) -> Verdict
        ensures { result ≡ verdict_of_digest digest.now wanted.now }
    {
        if *digest == *wanted {
            Verdict::Matches
        } else {
            Verdict::Differs
        }
    }
}

fn is_missing_error(error: &io::Error) -> bool
    ensures { result ≡ is_missing error.now }
{
    matches!(error.kind(), ErrorKind::NotFound)
}

/// What was counted of a list. Counts stop at 2^64 - 1.
#[derive(Clone, Copy, PartialEq, Eq, Debug, Default)]
pub struct Tally {
    /// Misformatted lines.
    pub misformatted: u64,
    /// Files with another digest.
    pub differing: u64,
    /// Files that could not be opened or read.
    pub unreadable: u64,
    /// Whether a file matches.
    pub matched: bool,
    /// Whether a line was checked.
    pub checked: bool,
}

impl Tally {
    /// Nothing is counted.
    pub fn new() -> Tally
        ensures { IsTally [] result }
    {
        Tally {
            misformatted: 0,
            differing: 0,
            unreadable: 0,
            matched: false,
            checked: false,
        }
    }

    /// Counts a misformatted line.
    pub fn add_misformatted(&mut self)
        ensures { (events : List Event) (number : ℕ) → IsTally events self.old → IsTally (events ++ misformatted number ∷ []) self.new }
    {
        self.misformatted = self.misformatted.saturating_add(1);
    }

    /// Counts a verdict.
    pub fn add(&mut self, verdict: &Verdict)
        ensures { (events : List Event) (name : List ℕ) → IsTally events self.old → IsTally (events ++ checked name verdict.now ∷ []) self.new }
    {
        self.checked = true;
        match verdict {
            Verdict::Matches => self.matched = true,
            Verdict::Differs => self.differing = self.differing.saturating_add(1),
            Verdict::Missing => {}
            Verdict::Unreadable(_) => self.unreadable = self.unreadable.saturating_add(1),
        }
    }

    /// Whether the check succeeds.
    pub fn is_success(&self, options: Options) -> bool
        ensures { result ≡ is_success options self.now }
    {
        self.checked
            && self.differing == 0
            && self.unreadable == 0
            && (!options.ignore_missing || self.matched)
            && (!options.strict || self.misformatted == 0)
    }
}
