//! Facts of the definitions of prints and checks: worked cases, and that one answer is right. The functions do
//! nothing: their contracts are the facts.

ghost use Rattle.std.specs.Prelude.{◌≡◌, ◌⊎◌, ℕ, List, [], ◌∷◌, Bool, Option, Some, Result, length};
ghost use Rattle.std.specs.declared.io.Error.{Error};
ghost use Rattle.ripemd_files.specs.Types.{Outcome, Layout, Rules, Style, Options, Tally, Ended};
ghost use Rattle.ripemd_files.specs.Determined.{IsKnown, Print, Report, Start};
ghost use Rattle.ripemd_files.specs.Said.{Item};
ghost use Rattle.ripemd_files.specs.Files.{IsDigest};
ghost use Rattle.ripemd_files.specs.Checking.{Event};
ghost use Rattle.ripemd_files.specs.WorkedChecks.{DigestVerdicts, ErrorVerdicts, ItemsOfEvents, LinesOfEvents, RemarksOnEvents, Tallies, LongCounts, ClosingRemarks, Answers, OptionLaws, PassedOver, Bodies, NextLayouts, Wanted, PrintedLines, PrintedErrors, KnownFolders};

use crate::folder::Folder;

/// If all is known of a folder, only one report on a list is right.
pub fn one_report<F: Folder>(_folder: &F)
    // Reports that read the list to its end, or equally far, agree.
    ensures { (contents : List ℕ → Result (List ℕ) Error) (options : Options) (rules : Rules) (first : Option Layout) (start : Start)
        → IsKnown (F.place _folder.now) contents → (one other : Report (F.place _folder.now) options rules first start)
        → one.left.stage ≡ other.left.stage
        → one.left.stage ≡ Ended ⊎ (length one.checks.report.read.bytes ≡ length other.checks.report.read.bytes)
        → (one.last ≡ other.last) × (one.told.items ≡ other.told.items) × (one.success ≡ other.success) }
{}

/// If all is known of a folder, only one print of files is right.
pub fn one_print<F: Folder>(_folder: &F)
    ensures { (contents : List ℕ → Result (List ℕ) Error) (style : Style) (names : List (List ℕ)) (before : List Item) (failure : Option Error)
        → IsKnown (F.place _folder.now) contents
        → (one other : Print (F.place _folder.now) style names (record { items = Some before; failure = failure }))
        → (one.told.items ≡ other.told.items) × (one.all ≡ other.all) }
{}

/// What a check finds of files.
pub fn worked_verdicts()
    ensures digests { (ignore_missing : Bool) (outcome : Outcome) → IsDigest outcome (1 ∷ 2 ∷ 3 ∷ []) → DigestVerdicts ignore_missing outcome }
    ensures errors { (error : Error) → ErrorVerdicts error }
{}

/// What is said of files and lines.
pub fn worked_events()
    ensures lines { (error : Error) → LinesOfEvents error }
    ensures remarks { (error : Error) → RemarksOnEvents error }
    ensures items { (error : Error) → ItemsOfEvents error }
{}

/// What is counted, said at the end, and answered.
pub fn worked_counts()
    ensures tallies { (error : Error) → Tallies error }
    ensures long { (events : List Event) → LongCounts events }
    ensures remarks { ClosingRemarks }
    ensures answers { Answers }
{}

/// What each option of a check does.
pub fn option_laws()
    ensures { (options : Options) (event : Event) (counts : Tally) → OptionLaws options event counts }
{}

/// Which lines are passed over, what others say, and the layout of lists.
#[tactic(auto, unfolding(crate::specs::Reading::skip_blanks, crate::specs::Reading::split_blank, crate::specs::Reading::strip_label, crate::specs::Reading::untagged_at, crate::specs::Reading::layout_at))]
pub fn worked_lists()
    ensures passed { PassedOver }
    ensures bodies { Bodies }
    ensures layouts { NextLayouts }
    ensures wanted { Wanted }
{}

/// What is printed of files.
#[tactic(auto, unfolding(hex::specs::Hex::encode_with))]
pub fn worked_prints()
    ensures lines { (outcome : Outcome) → IsDigest outcome (0x01 ∷ 0xab ∷ []) → PrintedLines outcome }
    ensures errors { (style : Style) (error : Error) → PrintedErrors style error }
{}

/// Folders of which all is known, and others.
pub fn worked_folders()
    ensures { (error : Error) → KnownFolders error }
{}
