//! Facts of the definitions of lists: worked cases, and laws. The functions do nothing: their contracts are the
//! facts.

ghost use Rattle.std.specs.Prelude.{◌≡◌, ◌≢◌, ℕ, List, [], ◌∷◌, ◌++◌, Option, Some};
ghost use Rattle.ripemd_files.specs.Types.{Variant, Layout, Standard, Reversed};
ghost use Rattle.ripemd_files.specs.Reading.{layout_of, HasLayout};
ghost use Rattle.ripemd_files.specs.Splitting.{lines_of, IsOneLine};
ghost use Rattle.ripemd_files.specs.Worked.{SplitLists, StandardLayouts, ReversedLayouts, NoLayouts};

/// How a list is split into lines.
#[tactic(auto, using(crate::proofs::Cutting::lines_first, crate::proofs::Cutting::lines_last), unfolding(crate::specs::Splitting::lines_of))]
pub fn split_lists()
    ensures worked { SplitLists }
    // A newline ends a line.
    ensures first { (line rest : List ℕ) → IsOneLine line → lines_of (line ++ 10 ∷ rest) ≡ line ∷ lines_of rest }
    // So does the end of the list.
    ensures last { (line : List ℕ) → IsOneLine line → line ≢ [] → lines_of line ≡ line ∷ [] }
{}

/// In which layout lines stand.
#[tactic(auto, unfolding(crate::specs::Reading::skip_blanks, crate::specs::Reading::split_blank, crate::specs::Reading::strip_label, crate::specs::Reading::untagged_at, crate::specs::Reading::layout_at))]
pub fn list_layouts()
    ensures standard { StandardLayouts }
    ensures reversed { ReversedLayouts }
    ensures none { NoLayouts }
{}

/// A line's layout is found, and no other; the standard one, if it has both.
#[tactic(auto, using(crate::proofs::Sayings::finding))]
pub fn found_layouts()
    ensures found { (only : Option Variant) (layout : Layout) (line : List ℕ) → layout_of only line ≡ Some layout → HasLayout only layout line }
    ensures standard { (only : Option Variant) (line : List ℕ) → HasLayout only Standard line → layout_of only line ≡ Some Standard }
    ensures reversed { (only : Option Variant) (line : List ℕ) → HasLayout only Reversed line → ¬ HasLayout only Standard line
        → layout_of only line ≡ Some Reversed }
{}
