//! Facts of the definitions: worked cases, and laws. The functions do nothing: their contracts
//! are the facts.

ghost use Rattle.std.specs.Prelude.{◌≡◌, ◌≢◌, ◌==◌, ℕ, List, ◌∷◌, false};
ghost use Rattle.std.specs.List.{list_any};
ghost use Rattle.ripemd_files.specs.Types.{Variant, Layout, Form, Newline, Zero};
ghost use Rattle.ripemd_files.specs.Lines.{IsLine, RoundTrips, line_of, is_end};
ghost use Rattle.ripemd_files.specs.Worked.{WrittenLines, EscapedLines, UntaggedLines, MarkedLines, TaggedLines, ReversedLines, RefusedLines, RefusedTags, Zeros};

/// Lines as coreutils writes them.
#[tactic(auto, unfolding(hex::specs::Hex::encode_with))]
pub fn written_lines()
    ensures forms { WrittenLines }
    ensures escapes { EscapedLines }
{}

/// Lines as coreutils reads them.
pub fn read_lines()
    ensures untagged { UntaggedLines }
    ensures marked { MarkedLines }
    ensures tagged { TaggedLines }
    ensures reversed { ReversedLines }
{}

/// Lines that are refused.
pub fn refused_lines()
    ensures untagged { RefusedLines }
    ensures tagged { RefusedTags }
    ensures zeros { Zeros }
{}

/// A line says one thing.
pub fn one_meaning()
    ensures { (layout : Layout) (line : List ℕ) (variant other_variant : Variant) (digest other_digest name other_name : List ℕ)
        → IsLine layout line variant digest name → IsLine layout line other_variant other_digest other_name
        → (variant ≡ other_variant) × (digest ≡ other_digest) × (name ≡ other_name) }
{}

/// How lines end and begin, so that lists can be split into lines.
pub fn line_ends()
    // No newline, carriage return or byte 0 stands before the newline.
    ensures newline { (layout : Layout) (form : Form) (variant : Variant) (digest name : List ℕ) → RoundTrips layout form variant digest name
        → list_any is_end (line_of Newline form variant digest name) ≡ false }
    // No byte 0 stands before the last.
    ensures zero { (layout : Layout) (form : Form) (variant : Variant) (digest name : List ℕ) → RoundTrips layout form variant digest name
        → list_any (λ byte. byte == 0) (line_of Zero form variant digest name) ≡ false }
    // No line is empty or begins with `#`.
    ensures first { (layout : Layout) (line : List ℕ) (variant : Variant) (digest name : List ℕ) → IsLine layout line variant digest name
        → (byte : ℕ) × (rest : List ℕ) × (line ≡ byte ∷ rest) × (byte ≢ 35) }
{}
