//! A check accepts what was printed. Functions without a result do nothing: their contracts are the theorems.

ghost use Rattle.std.specs.Prelude.{◌≡◌, ◌≢◌, ◌<◌, ◌^◌, ◌↔◌, ◌⊎◌, ℕ, List, Bool, Option, length, IfSome, IsNone};
ghost use Rattle.hex.specs.Hex.{IsBytes};
ghost use Rattle.ripemd_files.specs.Lines.{size_of};
ghost use Rattle.ripemd.specs.Standard.{ripemd};
ghost use Rattle.ripemd_files.specs.Types.{Form, Layout, Variant, Rules, Verdict, Differs, Matches};
ghost use Rattle.ripemd_files.specs.Checking.{checked, verdict_of_digest};
ghost use Rattle.ripemd_files.specs.Lists.{IsEventOn, IsTaken};
ghost use Rattle.ripemd_files.specs.Printing.{IsCollisionOf, IsPrinted, printed_line};
ghost use Rattle.ripemd_files.specs.Files.{Gives, parameters_of};

use crate::folder::Folder;
use crate::line::Variant;
use ripemd::block_api::{Ripemd128Core, Ripemd160Core, Ripemd256Core, Ripemd320Core};
use ripemd::witness::{Collision, collision_witness};

/// Digests have their variant's length, and consist of bytes.
#[tactic(auto, using(crate::proofs::Agreeing::digests))]
pub fn digest_laws()
    ensures size { (variant : Variant) (message : List ℕ) → length (ripemd (parameters_of variant) message) ≡ size_of variant }
    ensures bytes { (variant : Variant) (message : List ℕ) → IsBytes (ripemd (parameters_of variant) message) }
{}

/// What a check says of a line printed for a message and a name. If a matching file gave another message, see
/// [`matching_collision`].
pub fn printed_lines<F: Folder>(_folder: &F)
    // A check accepts the line as one for this file.
    ensures taken { (rules : Rules) (layout : Option Layout) (form : Form) (variant : Variant) (message name : List ℕ)
        → IsPrinted rules layout form variant name
        → IsTaken rules layout (printed_line form variant message name) variant (ripemd (parameters_of variant) message) name }
    // A file that gives only the message never differs.
    ensures accepted { (rules : Rules) (layout : Option Layout) (form : Form) (variant : Variant) (message name found : List ℕ)
        (ignore_missing : Bool) (number : ℕ) (verdict : Verdict) → IsPrinted rules layout form variant name
        → IsEventOn (F.place _folder.now) ignore_missing rules layout number (printed_line form variant message name) (checked found verdict)
        → ((given : List ℕ) → Gives ((F.place _folder.now).opens name) (F.place _folder.now).left given → given ≡ message)
        → (found ≡ name) × (verdict ≢ Differs) }
    // A file that matches gave a message with this digest.
    ensures matches { (rules : Rules) (layout : Option Layout) (form : Form) (variant : Variant) (message name found : List ℕ)
        (ignore_missing : Bool) (number : ℕ) → IsPrinted rules layout form variant name
        → IsEventOn (F.place _folder.now) ignore_missing rules layout number (printed_line form variant message name) (checked found Matches)
        → (given : List ℕ) × Gives ((F.place _folder.now).opens name) (F.place _folder.now).left given
        × (ripemd (parameters_of variant) given ≡ ripemd (parameters_of variant) message) }
{}

/// A collision of a variant's block function.
#[derive(Clone, Copy, PartialEq, Eq, Debug)]
pub enum VariantCollision {
    R128(Collision<[u32; 4]>),
    R160(Collision<[u32; 5]>),
    R256(Collision<[u32; 8]>),
    R320(Collision<[u32; 10]>),
}

/// The collision of the variant's block function that [`collision_witness`] makes of a printed message and another
/// that a matching file gives. Each message has fewer than 2^61 bytes.
pub fn matching_collision<F: Folder>(
    // Proof only.
    _folder: &F,
    variant: Variant,
    printed: &[u8],
    given: &[u8],
) -> Option<VariantCollision>
    requires printed_short { length printed.now < 2 ^ 61 }
    requires given_short { length given.now < 2 ^ 61 }
    ensures collision { IfSome result (IsCollisionOf variant printed.now given.now) }
    // `None` exactly if the messages are equal or have other digests.
    ensures none { IsNone result ↔ ((printed.now ≡ given.now)
        ⊎ (verdict_of_digest (ripemd (parameters_of variant) given.now) (ripemd (parameters_of variant) printed.now) ≡ Differs)) }
    // If the file of a line gives only `given`, and matches, `None` means equal messages.
    ensures line { (rules : Rules) (layout : Option Layout) (form : Form) (name found : List ℕ) (ignore_missing : Bool) (number : ℕ)
        → IsPrinted rules layout form variant name
        → IsEventOn (F.place _folder.now) ignore_missing rules layout number (printed_line form variant printed.now name) (checked found Matches)
        → ((message : List ℕ) → Gives ((F.place _folder.now).opens name) (F.place _folder.now).left message → message ≡ given.now)
        → IsNone result → printed.now ≡ given.now }
{
    match variant {
        Variant::R128 => {
            collision_witness::<Ripemd128Core>(printed, given).map(VariantCollision::R128)
        }
        Variant::R160 => {
            collision_witness::<Ripemd160Core>(printed, given).map(VariantCollision::R160)
        }
        Variant::R256 => {
            collision_witness::<Ripemd256Core>(printed, given).map(VariantCollision::R256)
        }
        Variant::R320 => {
            collision_witness::<Ripemd320Core>(printed, given).map(VariantCollision::R320)
        }
    }
}
