//! The list of commands of `ripemd`'s README.

ghost use Rattle.std.specs.Prelude.{◌≡◌, [], ◌∷◌, ◌++◌, IfOk, IfErr};
ghost use Rattle.ripemd.specs.Standard.{ripemd160, ripemd};

use ripemd::Ripemd160;
use ripemd::replay::{Command, ReplayError, replay};
use std::alloc::Global;

/// The RIPEMD-160 digests of a message with one end, and with another.
///
/// # Errors
///
/// `OutOfMemory`.
pub fn digests_of_ends<'a>(
    alloc: Global,
    start: &'a [u8],
    end: &'a [u8],
    other: &'a [u8],
) -> Result<Vec<[u8; 20]>, ReplayError>
    ensures digests { IfOk result (λ digests. digests.items
        ≡ ripemd ripemd160 (start.now ++ end.now) ∷ ripemd ripemd160 (start.now ++ other.now) ∷ []) }
    ensures error { IfErr result (λ error. error ≡ ReplayError.OutOfMemory) }
{
    let commands = [
        Command::New,
        Command::Update {
            hasher: 0,
            bytes: start,
        },
        Command::Fork { hasher: 0 },
        Command::Update {
            hasher: 0,
            bytes: end,
        },
        Command::Update {
            hasher: 1,
            bytes: other,
        },
        Command::Finish { hasher: 0 },
        Command::Finish { hasher: 1 },
    ];
    replay::<Ripemd160>(alloc, &commands)
}
