// The first caller of ripemd's README.

ghost use Rattle.std.specs.Prelude.{◌≡◌, ◌++◌};
ghost use Rattle.ripemd.specs.Standard.{ripemd160, ripemd};

use ripemd::{Digest, Ripemd160};

/// The RIPEMD-160 digest of a message that comes in two pieces.
pub fn digest_of_two(first: &[u8], second: &[u8]) -> [u8; 20]
    ensures { result ≡ ripemd ripemd160 (first.now ++ second.now) }
{
    let mut hasher = Ripemd160::new();
    hasher.update(first);
    hasher.update(second);
    hasher.finalize()
}
