//! RIPEMD-128, RIPEMD-160, RIPEMD-256 and RIPEMD-320 (1996) for callers in other languages: digests of messages, whole
//! and in pieces, of records and of lists, tags (HMAC, RFC 2104), and keys derived from passwords (PBKDF2, RFC 8018). A
//! number names the variant, the bits of its digests, unless a state does. A call that answers false writes nothing.
//!
//! C calls these functions through `nattizhu.h`. Those whose names end in `_nonnull` take slices, whose pointers may not
//! be null; the header has each without this ending, which takes a null pointer with the length 0. Of the same library
//! `build/js` makes WebAssembly modules, of the functions that JavaScript calls.
#![tactic(auto)]

ghost use Rattle.std.specs.Prelude.{◌≡◌, length};
ghost use Rattle.ripemd.specs.Standard.{hash};
ghost use Rattle.ripemd_c.specs.Variants.{AtVariant, Writes, WritesDigest, digest_size};

/// Calls a generic function at the hasher of the variant with digests of so many bits, or at the HMAC over it; false
/// if there is no such variant. The names of the hashers, and `Hmac`, have to be in scope. Of one `match` over all
/// four the compiler would make a table of jumps, which at times take longer. It puts the first arm, RIPEMD-160,
/// right after the tests, with no jump.
macro_rules! by_variant {
    ($bits:expr, $call:ident::<Hmac> $arguments:tt) => {
        by_variant!($bits, $call, Hmac<Ripemd128>, Hmac<Ripemd160>, Hmac<Ripemd256>, Hmac<Ripemd320>, $arguments)
    };
    ($bits:expr, $call:ident $arguments:tt) => {
        by_variant!($bits, $call, Ripemd128, Ripemd160, Ripemd256, Ripemd320, $arguments)
    };
    ($bits:expr, $call:ident, $of128:ty, $of160:ty, $of256:ty, $of320:ty, $arguments:tt) => {{
        let bits: u32 = $bits;
        if bits < 256 {
            match bits {
                160 => $call::<$of160> $arguments,
                128 => $call::<$of128> $arguments,
                _ => false,
            }
        } else {
            match bits {
                256 => $call::<$of256> $arguments,
                320 => $call::<$of320> $arguments,
                _ => false,
            }
        }
    }};
}

pub mod each;
pub mod facts;
pub mod hmac;
pub mod js;
mod kept;
pub mod pbkdf2;
mod states;
pub mod streams;

use ripemd::{Digest, Ripemd128, Ripemd160, Ripemd256, Ripemd320};

/// The size of the variant's digests and tags in bytes; 0 if there is no such variant.
#[unsafe(no_mangle)]
pub extern "C" fn nattizhu_digest_size(variant: u32) -> usize
    ensures { AtVariant variant (λ v. result ≡ digest_size v) (result ≡ 0) }
{
    // A table of sizes would be data of the WebAssembly modules, which have none.
    match variant {
        128 | 160 | 256 | 320 => variant as usize / 8,
        _ => 0,
    }
}

/// Writes the digest of the message to `digest`. True exactly if there is such a variant and `digest` has the size of
/// its digests.
#[unsafe(no_mangle)]
pub extern "C" fn nattizhu_digest_nonnull(variant: u32, message: &[u8], digest: &mut [u8]) -> bool
    ensures { WritesDigest variant message.now digest.old digest.new result }
{
    by_variant!(variant, write_digest(message, digest))
}

fn write_digest<D: Digest>(message: &[u8], digest: &mut [u8]) -> bool
    ensures { Writes (length digest.old ≡ D.OUTPUT_SIZE) (hash D.start D.step D.output message.now)
        digest.old digest.new result }
{
    write(D::output_bytes(&D::digest(message)), digest)
}

// Writes an output to its place, if that has its size.
fn write(output: &[u8], place: &mut [u8]) -> bool
    ensures { Writes (length place.old ≡ length output.now) output.now place.old place.new result }
{
    if place.len() != output.len() {
        return false;
    }
    place.copy_from_slice(output);
    true
}
