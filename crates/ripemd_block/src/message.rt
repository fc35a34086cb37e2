//! The message words of a block.

ghost use Rattle.std.specs.Prelude.{◌≡◌, ◌<◌, ◌+◌, ◌*◌, ℕ, length, slice_index};
ghost use Rattle.ripemd_block.specs.Standard.{message_word};
ghost use Rattle.ripemd_block.specs.Code.{message_words};

use std::simd::prelude::*;

/// Message words `4 * i` to `4 * i + 3` of a block.
#[inline(always)]
pub fn four_words(block: &[u8], i: usize) -> u32x4
    requires size { length block.now ≡ 64 }
    requires row { i < 4 }
    ensures size { length result ≡ 4 }
    ensures words { (k : ℕ) → k < 4
        → slice_index result k ≡ message_word block.now (4 * i + k) }
{
    u32x4::from_le_bytes(u8x16::from_slice(&block[16 * i..]))
}

/// The sixteen message words of a block.
#[inline(always)]
pub(crate) fn message_words(block: &[u8]) -> u32x16
    requires { length block.now ≡ 64 }
    ensures { result ≡ message_words block.now }
{
    u32x16::from_le_bytes(u8x64::from_slice(block))
}
