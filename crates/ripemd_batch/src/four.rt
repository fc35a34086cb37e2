//! Four words, one of each message.

ghost use Rattle.std.specs.Prelude.{◌≡◌, ◌<◌, ◌+◌, ◌*◌, ℕ, [], ◌∷◌, ◌++◌, length, slice_index, slice_index_or, List};
ghost use Rattle.std.proofs.Common.{refl, rules};
ghost use Rattle.ripemd_block.specs.Standard.{message_word};

use crate::lanes::Lanes;
use crate::message::transposed_words;
use ripemd_block::message::four_words;
use std::marker::Model;
use std::simd::prelude::*;

/// The words of four messages.
#[derive(Clone, Copy)]
pub struct Four(u32x4);

impl Model for Four {
    ghost Value = { List ℕ };

    ghost view = { λ w. w.0 };

    ghost inverse = { λ xs. record { 0 = xs } };

    ghost inverse_ok = { λ w h. refl };
}

impl Lanes for Four {
    ghost words = { λ v. v };

    ghost COUNT = { 4 };

    #[inline(always)]
    fn of(array: [u32; 8]) -> Four {
        Four(u32x4::from_array([array[0], array[1], array[2], array[3]]))
    }

    #[inline(always)]
    fn word(self, j: usize) -> u32 {
        self.0.to_array()[j]
    }

    #[inline(always)]
    fn splat(word: u32) -> Four {
        Four(u32x4::splat(word))
    }

    #[inline(always)]
    fn known(self) -> Four {
        self
    }

    #[inline(always)]
    fn add(self, other: Four) -> Four {
        Four(self.0 + other.0)
    }

    #[inline(always)]
    fn xor(self, other: Four) -> Four {
        Four(self.0 ^ other.0)
    }

    #[inline(always)]
    fn and(self, other: Four) -> Four {
        Four(self.0 & other.0)
    }

    #[inline(always)]
    fn not(self) -> Four {
        Four(!self.0)
    }

    #[inline(always)]
    fn rotate(self, by: u32) -> Four {
        Four((self.0 << u32x4::splat(by)) | (self.0 >> u32x4::splat(32 - by)))
    }

    #[inline(always)]
    fn four_message_words(blocks: &[&[u8; 64]; 8], i: usize) -> [Four; 4] {
        transposed_words(blocks, 0, i)
    }

    ghost few = { Prim.search rules };

    ghost small = { Prim.search rules };
}

impl Four {
    /// Its words as a vector.
    #[inline(always)]
    pub(crate) fn lanes(self) -> u32x4
        ensures { result ≡ self }
    {
        self.0
    }

    /// Message words `4 * i` to `4 * i + 3` of a block.
    #[inline(always)]
    pub(crate) fn of_block(block: &[u8], i: usize) -> Four
        requires size { length block.now ≡ 64 }
        requires row { i < 4 }
        ensures { (k : ℕ) → k < 4
            → slice_index result k ≡ message_word block.now (4 * i + k) }
    {
        Four(four_words(block, i))
    }

    /// Words 0 and 1 of two vectors in turn, and words 2 and 3.
    #[inline(always)]
    pub(crate) fn interleave(self, other: Four) -> (Four, Four)
        ensures low { result.0 ≡ slice_index self 0 ∷ slice_index other 0
            ∷ slice_index self 1 ∷ slice_index other 1 ∷ [] }
        ensures high { result.1 ≡ slice_index self 2 ∷ slice_index other 2
            ∷ slice_index self 3 ∷ slice_index other 3 ∷ [] }
    {
        let (low, high) = self.0.interleave(other.0);
        (Four(low), Four(high))
    }

    /// Vector `k` has word `k` of each of the four vectors.
    #[inline(always)]
    pub(crate) fn transposed(a: Four, b: Four, c: Four, d: Four) -> [Four; 4]
        ensures { (k : ℕ) → k < 4 → slice_index_or result k []
            ≡ slice_index a k ∷ slice_index b k ∷ slice_index c k ∷ slice_index d k ∷ [] }
    {
        let (ac_low, ac_high) = a.interleave(c);
        let (bd_low, bd_high) = b.interleave(d);
        let (first, second) = ac_low.interleave(bd_low);
        let (third, fourth) = ac_high.interleave(bd_high);
        [first, second, third, fourth]
    }
}
