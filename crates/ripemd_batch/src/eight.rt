//! Eight words, one of each message.

ghost use Rattle.std.specs.Prelude.{◌≡◌, ◌++◌, ℕ, List};
ghost use Rattle.std.proofs.Common.{refl, rules};

use crate::four::Four;
use crate::lanes::Lanes;
use crate::message::transposed_words;
use std::marker::Model;
use std::simd::prelude::*;

/// The words of eight messages.
#[derive(Clone, Copy)]
pub struct Eight(u32x8);

impl Model for Eight {
    ghost Value = { List ℕ };

    ghost view = { λ w. w.0 };

    ghost inverse = { λ xs. record { 0 = xs } };

    ghost inverse_ok = { λ w h. refl };
}

impl Lanes for Eight {
    ghost words = { λ v. v };

    ghost COUNT = { 8 };

    #[inline(always)]
    fn of(array: [u32; 8]) -> Eight {
        Eight(u32x8::from_array(array))
    }

    #[inline(always)]
    fn word(self, j: usize) -> u32 {
        self.0.to_array()[j]
    }

    #[inline(always)]
    fn splat(word: u32) -> Eight {
        Eight(u32x8::splat(word))
    }

    #[inline(always)]
    fn known(self) -> Eight {
        self
    }

    #[inline(always)]
    fn add(self, other: Eight) -> Eight {
        Eight(self.0 + other.0)
    }

    #[inline(always)]
    fn xor(self, other: Eight) -> Eight {
        Eight(self.0 ^ other.0)
    }

    #[inline(always)]
    fn and(self, other: Eight) -> Eight {
        Eight(self.0 & other.0)
    }

    #[inline(always)]
    fn not(self) -> Eight {
        Eight(!self.0)
    }

    #[inline(always)]
    fn rotate(self, by: u32) -> Eight {
        Eight((self.0 << u32x8::splat(by)) | (self.0 >> u32x8::splat(32 - by)))
    }

    #[inline(always)]
    fn four_message_words(blocks: &[&[u8; 64]; 8], i: usize) -> [Eight; 4] {
        let low = transposed_words(blocks, 0, i);
        let high = transposed_words(blocks, 4, i);
        [
            Eight::joined(low[0], high[0]),
            Eight::joined(low[1], high[1]),
            Eight::joined(low[2], high[2]),
            Eight::joined(low[3], high[3]),
        ]
    }

    ghost few = { Prim.search rules };

    ghost small = { Prim.search rules };
}

impl Eight {
    // The words of messages 0 to 3, and 4 to 7.
    #[inline(always)]
    fn joined(low: Four, high: Four) -> Eight
        ensures { result ≡ low ++ high }
    {
        Eight(low.lanes().shuffle(high.lanes(), [0, 1, 2, 3, 4, 5, 6, 7]))
    }
}
