//! Walks over blocks with both lines in general registers. These rotate in one instruction, so many blocks take less
//! time than in vectors.

ghost use Rattle.std.specs.Prelude.{◌≡◌};
ghost use Rattle.ripemd_block.specs.Standard.{walk};

mod lines;

use crate::chaining::{
    double_state_of_five, double_state_of_four, joint_state_of_five, joint_state_of_four,
    lines_of_256, lines_of_320,
};
use crate::traits::BlockFunction;
use crate::variants::{Ripemd128Function, Ripemd160Function, Ripemd256Function, Ripemd320Function};
use lines::{BothLines, exchange, round, words_of_five_rounds, words_of_four_rounds};
use std::simd::prelude::*;

/// A block function with a step in general registers.
pub(crate) trait InRegisters: BlockFunction {
    /// The state after a block.
    fn compress(state: Self::State, block: &[u8; 64]) -> Self::State
        ensures value { result ≡ Self.step_of state block.now }
        ensures valid { Self.is_state result };

    #[inline(always)]
    fn put(state: Self::State, place: &mut Self::State)
        ensures { place.new ≡ state }
    {
        *place = state;
    }
}

/// Takes blocks into a state in order.
#[inline(always)]
pub(crate) fn walk_in_registers<F: InRegisters>(first: &mut F::State, blocks: &[[u8; 64]])
    ensures value { first.new ≡ walk F.step_of first.old blocks.now }
    ensures valid { F.is_state first.old → F.is_state first.new }
{
    let mut state = *first;
    for block in blocks {
        state = F::compress(state, block);
    }
    F::put(state, first);
}

impl InRegisters for Ripemd128Function {
    #[tactic(auto, using(crate::proofs::Stepping::word_sums_fit))]
    #[inline(always)]
    fn compress(state: [u32; 4], block: &[u8; 64]) -> [u32; 4] {
        let words = words_of_four_rounds(block);
        let lines = BothLines {
            left: state,
            right: state,
        };
        let lines = round(0, &words, lines);
        let lines = round(1, &words, lines);
        let lines = round(2, &words, lines);
        let lines = round(3, &words, lines);
        joint_state_of_four(state, lines.left, lines.right)
    }
}

impl InRegisters for Ripemd160Function {
    #[tactic(auto, using(crate::proofs::Stepping::word_sums_fit))]
    #[inline(always)]
    fn compress(state: [u32; 5], block: &[u8; 64]) -> [u32; 5] {
        let words = words_of_five_rounds(block);
        let lines = BothLines {
            left: state,
            right: state,
        };
        let lines = round(0, &words, lines);
        let lines = round(1, &words, lines);
        let lines = round(2, &words, lines);
        let lines = round(3, &words, lines);
        let lines = round(4, &words, lines);
        joint_state_of_five(state, lines.left, lines.right)
    }

    // One store of four words: otherwise the compiler keeps them in a vector between blocks, and the next block waits
    // for them. It makes no vector of other states.
    #[inline(always)]
    fn put(state: [u32; 5], place: &mut [u32; 5]) {
        let [s0, s1, s2, s3, s4] = state;
        u32x4::from_array([s0, s1, s2, s3]).copy_to_slice(&mut place[..4]);
        place[4] = s4;
    }
}

// The lines exchange A, B, C and D in turn.
impl InRegisters for Ripemd256Function {
    #[tactic(auto, using(crate::proofs::Stepping::word_sums_fit))]
    #[inline(always)]
    fn compress(state: [u32; 8], block: &[u8; 64]) -> [u32; 8] {
        let words = words_of_four_rounds(block);
        let (left, right) = lines_of_256(state);
        let lines = BothLines { left, right };
        let lines = exchange(0, round(0, &words, lines));
        let lines = exchange(1, round(1, &words, lines));
        let lines = exchange(2, round(2, &words, lines));
        let lines = exchange(3, round(3, &words, lines));
        double_state_of_four(state, lines.left, lines.right)
    }
}

// The lines exchange B, D, A, C and E in turn.
impl InRegisters for Ripemd320Function {
    #[tactic(auto, using(crate::proofs::Stepping::word_sums_fit))]
    #[inline(always)]
    fn compress(state: [u32; 10], block: &[u8; 64]) -> [u32; 10] {
        let words = words_of_five_rounds(block);
        let (left, right) = lines_of_320(state);
        let lines = BothLines { left, right };
        let lines = exchange(1, round(0, &words, lines));
        let lines = exchange(3, round(1, &words, lines));
        let lines = exchange(0, round(2, &words, lines));
        let lines = exchange(2, round(3, &words, lines));
        let lines = exchange(4, round(4, &words, lines));
        double_state_of_five(state, lines.left, lines.right)
    }
}
