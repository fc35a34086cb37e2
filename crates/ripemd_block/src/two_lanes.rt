//! Both lines of a block in lockstep, in the two lanes of vectors: the left line in lane 0, the right one in lane 1.

ghost use Rattle.std.specs.Prelude.{◌≡◌, ◌<◌, ◌≤◌, ℕ, List, Some, length, slice_index};
ghost use Rattle.std.specs.List.{All};
ghost use Rattle.ripemd_block.specs.Standard.{◌⊞◌, rol, boolean_function, Parameters, step, round, exchange, lines_after};
ghost use Rattle.ripemd_block.specs.Code.{both_lines, message_words, line_of_lane, lane};

use crate::message::message_words;
use crate::textbook::{left_constant, left_number, right_constant, right_number, rotation};
use std::simd::prelude::*;

/// The registers of both lines: as many vectors as a line has rounds.
pub(crate) trait TwoLaneRegisters: Copy {
    // The registers of the line in lane `j`.
    ghost lane: { Self → ℕ → List ℕ };

    ghost ROUNDS: { ℕ };

    /// How many rounds a line runs.
    const ROUNDS: usize;

    /// A step of both lines in round `r`: message words `x`, constants `k`, rotations by `s` bits.
    fn step(self, r: usize, x: u32x2, k: u32x2, s: u32x2) -> Self
        requires round { r < ROUNDS }
        requires amounts { (j : ℕ) → j < 2 → (0 < slice_index s j) × (slice_index s j < 32) }
        ensures { (j : ℕ) → j < 2 → lane result j
            ≡ step ((line_of_lane ROUNDS j).function r) (slice_index x j) (slice_index k j)
            (slice_index s j) (lane self j) };

    /// The lines with register `i` exchanged.
    fn exchange(self, i: usize) -> Self
        requires { i < ROUNDS }
        ensures { both_lines (lane result 0) (lane result 1)
            ≡ exchange (Some i) (both_lines (lane self 0) (lane self 1)) };
}

// Boolean function `k` in each lane (1996, Boolean functions).
#[inline(always)]
fn boolean_function(k: usize, x: u32x2, y: u32x2, z: u32x2) -> u32x2
    requires { k < 5 }
    ensures { (j : ℕ) → j < 2 → slice_index result j
        ≡ boolean_function k (slice_index x j) (slice_index y j) (slice_index z j) }
{
    match k {
        0 => x ^ y ^ z,
        1 => (x & y) | (!x & z),
        2 => (x | !y) ^ z,
        3 => (x & z) | (y & !z),
        _ => x ^ (y | !z),
    }
}

#[inline(always)]
fn functions(left: usize, right: usize, x: u32x2, y: u32x2, z: u32x2) -> u32x2
    requires left { left < 5 }
    requires right { right < 5 }
    ensures left { slice_index result 0
        ≡ boolean_function left (slice_index x 0) (slice_index y 0) (slice_index z 0) }
    ensures right { slice_index result 1
        ≡ boolean_function right (slice_index x 1) (slice_index y 1) (slice_index z 1) }
{
    let is_left = u32x2::from_array([0, 1]).simd_eq(u32x2::splat(0));
    let lefts = boolean_function(left, x, y, z);
    let rights = boolean_function(right, x, y, z);
    is_left.select(lefts, rights)
}

#[inline(always)]
fn sum(x: u32x2, y: u32x2) -> u32x2
    ensures { (j : ℕ) → j < 2 → slice_index result j ≡ slice_index x j ⊞ slice_index y j }
{
    x + y
}

#[inline(always)]
fn rotate(words: u32x2, amounts: u32x2) -> u32x2
    requires { (j : ℕ) → j < 2
        → (0 < slice_index amounts j) × (slice_index amounts j < 32) }
    ensures { (j : ℕ) → j < 2
        → slice_index result j ≡ rol (slice_index words j) (slice_index amounts j) }
{
    (words << amounts) | (words >> (u32x2::splat(32) - amounts))
}

#[inline(always)]
fn swap(words: u32x2) -> u32x2
    ensures left { slice_index result 0 ≡ slice_index words 1 }
    ensures right { slice_index result 1 ≡ slice_index words 0 }
{
    words.reverse()
}

impl TwoLaneRegisters for [u32x2; 4] {
    ghost lane = { lane };

    ghost ROUNDS = { 4 };

    const ROUNDS: usize = 4;

    #[inline(always)]
    fn step(self, r: usize, x: u32x2, k: u32x2, s: u32x2) -> [u32x2; 4] {
        let [a, b, c, d] = self;
        let t = rotate(sum(sum(sum(a, functions(r, 3 - r, b, c, d)), x), k), s);
        [d, t, b, c]
    }

    #[tactic(auto, using(crate::proofs::TwoLanes::lane_is))]
    #[inline(always)]
    fn exchange(self, i: usize) -> [u32x2; 4] {
        let [a, b, c, d] = self;
        match i {
            0 => [swap(a), b, c, d],
            1 => [a, swap(b), c, d],
            2 => [a, b, swap(c), d],
            _ => [a, b, c, swap(d)],
        }
    }
}

impl TwoLaneRegisters for [u32x2; 5] {
    ghost lane = { lane };

    ghost ROUNDS = { 5 };

    const ROUNDS: usize = 5;

    #[inline(always)]
    fn step(self, r: usize, x: u32x2, k: u32x2, s: u32x2) -> [u32x2; 5] {
        let [a, b, c, d, e] = self;
        let t = rotate(sum(sum(sum(a, functions(r, 4 - r, b, c, d)), x), k), s);
        [e, sum(t, e), b, rotate(c, u32x2::splat(10)), d]
    }

    #[tactic(auto, using(crate::proofs::TwoLanes::lane_is))]
    #[inline(always)]
    fn exchange(self, i: usize) -> [u32x2; 5] {
        let [a, b, c, d, e] = self;
        match i {
            0 => [swap(a), b, c, d, e],
            1 => [a, swap(b), c, d, e],
            2 => [a, b, swap(c), d, e],
            3 => [a, b, c, swap(d), e],
            _ => [a, b, c, d, swap(e)],
        }
    }
}

#[inline(always)]
pub(crate) fn lanes_of_four(left: [u32; 4], right: [u32; 4]) -> [u32x2; 4]
    ensures left { lane result 0 ≡ left }
    ensures right { lane result 1 ≡ right }
{
    let [l0, l1, l2, l3] = left;
    let [r0, r1, r2, r3] = right;
    [
        u32x2::from_array([l0, r0]),
        u32x2::from_array([l1, r1]),
        u32x2::from_array([l2, r2]),
        u32x2::from_array([l3, r3]),
    ]
}

#[inline(always)]
pub(crate) fn lanes_of_five(left: [u32; 5], right: [u32; 5]) -> [u32x2; 5]
    ensures left { lane result 0 ≡ left }
    ensures right { lane result 1 ≡ right }
{
    let [l0, l1, l2, l3, l4] = left;
    let [r0, r1, r2, r3, r4] = right;
    [
        u32x2::from_array([l0, r0]),
        u32x2::from_array([l1, r1]),
        u32x2::from_array([l2, r2]),
        u32x2::from_array([l3, r3]),
        u32x2::from_array([l4, r4]),
    ]
}

#[inline(always)]
pub(crate) fn lane_of_four(registers: [u32x2; 4], j: usize) -> [u32; 4]
    requires { j < 2 }
    ensures { result ≡ lane registers j }
{
    let [a, b, c, d] = registers;
    [
        a.to_array()[j],
        b.to_array()[j],
        c.to_array()[j],
        d.to_array()[j],
    ]
}

#[inline(always)]
pub(crate) fn lane_of_five(registers: [u32x2; 5], j: usize) -> [u32; 5]
    requires { j < 2 }
    ensures { result ≡ lane registers j }
{
    let [a, b, c, d, e] = registers;
    [
        a.to_array()[j],
        b.to_array()[j],
        c.to_array()[j],
        d.to_array()[j],
        e.to_array()[j],
    ]
}

// Round `r` of both lines: sixteen steps.
#[inline(always)]
fn round<R: TwoLaneRegisters>(r: usize, words: &[u32; 16], start: R) -> R
    requires round { r < R.ROUNDS }
    requires most { R.ROUNDS ≤ 5 }
    ensures { (block : List ℕ) → words.now ≡ message_words block → (j : ℕ) → j < 2
        → R.lane result j ≡ round (line_of_lane R.ROUNDS j) block r (R.lane start j) }
{
    let k = u32x2::from_array([left_constant(r), right_constant(R::ROUNDS, r)]);
    let mut registers = start;
    for i in 0..16 {
        let left = left_number(r, i);
        let right = right_number(r, i);
        let x = u32x2::from_array([words[left], words[right]]);
        let s = u32x2::from_array([rotation(r, left), rotation(r, right)]);
        let next = registers.step(r, x, k, s);
        registers = next;
    }
    registers
}

/// Both lines after all rounds on a block. After round `r` they exchange register `exchanges[r]`, if there is one.
#[inline(always)]
#[tactic(auto, unfolding(crate::specs::Standard::Compression::lines_after))]
pub(crate) fn lines_after<R: TwoLaneRegisters>(exchanges: &[usize], block: &[u8; 64], start: R) -> R
    requires exchanges { All (λ i. i < R.ROUNDS) exchanges.now }
    requires most { R.ROUNDS ≤ 5 }
    ensures { (v : Parameters) → v.rounds ≡ R.ROUNDS → v.exchanges ≡ exchanges.now
        → both_lines (R.lane result 0) (R.lane result 1)
        ≡ lines_after v block.now v.rounds (both_lines (R.lane start 0) (R.lane start 1)) }
{
    let words = message_words(block).to_array();
    let mut registers = start;
    for r in 0..R::ROUNDS {
        let next = round(r, &words, registers);
        registers = next;
        if let Some(i) = exchanges.get(r) {
            let next = registers.exchange(*i);
            registers = next;
        }
    }
    registers
}
