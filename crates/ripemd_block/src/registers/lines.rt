//! Both lines side by side: steps, rounds and exchanges, for any number of registers.

ghost use Rattle.std.specs.Prelude.{◌≡◌, ◌<◌, ◌≤◌, ◌+◌, ◌-◌, ℕ, List, Some};
ghost use Rattle.ripemd_block.specs.Standard.{◌⊞◌, boolean_function, left_line, right_line, step, registers_after, round, exchange};
ghost use Rattle.ripemd_block.specs.Code.{both_lines, words_with, HasWords};

use crate::message::message_words;
use crate::textbook::{left_constant, left_number, right_constant, right_number, rotation};
use std::mem::swap;
use std::simd::prelude::*;

/// The registers of a line: as many as it has rounds.
pub(crate) trait LineRegisters: Copy {
    ghost list: { Self → List ℕ };

    ghost ROUNDS: { ℕ };

    /// A step: Boolean function `k`, rotation by `s` bits, and `x`, the message word plus the constant.
    fn step(self, k: usize, x: u32, s: u32) -> Self
        requires function { k < ROUNDS }
        requires amount { (0 < s) × (s < 32) }
        ensures { list result ≡ step (boolean_function k) x 0 s (list self) };

    /// Two lines with register `j` exchanged.
    fn exchange(j: usize, left: Self, right: Self) -> (Self, Self)
        requires { j < ROUNDS }
        ensures { both_lines (list result.0) (list result.1)
            ≡ exchange (Some j) (both_lines (list left) (list right)) };
}

impl LineRegisters for [u32; 4] {
    ghost list = { λ registers. registers };

    ghost ROUNDS = { 4 };

    #[inline(always)]
    fn step(self, k: usize, x: u32, s: u32) -> [u32; 4] {
        let [a, b, c, d] = self;
        let t = plus_function(a.wrapping_add(x), k, b, c, d).rotate_left(s);
        [d, t, b, c]
    }

    #[inline(always)]
    fn exchange(j: usize, mut left: [u32; 4], mut right: [u32; 4]) -> ([u32; 4], [u32; 4]) {
        swap(&mut left[j], &mut right[j]);
        (left, right)
    }
}

impl LineRegisters for [u32; 5] {
    ghost list = { λ registers. registers };

    ghost ROUNDS = { 5 };

    #[inline(always)]
    fn step(self, k: usize, x: u32, s: u32) -> [u32; 5] {
        let [a, b, c, d, e] = self;
        let t = plus_function(a.wrapping_add(x), k, b, c, d)
            .rotate_left(s)
            .wrapping_add(e);
        [e, t, b, c.rotate_left(10), d]
    }

    #[inline(always)]
    fn exchange(j: usize, mut left: [u32; 5], mut right: [u32; 5]) -> ([u32; 5], [u32; 5]) {
        swap(&mut left[j], &mut right[j]);
        (left, right)
    }
}

// `u` plus Boolean function `k` (1996, Boolean functions). The two parts of function 3 have no bit in common and are
// added one after the other, so that less waits for `x`, the newest word.
#[inline(always)]
#[tactic(auto, using(crate::proofs::Factoring::f3_in_parts))]
fn plus_function(u: u32, k: usize, x: u32, y: u32, z: u32) -> u32
    requires { k < 5 }
    ensures { result ≡ u ⊞ boolean_function k x y z }
{
    match k {
        0 => u.wrapping_add(x ^ y ^ z),
        1 => u.wrapping_add((x & y) | (!x & z)),
        2 => u.wrapping_add((x | !y) ^ z),
        3 => u.wrapping_add(y & !z).wrapping_add(x & z),
        _ => u.wrapping_add(x ^ (y | !z)),
    }
}

/// The message words plus the constant, for each line and round.
#[derive(Drop)]
pub(crate) struct Words<const N: usize> {
    left: [[u32; 16]; N],
    right: [[u32; 16]; N],
}

// The message words of a block, each plus `k`.
#[inline(always)]
fn words_with(block: &[u8; 64], k: u32) -> [u32; 16]
    ensures { result ≡ words_with k block.now }
{
    (message_words(block) + u32x16::splat(k)).to_array()
}

/// The words of four rounds. Not inlined: inside the steps the compiler would add the constants last, where the next
/// step waits for them.
#[inline(never)]
#[tactic(auto, unfolding(crate::specs::Code::words_of_rounds))]
pub(crate) fn words_of_four_rounds(block: &[u8; 64]) -> Words<4>
    ensures { HasWords 4 result.left result.right block.now }
{
    Words {
        left: [
            words_with(block, left_constant(0)),
            words_with(block, left_constant(1)),
            words_with(block, left_constant(2)),
            words_with(block, left_constant(3)),
        ],
        right: [
            words_with(block, right_constant(4, 0)),
            words_with(block, right_constant(4, 1)),
            words_with(block, right_constant(4, 2)),
            words_with(block, right_constant(4, 3)),
        ],
    }
}

/// The words of five rounds, not inlined either.
#[inline(never)]
#[tactic(auto, unfolding(crate::specs::Code::words_of_rounds))]
pub(crate) fn words_of_five_rounds(block: &[u8; 64]) -> Words<5>
    ensures { HasWords 5 result.left result.right block.now }
{
    Words {
        left: [
            words_with(block, left_constant(0)),
            words_with(block, left_constant(1)),
            words_with(block, left_constant(2)),
            words_with(block, left_constant(3)),
            words_with(block, left_constant(4)),
        ],
        right: [
            words_with(block, right_constant(5, 0)),
            words_with(block, right_constant(5, 1)),
            words_with(block, right_constant(5, 2)),
            words_with(block, right_constant(5, 3)),
            words_with(block, right_constant(5, 4)),
        ],
    }
}

/// The registers of both lines.
#[derive(Clone, Copy)]
pub(crate) struct BothLines<R: LineRegisters> {
    pub(crate) left: R,
    pub(crate) right: R,
}

// Step `i` of round `r`.
#[inline(always)]
fn step_at<R: LineRegisters, const N: usize>(
    r: usize,
    i: usize,
    words: &Words<N>,
    lines: BothLines<R>,
) -> BothLines<R>
    requires rounds { N ≡ R.ROUNDS }
    requires most { R.ROUNDS ≤ 5 }
    requires round { r < N }
    requires step { i < 16 }
    ensures left { (block start : List ℕ) → HasWords N words.now.left words.now.right block
        → R.list lines.left ≡ registers_after left_line block r i start
        → R.list result.left ≡ registers_after left_line block r (i + 1) start }
    ensures right { (block start : List ℕ) → HasWords N words.now.left words.now.right block
        → R.list lines.right ≡ registers_after (right_line N) block r i start
        → R.list result.right ≡ registers_after (right_line N) block r (i + 1) start }
{
    let left = left_number(r, i);
    let right = right_number(r, i);
    let left_amount = rotation(r, left);
    let right_amount = rotation(r, right);
    BothLines {
        left: lines.left.step(r, words.left[r][left], left_amount),
        right: lines
            .right
            .step(N - 1 - r, words.right[r][right], right_amount),
    }
}

// Steps `from` to `from + 3` of round `r`.
#[inline(always)]
fn four_steps<R: LineRegisters, const N: usize>(
    r: usize,
    from: usize,
    words: &Words<N>,
    start: BothLines<R>,
) -> BothLines<R>
    requires rounds { N ≡ R.ROUNDS }
    requires most { R.ROUNDS ≤ 5 }
    requires round { r < N }
    requires steps { from + 4 ≤ 16 }
    ensures left { (block first : List ℕ) → HasWords N words.now.left words.now.right block
        → R.list start.left ≡ registers_after left_line block r from first
        → R.list result.left ≡ registers_after left_line block r (from + 4) first }
    ensures right { (block first : List ℕ) → HasWords N words.now.left words.now.right block
        → R.list start.right ≡ registers_after (right_line N) block r from first
        → R.list result.right ≡ registers_after (right_line N) block r (from + 4) first }
{
    let mut lines = start;
    for i in 0..4 {
        let next = step_at(r, from + i, words, lines);
        lines = next;
    }
    lines
}

/// Round `r` of both lines: sixteen steps, by fours, which the compiler unrolls.
#[inline(always)]
pub(crate) fn round<R: LineRegisters, const N: usize>(
    r: usize,
    words: &Words<N>,
    lines: BothLines<R>,
) -> BothLines<R>
    requires rounds { N ≡ R.ROUNDS }
    requires most { R.ROUNDS ≤ 5 }
    requires round { r < N }
    ensures left { (block : List ℕ) → HasWords N words.now.left words.now.right block
        → R.list result.left ≡ round left_line block r (R.list lines.left) }
    ensures right { (block : List ℕ) → HasWords N words.now.left words.now.right block
        → R.list result.right ≡ round (right_line N) block r (R.list lines.right) }
{
    let lines = four_steps(r, 0, words, lines);
    let lines = four_steps(r, 4, words, lines);
    let lines = four_steps(r, 8, words, lines);
    four_steps(r, 12, words, lines)
}

/// The lines with register `j` exchanged.
#[inline(always)]
pub(crate) fn exchange<R: LineRegisters>(j: usize, lines: BothLines<R>) -> BothLines<R>
    requires { j < R.ROUNDS }
    ensures { both_lines (R.list result.left) (R.list result.right)
        ≡ exchange (Some j) (both_lines (R.list lines.left) (R.list lines.right)) }
{
    let (left, right) = R::exchange(j, lines.left, lines.right);
    BothLines { left, right }
}
