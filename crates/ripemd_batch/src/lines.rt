//! The two lines of many messages: steps, rounds and exchanges, for any number of registers.

ghost use Rattle.std.specs.Prelude.{◌≡◌, ◌<◌, ◌≤◌, ◌+◌, ◌-◌, ℕ, List, Some, map, slice_index};
ghost use Rattle.ripemd_block.specs.Standard.{boolean_function, left_line, right_line, step, registers_after, round, exchange};
ghost use Rattle.ripemd_block.specs.Code.{both_lines};
ghost use Rattle.ripemd_batch.specs.Lanes.{line_of, lane_of, HasWords};

use crate::lanes::Lanes;
use ripemd_block::textbook::{left_constant, left_number, right_constant, right_number, rotation};
use std::mem::swap;

/// One of the two lines.
#[derive(Clone, Copy)]
pub(crate) enum Side {
    Left,
    Right,
}

/// The registers of both lines.
#[derive(Clone, Copy)]
pub(crate) struct VectorLines<R: Copy> {
    pub(crate) left: R,
    pub(crate) right: R,
}

/// The registers of a line: as many as it has rounds.
pub(crate) trait VectorRegisters: Copy {
    /// The vectors.
    type Vector: Lanes;

    // The registers of message `j`.
    ghost lane: { ℕ → Self → List ℕ };

    ghost ROUNDS: { ℕ };

    /// How many rounds a line runs.
    const ROUNDS: usize;

    /// A step of a line in round `r`, with message words `x`, constant `k` and rotation by `s` bits.
    fn step(self, side: Side, r: usize, x: Self::Vector, k: u32, s: u32) -> Self
        requires round { r < ROUNDS }
        requires amount { (0 < s) × (s < 32) }
        ensures { (j : ℕ) → j < Self.Vector.COUNT → lane j result
            ≡ step ((line_of ROUNDS side).function r) (slice_index (Self.Vector.words x) j) k s
            (lane j self) };

    /// Two lines with register `k` exchanged.
    fn exchange(k: usize, left: Self, right: Self) -> (Self, Self)
        requires { k < ROUNDS }
        ensures { (j : ℕ) → j < Self.Vector.COUNT → both_lines (lane j result.0) (lane j result.1)
            ≡ exchange (Some k) (both_lines (lane j left) (lane j right)) };
}

impl<V: Lanes> VectorRegisters for [V; 4] {
    type Vector = V;

    ghost lane = { λ j v. lane_of 4 j (map V.words v) };

    ghost ROUNDS = { 4 };

    const ROUNDS: usize = 4;

    #[inline(always)]
    fn step(self, side: Side, r: usize, x: V, k: u32, s: u32) -> [V; 4] {
        let [a, b, c, d] = self;
        let f = function(side, 4, r, b, c, d);
        let t = a.add(f).add(x).add(V::splat(k)).rotate(s);
        [d, t, b, c]
    }

    #[inline(always)]
    fn exchange(k: usize, mut left: [V; 4], mut right: [V; 4]) -> ([V; 4], [V; 4]) {
        swap(&mut left[k], &mut right[k]);
        (left, right)
    }
}

impl<V: Lanes> VectorRegisters for [V; 5] {
    type Vector = V;

    ghost lane = { λ j v. lane_of 5 j (map V.words v) };

    ghost ROUNDS = { 5 };

    const ROUNDS: usize = 5;

    #[tactic(auto, using(crate::proofs::OneLane::word_in))]
    #[inline(always)]
    fn step(self, side: Side, r: usize, x: V, k: u32, s: u32) -> [V; 5] {
        let [a, b, c, d, e] = self;
        let f = function(side, 5, r, b, c, d);
        // The constant is added to `f` itself, so that a complement in it costs nothing.
        let t = a.add(x).add(f.add(V::splat(k))).rotate(s).add(e);
        [e, t, b, c.rotate(10), d]
    }

    #[inline(always)]
    fn exchange(k: usize, mut left: [V; 5], mut right: [V; 5]) -> ([V; 5], [V; 5]) {
        swap(&mut left[k], &mut right[k]);
        (left, right)
    }
}

// The Boolean function of round `r` of a line.
#[inline(always)]
fn function<V: Lanes>(side: Side, rounds: usize, r: usize, x: V, y: V, z: V) -> V
    requires round { r < rounds }
    requires most { rounds ≤ 5 }
    ensures { (j : ℕ) → j < V.COUNT → slice_index (V.words result) j
        ≡ (line_of rounds side).function r (slice_index (V.words x) j) (slice_index (V.words y) j)
        (slice_index (V.words z) j) }
{
    match side {
        Side::Left => boolean_function(r, x, y, z),
        Side::Right => boolean_function(rounds - 1 - r, x, y, z),
    }
}

// Boolean function `k` of the words of each message (1996, Boolean functions), in few operations: 1 and 3 are factored,
// 2 and 4 are complements.
#[tactic(auto, using(ripemd_block::proofs::Factoring::f1_factored, crate::proofs::Factored::f3_factored, crate::proofs::Factored::f4_complemented))]
#[inline(always)]
fn boolean_function<V: Lanes>(k: usize, x: V, y: V, z: V) -> V
    requires { k < 5 }
    ensures { (j : ℕ) → j < V.COUNT → slice_index (V.words result) j
        ≡ boolean_function k (slice_index (V.words x) j) (slice_index (V.words y) j)
        (slice_index (V.words z) j) }
{
    match k {
        0 => x.xor(y.xor(z)),
        1 => x.and(y.xor(z)).xor(z),
        2 => y.and(x.not()).xor(z).not(),
        3 => z.and(x.xor(y)).xor(y),
        _ => z.and(y.not()).xor(x).not(),
    }
}

// The constant of round `r` of a line.
#[inline(always)]
fn constant(side: Side, rounds: usize, r: usize) -> u32
    requires round { r < rounds }
    requires most { rounds ≤ 5 }
    ensures { result ≡ (line_of rounds side).constant r }
{
    match side {
        Side::Left => left_constant(r),
        Side::Right => right_constant(rounds, r),
    }
}

// The number of the message word that step `i` of round `r` of a line takes.
#[inline(always)]
fn word_number(side: Side, r: usize, i: usize) -> usize
    requires round { r < 5 }
    requires step { i < 16 }
    ensures value { (rounds : ℕ) → result ≡ (line_of rounds side).word_number r i }
    ensures small { result < 16 }
{
    match side {
        Side::Left => left_number(r, i),
        Side::Right => right_number(r, i),
    }
}

// Step `i` of round `r` of a line.
#[tactic(auto, using(ripemd_block::proofs::Stepping::one_more_step, crate::proofs::OneLane::word_in))]
#[inline(always)]
fn step_at<R: VectorRegisters>(
    side: Side,
    r: usize,
    i: usize,
    words: &[R::Vector; 16],
    registers: R,
) -> R
    requires round { r < R.ROUNDS }
    requires most { R.ROUNDS ≤ 5 }
    requires step { i < 16 }
    ensures { (j : ℕ) → j < R.Vector.COUNT → (block first : List ℕ)
        → HasWords (map R.Vector.words words.now) j block
        → R.lane j registers ≡ registers_after (line_of R.ROUNDS side) block r i first
        → R.lane j result ≡ registers_after (line_of R.ROUNDS side) block r (i + 1) first }
{
    let number = word_number(side, r, i);
    let k = constant(side, R::ROUNDS, r);
    let s = rotation(r, number);
    registers.step(side, r, words[number], k, s)
}

// Four steps of round `r` of a line, from step `from` on.
#[inline(always)]
fn four_steps<R: VectorRegisters>(
    side: Side,
    r: usize,
    from: usize,
    words: &[R::Vector; 16],
    start: R,
) -> R
    requires round { r < R.ROUNDS }
    requires most { R.ROUNDS ≤ 5 }
    requires steps { from + 4 ≤ 16 }
    ensures { (j : ℕ) → j < R.Vector.COUNT → (block first : List ℕ)
        → HasWords (map R.Vector.words words.now) j block
        → R.lane j start ≡ registers_after (line_of R.ROUNDS side) block r from first
        → R.lane j result ≡ registers_after (line_of R.ROUNDS side) block r (from + 4) first }
{
    let mut registers = start;
    for i in 0..4 {
        let next = step_at(side, r, from + i, words, registers);
        registers = next;
    }
    registers
}

/// Round `N` of both lines, four steps of each in turn, since neither waits for the other.
#[inline(always)]
pub(crate) fn round<R: VectorRegisters, const N: usize>(
    words: &[R::Vector; 16],
    lines: VectorLines<R>,
) -> VectorLines<R>
    requires round { N < R.ROUNDS }
    requires most { R.ROUNDS ≤ 5 }
    ensures left { (j : ℕ) → j < R.Vector.COUNT → (block : List ℕ)
        → HasWords (map R.Vector.words words.now) j block
        → R.lane j result.left ≡ round left_line block N (R.lane j lines.left) }
    ensures right { (j : ℕ) → j < R.Vector.COUNT → (block : List ℕ)
        → HasWords (map R.Vector.words words.now) j block
        → R.lane j result.right ≡ round (right_line R.ROUNDS) block N (R.lane j lines.right) }
{
    let left = four_steps(Side::Left, N, 0, words, lines.left);
    let right = four_steps(Side::Right, N, 0, words, lines.right);
    let left = four_steps(Side::Left, N, 4, words, left);
    let right = four_steps(Side::Right, N, 4, words, right);
    let left = four_steps(Side::Left, N, 8, words, left);
    let right = four_steps(Side::Right, N, 8, words, right);
    let left = four_steps(Side::Left, N, 12, words, left);
    let right = four_steps(Side::Right, N, 12, words, right);
    VectorLines { left, right }
}

/// The lines with register `k` exchanged.
#[inline(always)]
pub(crate) fn exchange<R: VectorRegisters>(k: usize, lines: VectorLines<R>) -> VectorLines<R>
    requires { k < R.ROUNDS }
    ensures { (j : ℕ) → j < R.Vector.COUNT → both_lines (R.lane j result.left) (R.lane j result.right)
        ≡ exchange (Some k) (both_lines (R.lane j lines.left) (R.lane j lines.right)) }
{
    let (left, right) = R::exchange(k, lines.left, lines.right);
    VectorLines { left, right }
}
