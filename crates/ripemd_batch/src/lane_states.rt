//! The states of many messages, and what each variant does with them.

ghost use Rattle.std.specs.Prelude.{◌≡◌, ℕ, ◌<◌, ◌≤◌, ◌+◌, ◌-◌, ◌*◌, ◌^◌, List, [], ◌∷◌, ◌++◌, length, map, replicate, slice_index};
ghost use Rattle.std.specs.Int.Bits.{bit_xor};
ghost use Rattle.std.specs.Simd.Lanes.{zip2};
ghost use Rattle.ripemd_block.specs.Standard.{word_bytes};
ghost use Rattle.ripemd_batch.specs.Lanes.{HasWords, lane_of, padded_after, padding_words};

use crate::lanes::{Lanes, select};
use crate::{c128, c160, c256, c320};
use ripemd_block::block_api::{
    BlockFunction, ByteArray, ListBlockFunction, Ripemd128Function, Ripemd160Function,
    Ripemd256Function, Ripemd320Function,
};

// The states of many messages. Not exported, so that no other crate can call it.
pub trait LaneStates: Copy {
    // The vectors.
    type Vector: Lanes;

    // The block function.
    type Function: ListBlockFunction;

    // The words of message `j`.
    ghost words_of: { ℕ → Self → List ℕ };

    // One state for all messages.
    fn splat(words: <Self::Function as BlockFunction>::State) -> Self
        ensures { (j : ℕ) → j < Self.Vector.COUNT → words_of j result ≡ Self.Function.list words };

    // The states after a block of each message, with these message words.
    fn compress(self, words: &[Self::Vector; 16]) -> Self
        ensures { (j : ℕ) → j < Self.Vector.COUNT → (block : List ℕ)
            → HasWords (map Self.Vector.words words.now) j block
            → words_of j result ≡ Self.Function.step (words_of j self) block };

    // The message words of each output, padded as a message after one block.
    fn last_words(self) -> [Self::Vector; 16]
        ensures words { (j : ℕ) → j < Self.Vector.COUNT
            → HasWords (map Self.Vector.words result) j
            (padded_after 64 (Self.Function.output (words_of j self))) }
        ensures size { (j : ℕ) → j < Self.Vector.COUNT
            → length (padded_after 64 (Self.Function.output (words_of j self))) ≡ 64 };

    // The states that give the exclusive or of the outputs.
    fn xor(self, other: Self) -> Self
        ensures { (j : ℕ) → j < Self.Vector.COUNT → Self.Function.output (words_of j result)
            ≡ zip2 bit_xor (Self.Function.output (words_of j self))
            (Self.Function.output (words_of j other)) };

    // The new state where the word in `live` has all bits set, and the old one where it is 0.
    fn select(live: Self::Vector, new: Self, old: Self) -> Self
        ensures taken { (j : ℕ) → j < Self.Vector.COUNT
            → slice_index (Self.Vector.words live) j ≡ 0xffff_ffff
            → words_of j result ≡ words_of j new }
        ensures kept { (j : ℕ) → j < Self.Vector.COUNT
            → slice_index (Self.Vector.words live) j ≡ 0
            → words_of j result ≡ words_of j old };

    // The digest of message `j`.
    fn digest_of(&self, j: usize) -> <Self::Function as BlockFunction>::Digest
        requires { j < Self.Vector.COUNT }
        ensures { Self.Function.Digest.bytes result ≡ Self.Function.output (words_of j self.now) };
}

#[tactic(auto, using(crate::proofs::OneLane::lane_is))]
#[inline(always)]
fn splat_each<V: Lanes, const N: usize>(words: [u32; N]) -> [V; N]
    ensures { (j : ℕ) → j < V.COUNT → lane_of N j (map V.words result) ≡ words.entry }
{
    let mut states = [V::splat(0); N];
    for i in 0..N {
        states[i] = V::splat(words[i]);
    }
    states
}

#[tactic(auto, using(crate::proofs::OneLane::same_lane))]
#[inline(always)]
fn select_each<V: Lanes, const N: usize>(live: V, new: [V; N], old: [V; N]) -> [V; N]
    ensures taken { (j : ℕ) → j < V.COUNT → slice_index (V.words live) j ≡ 0xffff_ffff
        → lane_of N j (map V.words result) ≡ lane_of N j (map V.words new) }
    ensures kept { (j : ℕ) → j < V.COUNT → slice_index (V.words live) j ≡ 0
        → lane_of N j (map V.words result) ≡ lane_of N j (map V.words old) }
{
    let mut states = old;
    for i in 0..N {
        states[i] = select(live, new[i], old[i]);
    }
    states
}

#[tactic(auto, using(crate::proofs::DigestWords::padded_size, crate::proofs::DigestWords::has_padded_words))]
#[inline(always)]
fn last_words_of<V: Lanes, const N: usize>(states: [V; N]) -> [V; 16]
    requires { N ≤ 13 }
    ensures words { (j : ℕ) → j < V.COUNT
        → HasWords (map V.words result) j
        (padded_after 64 (word_bytes (lane_of N j (map V.words states)))) }
    ensures size { (j : ℕ) → j < V.COUNT
        → length (padded_after 64 (word_bytes (lane_of N j (map V.words states)))) ≡ 64 }
{
    let mut words = [V::splat(0); 16];
    for i in 0..16 {
        words[i] = last_word(&states, i);
    }
    words
}

#[tactic(auto, using(crate::proofs::DigestWords::word_in_front, crate::proofs::DigestWords::word_behind, crate::proofs::OneLane::word_in))]
#[inline(always)]
fn last_word<V: Lanes, const N: usize>(states: &[V; N], i: usize) -> V
    requires few { N ≤ 13 }
    requires word { i < 16 }
    ensures value { (j : ℕ) → j < V.COUNT → slice_index (V.words result) j
        ≡ slice_index (lane_of N j (map V.words states.now) ++ padding_words N) i }
    ensures fits { (j : ℕ) → j < V.COUNT → slice_index (V.words result) j < 2 ^ 32 }
{
    if i < N {
        states[i].known()
    } else {
        V::splat(padding_word(N, i))
    }
}

// Word `i` of a block with `n` words and their padding, after one block.
#[inline(always)]
fn padding_word(n: usize, i: usize) -> u32
    requires few { n ≤ 13 }
    requires behind { n ≤ i }
    requires word { i < 16 }
    ensures { result ≡ slice_index (padding_words n) (i - n) }
{
    if i == n {
        0x80
    } else if i == 14 {
        512 + 32 * n as u32
    } else {
        0
    }
}

#[tactic(auto, using(crate::proofs::DigestWords::xor_lane))]
#[inline(always)]
fn xor_each<V: Lanes, const N: usize>(a: [V; N], b: [V; N]) -> [V; N]
    ensures { (j : ℕ) → j < V.COUNT → word_bytes (lane_of N j (map V.words result))
        ≡ zip2 bit_xor (word_bytes (lane_of N j (map V.words a)))
        (word_bytes (lane_of N j (map V.words b))) }
{
    let mut differ = a;
    for i in 0..N {
        differ[i] = a[i].xor(b[i]);
    }
    differ
}

// The words of message `j`.
#[tactic(auto, using(crate::proofs::OneLane::lane_is))]
#[inline(always)]
fn lane_of<V: Lanes, const N: usize>(states: &[V; N], j: usize) -> [u32; N]
    requires { j < V.COUNT }
    ensures { result ≡ lane_of N j (map V.words states.now) }
{
    let mut words = [0; N];
    for i in 0..N {
        words[i] = states[i].word(j);
    }
    words
}

impl<V: Lanes> LaneStates for [V; 4] {
    type Vector = V;

    type Function = Ripemd128Function;

    ghost words_of = { λ j v. lane_of 4 j (map V.words v) };

    fn splat(words: [u32; 4]) -> [V; 4] {
        splat_each(words)
    }

    fn compress(self, words: &[V; 16]) -> [V; 4] {
        c128::compress(self, words)
    }

    fn last_words(self) -> [V; 16] {
        last_words_of(self)
    }

    fn xor(self, other: [V; 4]) -> [V; 4] {
        xor_each(self, other)
    }

    fn select(live: V, new: [V; 4], old: [V; 4]) -> [V; 4] {
        select_each(live, new, old)
    }

    #[inline(always)]
    fn digest_of(&self, j: usize) -> [u8; 16] {
        Ripemd128Function::output(lane_of(self, j))
    }
}

impl<V: Lanes> LaneStates for [V; 5] {
    type Vector = V;

    type Function = Ripemd160Function;

    ghost words_of = { λ j v. lane_of 5 j (map V.words v) };

    fn splat(words: [u32; 5]) -> [V; 5] {
        splat_each(words)
    }

    fn compress(self, words: &[V; 16]) -> [V; 5] {
        c160::compress(self, words)
    }

    fn last_words(self) -> [V; 16] {
        last_words_of(self)
    }

    fn xor(self, other: [V; 5]) -> [V; 5] {
        xor_each(self, other)
    }

    fn select(live: V, new: [V; 5], old: [V; 5]) -> [V; 5] {
        select_each(live, new, old)
    }

    #[inline(always)]
    fn digest_of(&self, j: usize) -> [u8; 20] {
        Ripemd160Function::output(lane_of(self, j))
    }
}

impl<V: Lanes> LaneStates for [V; 8] {
    type Vector = V;

    type Function = Ripemd256Function;

    ghost words_of = { λ j v. lane_of 8 j (map V.words v) };

    fn splat(words: [u32; 8]) -> [V; 8] {
        splat_each(words)
    }

    fn compress(self, words: &[V; 16]) -> [V; 8] {
        c256::compress(self, words)
    }

    fn last_words(self) -> [V; 16] {
        last_words_of(self)
    }

    fn xor(self, other: [V; 8]) -> [V; 8] {
        xor_each(self, other)
    }

    fn select(live: V, new: [V; 8], old: [V; 8]) -> [V; 8] {
        select_each(live, new, old)
    }

    #[inline(always)]
    fn digest_of(&self, j: usize) -> [u8; 32] {
        Ripemd256Function::output(lane_of(self, j))
    }
}

impl<V: Lanes> LaneStates for [V; 10] {
    type Vector = V;

    type Function = Ripemd320Function;

    ghost words_of = { λ j v. lane_of 10 j (map V.words v) };

    fn splat(words: [u32; 10]) -> [V; 10] {
        splat_each(words)
    }

    fn compress(self, words: &[V; 16]) -> [V; 10] {
        c320::compress(self, words)
    }

    fn last_words(self) -> [V; 16] {
        last_words_of(self)
    }

    fn xor(self, other: [V; 10]) -> [V; 10] {
        xor_each(self, other)
    }

    fn select(live: V, new: [V; 10], old: [V; 10]) -> [V; 10] {
        select_each(live, new, old)
    }

    #[inline(always)]
    fn digest_of(&self, j: usize) -> [u8; 40] {
        Ripemd320Function::output(lane_of(self, j))
    }
}
