//! Groups of at most eight messages, and the hash functions that can hash them at once.

ghost use Rattle.std.specs.Prelude.{◌≡◌, ℕ, ◌+◌, ◌-◌, ◌*◌, ◌^◌, ◌<◌, ◌≤◌, min, true, false, length, map, option_map, replicate, slice_index, slice_index_or, [], refl};
ghost use Rattle.std.proofs.Common.{arith};
ghost use Rattle.ripemd_block.specs.Standard.{block_size, blocks};
ghost use Rattle.ripemd_batch.specs.Lanes.{HasWords, hash_after, hashed_again, list_at, padded_after, targets};

use crate::eight::Eight;
use crate::four::Four;
use crate::lane_states::LaneStates;
use crate::lanes::Lanes;
use crate::message::message_words;
use crate::padded::MessageBlocks;
use ripemd::BlockHasher;
use ripemd::digest::BlockDigest;
use ripemd::padding::block_count;
use ripemd_block::block_api::{
    BlockFunction, ByteArray, ListBlockFunction, Ripemd128Function, Ripemd160Function,
    Ripemd256Function, Ripemd320Function, walk_digest, walk_message,
};

/// A hash function that can hash four or eight messages at once.
pub trait BatchDigest: BlockDigest<Output: ByteArray> {
    /// The block function.
    type Function: ListBlockFunction<Digest = Self::Output>;

    /// The states of four messages.
    type Four: LaneStates<Function = Self::Function>;

    /// The states of eight messages.
    type Eight: LaneStates<Function = Self::Function>;

    ghost four: { Self.Four.Vector.COUNT ≡ 4 };

    ghost eight: { Self.Eight.Vector.COUNT ≡ 8 };

    ghost same_start: { Self.Function.list Self.Function.start_of ≡ Self.start };

    ghost same_step: { Self.Function.step ≡ Self.step };

    ghost same_output: { Self.Function.output ≡ Self.output };

    ghost some_bytes: { 0 < Self.Output.LEN };

    ghost same_bytes: { (d : Self.Output) → Self.Output.bytes d ≡ Self.bytes_of d };
}

pub(crate) type StateOf<D> = <<D as BatchDigest>::Function as BlockFunction>::State;

impl<F: BatchFunction> BatchDigest for BlockHasher<F> {
    type Function = F;

    type Four = F::Four;

    type Eight = F::Eight;

    ghost four = { F.four };

    ghost eight = { F.eight };

    ghost same_start = { refl };

    ghost same_step = { refl };

    ghost same_output = { refl };

    ghost some_bytes = { F.some_bytes };

    ghost same_bytes = { λ d. refl };
}

/// A block function that can take in four or eight messages at once.
pub trait BatchFunction: ListBlockFunction {
    /// The states of four messages.
    type Four: LaneStates<Function = Self>;

    /// The states of eight messages.
    type Eight: LaneStates<Function = Self>;

    ghost four: { Self.Four.Vector.COUNT ≡ 4 };

    ghost eight: { Self.Eight.Vector.COUNT ≡ 8 };

    ghost some_bytes: { 0 < Self.Digest.LEN };
}

impl BatchFunction for Ripemd128Function {
    type Four = [Four; 4];

    type Eight = [Eight; 4];

    ghost four = { refl };

    ghost eight = { refl };

    ghost some_bytes = { omega arith };
}

impl BatchFunction for Ripemd160Function {
    type Four = [Four; 5];

    type Eight = [Eight; 5];

    ghost four = { refl };

    ghost eight = { refl };

    ghost some_bytes = { omega arith };
}

impl BatchFunction for Ripemd256Function {
    type Four = [Four; 8];

    type Eight = [Eight; 8];

    ghost four = { refl };

    ghost eight = { refl };

    ghost some_bytes = { omega arith };
}

impl BatchFunction for Ripemd320Function {
    type Four = [Four; 10];

    type Eight = [Eight; 10];

    ghost four = { refl };

    ghost eight = { refl };

    ghost some_bytes = { omega arith };
}

// The end of the group of at most `size` places from `at` on.
#[inline(always)]
pub(crate) fn group_end(len: usize, at: usize, size: usize) -> usize
    requires { at < len }
    ensures { result ≡ min (at + size) len }
{
    if len - at < size { len } else { at + size }
}

// The number of blocks of all messages, and of the longest. No contract: this only chooses the faster way.
pub(crate) fn count_blocks(messages: &[&[u8]]) -> (usize, usize) {
    let mut all: usize = 0;
    let mut longest = 0;
    for message in messages {
        let blocks = block_count(message);
        all = all.wrapping_add(blocks);
        if longest < blocks {
            longest = blocks;
        }
    }
    (all, longest)
}

// The digest of a message after `before` bytes, which led to the state `first`.
#[tactic(auto, unfolding(crate::specs::Lanes::hash_after))]
pub(crate) fn digest_one<F: ListBlockFunction>(
    first: F::State,
    before: u64,
    message: &[u8],
) -> F::Digest
    requires { F.is_state first }
    ensures { F.Digest.bytes result ≡ hash_after before (F.list first) F.step F.output message.now }
{
    F::output(walk_message::<F>(first, before, message))
}

// The digest of a digest after one block, which led to the state `first`.
#[inline(always)]
pub(crate) fn digest_of_digest<F: ListBlockFunction>(first: F::State, digest: &[u8]) -> F::Digest
    requires { F.is_state first }
    ensures { F.Digest.bytes result ≡ hash_after 64 (F.list first) F.step F.output digest.now }
{
    F::output(state_of_digest::<F>(first, digest))
}

// The state that gives the output of `digest_of_digest`.
#[tactic(auto, unfolding(crate::specs::Lanes::hash_after))]
#[inline(always)]
pub(crate) fn state_of_digest<F: ListBlockFunction>(first: F::State, digest: &[u8]) -> F::State
    requires { F.is_state first }
    ensures { F.output (F.list result) ≡ hash_after 64 (F.list first) F.step F.output digest.now }
{
    walk_digest::<F>(first, 64, digest)
}

#[inline(always)]
pub(crate) fn message_at<'a>(messages: &[&'a [u8]], i: usize) -> &'a [u8]
    requires { i < length messages.now }
    ensures { result.now ≡ list_at (targets messages.now) i }
{
    messages[i]
}

// The blocks of message `j`, or a block of zero bytes if there is none.
#[inline(always)]
fn blocks_of_message<'a, 'b>(
    before: u64,
    messages: &[&'a [u8]],
    j: usize,
    zeros: &'b mut [[u8; 64]; 2],
) -> MessageBlocks<'a, 'b>
    requires { zeros.old ≡ replicate 2 (replicate block_size 0) }
    ensures { j < length messages.now
        → result ≡ blocks (padded_after before (list_at (targets messages.now) j)) }
{
    if j < messages.len() {
        MessageBlocks::of(before, message_at(messages, j), zeros)
    } else {
        MessageBlocks::none(zeros)
    }
}

// The states that give the digests of the messages after `before` bytes, which led to the state `first`. If there is a
// state `outer`, the outputs are hashed again from it.
pub(crate) fn walk_messages<S: LaneStates>(
    first: <S::Function as BlockFunction>::State,
    before: u64,
    outer: Option<<S::Function as BlockFunction>::State>,
    messages: &[&[u8]],
) -> S
    ensures { (j : ℕ) → j < S.Vector.COUNT → j < length messages.now
        → S.Function.output (S.words_of j result)
        ≡ hashed_again S.Function.step S.Function.output (option_map S.Function.list outer)
        (hash_after before (S.Function.list first) S.Function.step S.Function.output)
        (list_at (targets messages.now) j) }
{
    let mut zeros_0 = [[0; 64]; 2];
    let mut zeros_1 = [[0; 64]; 2];
    let mut zeros_2 = [[0; 64]; 2];
    let mut zeros_3 = [[0; 64]; 2];
    let mut zeros_4 = [[0; 64]; 2];
    let mut zeros_5 = [[0; 64]; 2];
    let mut zeros_6 = [[0; 64]; 2];
    let mut zeros_7 = [[0; 64]; 2];
    let blocks = [
        blocks_of_message(before, messages, 0, &mut zeros_0),
        blocks_of_message(before, messages, 1, &mut zeros_1),
        blocks_of_message(before, messages, 2, &mut zeros_2),
        blocks_of_message(before, messages, 3, &mut zeros_3),
        blocks_of_message(before, messages, 4, &mut zeros_4),
        blocks_of_message(before, messages, 5, &mut zeros_5),
        blocks_of_message(before, messages, 6, &mut zeros_6),
        blocks_of_message(before, messages, 7, &mut zeros_7),
    ];
    let counts = block_counts(&blocks);
    let most = most(&counts);
    let mut states = S::splat(first);
    // A turn for each block of the longest message, and one if the outputs are hashed again.
    let turns = if outer.is_some() { most + 1 } else { most };
    let second = outer.unwrap_or(first);
    for i in 0..turns {
        let again = i >= most;
        let next = next_states(states, &blocks, &counts, i, again, second);
        states = next;
    }
    states
}

fn block_counts(blocks: &[MessageBlocks; 8]) -> [usize; 8]
    ensures fits { (j : ℕ) → j < 8 → slice_index result j < 2 ^ 64 - 1 }
    ensures value { (j : ℕ) → j < 8 → slice_index result j ≡ length (list_at blocks.now j) }
{
    [
        blocks[0].count(),
        blocks[1].count(),
        blocks[2].count(),
        blocks[3].count(),
        blocks[4].count(),
        blocks[5].count(),
        blocks[6].count(),
        blocks[7].count(),
    ]
}

fn most(counts: &[usize; 8]) -> usize
    ensures fits { ((j : ℕ) → j < 8 → slice_index counts.now j < 2 ^ 64 - 1)
        → result < 2 ^ 64 - 1 }
    ensures most { (j : ℕ) → j < 8 → slice_index counts.now j ≤ result }
{
    let mut most = 0;
    for j in 0..8 {
        if most < counts[j] {
            most = counts[j];
        }
    }
    most
}

// The states after block `i`; a message without one keeps its state. If `again`, the outputs are hashed instead, from
// the state `second` after one block.
#[tactic(auto, using(crate::proofs::Chaining::hash_of_one))]
#[inline(always)]
fn next_states<S: LaneStates>(
    states: S,
    blocks: &[MessageBlocks; 8],
    counts: &[usize; 8],
    i: usize,
    again: bool,
    second: <S::Function as BlockFunction>::State,
) -> S
    requires { (j : ℕ) → j < 8 → slice_index counts.now j ≡ length (list_at blocks.now j) }
    ensures taken { again ≡ false → (j : ℕ) → j < S.Vector.COUNT → i < length (list_at blocks.now j)
        → S.words_of j result ≡ S.Function.step (S.words_of j states)
        (slice_index_or (list_at blocks.now j) i []) }
    ensures kept { again ≡ false → (j : ℕ) → j < S.Vector.COUNT → length (list_at blocks.now j) ≤ i
        → S.words_of j result ≡ S.words_of j states }
    ensures again { again ≡ true → (j : ℕ) → j < S.Vector.COUNT
        → S.Function.output (S.words_of j result)
        ≡ hash_after 64 (S.Function.list second) S.Function.step S.Function.output
        (S.Function.output (S.words_of j states)) }
{
    // One call for both, so that a program has the steps once.
    let taken = taken_in(states, blocks, i, again, second);
    let next = taken.0.compress(&taken.1);
    if again {
        next
    } else {
        S::select(S::Vector::of(live_lanes(counts, i)), next, states)
    }
}

// What `next_states` compresses.
#[inline(always)]
fn taken_in<S: LaneStates>(
    states: S,
    blocks: &[MessageBlocks; 8],
    i: usize,
    again: bool,
    second: <S::Function as BlockFunction>::State,
) -> (S, [S::Vector; 16])
    ensures from { again ≡ false → result.0 ≡ states }
    ensures block { again ≡ false → (j : ℕ) → j < S.Vector.COUNT → i < length (list_at blocks.now j)
        → HasWords (map S.Vector.words result.1) j (slice_index_or (list_at blocks.now j) i []) }
    ensures second { again ≡ true → (j : ℕ) → j < S.Vector.COUNT
        → S.words_of j result.0 ≡ S.Function.list second }
    ensures last { again ≡ true → (j : ℕ) → j < S.Vector.COUNT
        → HasWords (map S.Vector.words result.1) j
        (padded_after 64 (S.Function.output (S.words_of j states))) }
    ensures size { again ≡ true → (j : ℕ) → j < S.Vector.COUNT
        → length (padded_after 64 (S.Function.output (S.words_of j states))) ≡ 64 }
{
    if again {
        (S::splat(second), states.last_words())
    } else {
        (states, message_words(&blocks_at(blocks, i)))
    }
}

// A mask of the messages that have a block `i`.
#[inline(always)]
fn live_lanes(counts: &[usize; 8], i: usize) -> [u32; 8]
    ensures yes { (j : ℕ) → j < 8 → i < slice_index counts.now j
        → slice_index result j ≡ 0xffff_ffff }
    ensures no { (j : ℕ) → j < 8 → slice_index counts.now j ≤ i → slice_index result j ≡ 0 }
{
    [
        is_live(counts[0], i),
        is_live(counts[1], i),
        is_live(counts[2], i),
        is_live(counts[3], i),
        is_live(counts[4], i),
        is_live(counts[5], i),
        is_live(counts[6], i),
        is_live(counts[7], i),
    ]
}

#[inline(always)]
fn is_live(count: usize, i: usize) -> u32
    ensures yes { i < count → result ≡ 0xffff_ffff }
    ensures no { count ≤ i → result ≡ 0 }
{
    if i < count { 0xffff_ffff } else { 0 }
}

// Block `i` of each message that has one.
#[inline(always)]
fn blocks_at<'a>(blocks: &'a [MessageBlocks; 8], i: usize) -> [&'a [u8; 64]; 8]
    ensures { (j : ℕ) → j < 8 → i < length (list_at blocks.now j)
        → list_at (targets result) j ≡ slice_index_or (list_at blocks.now j) i [] }
{
    [
        blocks[0].at(i),
        blocks[1].at(i),
        blocks[2].at(i),
        blocks[3].at(i),
        blocks[4].at(i),
        blocks[5].at(i),
        blocks[6].at(i),
        blocks[7].at(i),
    ]
}
