//! The block core of a block function.

ghost use Rattle.std.specs.Prelude.{◌≡◌, ◌+◌, ◌*◌, ◌%◌, ◌^◌, ◌<◌, List, [], length, ⊤, refl};
ghost use Rattle.ripemd_block.specs.Standard.{block_size, with_padding, blocks, walk, hash};
ghost use Rattle.ripemd_block.specs.States.{HashState, IsHashState, IsWithoutTail, output_and_count, initial_state, after_blocks, with_tail, finish};
ghost use Rattle.ripemd_block.specs.Laws.Pieces.{after_no_blocks, after_joined_blocks};
ghost use Rattle.ripemd_block.specs.Laws.Saved.{output_and_count_injective};

use crate::arrays::{ByteArray, read_count};
use crate::buffer::Buffer;
use crate::padding::{last_blocks, padded_words, whole_blocks};
use crate::traits::{
    AlgorithmName, BlockFunction, BlockSizeUser, BufferKindUser, DeserializeStateError, Eager,
    FixedOutputCore, HashMarker, HashMeaning, ListBlockFunction, OutputSizeUser, Reset,
    ResumableFunction, SerializableState, UpdateCore,
};
use std::alloc::AllocError;
use std::fmt;
use std::marker::Model;
use std::slice::from_ref;

/// Takes in the whole blocks of a message, and leaves its tail to a [`Buffer`]. Contracts see the state and the count
/// of blocks, modulo 2^64, with an empty tail.
#[derive(Drop)]
pub struct BlockCore<F: ListBlockFunction> {
    state: F::State,
    block_count: u64,
}

impl<F: ListBlockFunction> Model for BlockCore<F> {
    ghost Value = { HashState };

    ghost view = { λ c. record { words = F.list c.state; count = c.block_count; tail = [] } };

    ghost invariant = { λ c. F.is_state c.state };
}

impl<F: ListBlockFunction> BlockCore<F> {
    /// A copy of the core.
    pub fn duplicate(&self) -> Self
        ensures { result ≡ self.now }
    {
        BlockCore {
            state: self.state,
            block_count: self.block_count,
        }
    }
}

impl<F: ListBlockFunction> Default for BlockCore<F> {
    ghost is_default = { λ c. c ≡ initial_state (F.list F.start_of) };

    fn default() -> BlockCore<F> {
        BlockCore {
            state: F::start(),
            block_count: 0,
        }
    }
}

impl<F: ListBlockFunction> Clone for BlockCore<F> {
    ghost is_clone = { λ x y. y ≡ x };

    ghost is_infallible = { λ _. ⊤ };

    fn clone(&self) -> Result<BlockCore<F>, AllocError> {
        Ok(self.duplicate())
    }
}

/// Writes only the name, as `Ripemd160Core { ... }`.
impl<F: ListBlockFunction + AlgorithmName> fmt::Debug for BlockCore<F> {
    fn fmt<W: fmt::Write>(&self, f: &mut fmt::Formatter<W>) -> fmt::Result {
        F::write_alg_name(f)?;
        f.write_str("Core { ... }")
    }
}

impl<F: ListBlockFunction + AlgorithmName> AlgorithmName for BlockCore<F> {
    ghost name = { F.name };

    const ALG_NAME: &'static str = <F as AlgorithmName>::ALG_NAME;

    fn write_alg_name<W: fmt::Write>(f: &mut fmt::Formatter<W>) -> fmt::Result {
        F::write_alg_name(f)
    }
}

impl<F: ListBlockFunction> HashMarker for BlockCore<F> {}

impl<F: ListBlockFunction> HashMeaning for BlockCore<F> {
    ghost meaning = { λ c. c };

    ghost is_valid = { IsWithoutTail F.are_words };
}

impl<F: ListBlockFunction> Reset for BlockCore<F> {
    fn reset(&mut self) {
        *self = BlockCore::default();
    }
}

impl<F: ListBlockFunction> BlockSizeUser for BlockCore<F> {
    ghost BLOCK_SIZE = { 64 };

    ghost block_size_is = { refl };

    const BLOCK_SIZE: usize = 64;
}

impl<F: ListBlockFunction> OutputSizeUser for BlockCore<F> {
    type Output = F::Digest;

    ghost bytes_of = { F.Digest.bytes };

    ghost OUTPUT_SIZE = { F.Digest.LEN };

    const OUTPUT_SIZE: usize = <F::Digest as ByteArray>::LEN;

    ghost same_digest = { F.Digest.same_array };
}

impl<F: ListBlockFunction> BufferKindUser for BlockCore<F> {
    type BufferKind = Eager;
}

impl<F: ListBlockFunction> UpdateCore for BlockCore<F> {
    ghost is_core = { IsWithoutTail F.are_words };

    ghost after = { after_blocks F.step };

    fn update_blocks(&mut self, blocks: &[[u8; 64]]) {
        if !blocks.is_empty() {
            F::walk_on(&mut self.state, blocks);
        }
        self.block_count = self.block_count.wrapping_add(blocks.len() as u64);
    }

    ghost after_none = { after_no_blocks F.step F.are_words };

    ghost after_joined = { λ core xs ys valid.
        after_joined_blocks F.step core xs ys };
}

impl<F: ListBlockFunction> FixedOutputCore for BlockCore<F> {
    ghost digest_of = { λ core tail. finish F.step F.output (with_tail core tail) };

    #[tactic(auto, using(crate::specs::OverLists::walk_over_lists), unfolding(crate::specs::States::finish))]
    fn finalize_fixed_core(&mut self, buffer: &mut Buffer, out: &mut F::Digest) {
        let tail = buffer.get_data();
        let bit_len = self
            .block_count
            .wrapping_mul(512)
            .wrapping_add(8 * tail.len() as u64);
        let mut state = self.state;
        walk_tail::<F>(&mut state, tail, bit_len);
        *out = F::output(state);
        // Proof only: gives the digest's size.
        out.as_bytes();
        *buffer = Buffer::default();
    }
}

/// The state after blocks in order.
#[inline(always)]
pub fn walk<F: ListBlockFunction>(state: F::State, blocks: &[[u8; 64]]) -> F::State
    requires { F.is_state state }
    ensures value { result ≡ walk F.step_of state blocks.now }
    ensures valid { F.is_state result }
{
    let mut last = state;
    if !blocks.is_empty() {
        F::walk_on(&mut last, blocks);
    }
    last
}

// Takes in the tail of a message of `bit_len` bits, and its padding.
fn walk_tail<F: ListBlockFunction>(state: &mut F::State, tail: &[u8], bit_len: u64)
    requires valid { F.is_state state.old }
    requires short { length tail.now < block_size }
    ensures value { state.new ≡ walk F.step_of state.old (blocks (with_padding tail.now bit_len)) }
    ensures valid { F.is_state state.new }
{
    let mut zeros = [[0; 64]; 2];
    F::walk_on(state, last_blocks(tail, bit_len, &mut zeros));
}

/// The digest of a whole message.
#[tactic(auto, unfolding(crate::specs::Standard::Hashing::hash))]
pub fn digest_message<F: ListBlockFunction>(message: &[u8]) -> F::Digest
    ensures digest { F.Digest.bytes result
        ≡ hash (F.list F.start_of) F.step F.output message.now }
    ensures size { length (F.Digest.bytes result) ≡ F.Digest.LEN }
{
    let digest = F::output(walk_message::<F>(F::start(), 0, message));
    // Proof only: gives the digest's size.
    digest.as_bytes();
    digest
}

/// The state after `message` and its padding. The length field also counts the `before` bytes that led to `first`.
#[inline(always)]
pub fn walk_message<F: ListBlockFunction>(first: F::State, before: u64, message: &[u8]) -> F::State
    requires { F.is_state first }
    ensures value { F.list result ≡ walk F.step (F.list first)
        (blocks (with_padding message.now (8 * (before + length message.now) % 2 ^ 64))) }
    ensures valid { F.is_state result }
{
    let (whole, tail) = whole_blocks(message);
    let bit_len = before.wrapping_add(message.len() as u64).wrapping_mul(8);
    let mut state = walk::<F>(first, whole);
    walk_tail::<F>(&mut state, tail, bit_len);
    state
}

/// Gives what [`walk_message`] does, faster if the compiler knows the length of `message`, as of a digest, and this is
/// a multiple of 4 below 56.
#[inline(always)]
pub fn walk_digest<F: ListBlockFunction>(first: F::State, before: u64, message: &[u8]) -> F::State
    requires { F.is_state first }
    ensures value { F.list result ≡ walk F.step (F.list first)
        (blocks (with_padding message.now (8 * (before + length message.now) % 2 ^ 64))) }
    ensures valid { F.is_state result }
{
    let len = message.len();
    if len % 4 != 0 || len >= 56 {
        return walk_message::<F>(first, before, message);
    }
    let bit_len = before.wrapping_add(len as u64).wrapping_mul(8);
    let mut state = first;
    F::walk_on(&mut state, from_ref(&padded_words(message, bit_len)));
    state
}

impl<F: ResumableFunction> SerializableState for BlockCore<F> {
    type Saved = F::SavedCore;

    ghost saved_bytes = { F.SavedCore.bytes };

    ghost state_bytes = { output_and_count F.output };

    #[tactic(auto, unfolding(crate::specs::States::output_and_count))]
    fn serialize(&self) -> F::SavedCore {
        let output = F::output(self.state);
        let count = self.block_count.to_le_bytes();
        F::SavedCore::from_slices(output.as_bytes(), &count).unwrap()
    }

    fn deserialize(saved: &F::SavedCore) -> Result<BlockCore<F>, DeserializeStateError> {
        BlockCore::load_slice(saved.as_bytes())
    }

    #[tactic(auto, using(crate::specs::Laws::Saved::output_parts), unfolding(crate::specs::States::output_and_count))]
    fn load_slice(bytes: &[u8]) -> Result<BlockCore<F>, DeserializeStateError> {
        if bytes.len() != <F::SavedCore as ByteArray>::LEN {
            return Err(DeserializeStateError);
        }
        let (output, count) = bytes.split_at(<F::Digest as ByteArray>::LEN);
        let output = F::Digest::from_slice(output).unwrap();
        match F::from_output(output) {
            Some(state) => Ok(BlockCore {
                state,
                block_count: read_count(count),
            }),
            None => Err(DeserializeStateError),
        }
    }

    ghost state_injective = { output_and_count_injective F.injective_output };

    ghost same_saved = { F.SavedCore.same_array };
}

/// Takes blocks in order into a saved core, in place. If no core has these saved bytes, nothing is known of the result.
#[inline(always)]
pub fn update_saved<F: ResumableFunction>(saved: &mut [u8], blocks: &[[u8; 64]])
    requires size { length saved.old ≡ F.SavedCore.LEN }
    ensures saved { (core : HashState) → IsHashState F.are_words core
        → output_and_count F.output core ≡ saved.old
        → output_and_count F.output (after_blocks F.step core blocks.now) ≡ saved.new }
    ensures valid { (core : HashState) → IsHashState F.are_words core
        → output_and_count F.output core ≡ saved.old
        → IsHashState F.are_words (after_blocks F.step core blocks.now) }
{
    let (output, behind) = saved.split_at_mut(<F::Digest as ByteArray>::LEN);
    if !blocks.is_empty() {
        F::walk_on_output(output, blocks);
    }
    let count = read_count(behind).wrapping_add(blocks.len() as u64);
    behind.copy_from_slice(&count.to_le_bytes());
}

impl<F: ListBlockFunction> BlockFunction for BlockCore<F> {
    type State = F::State;

    type Digest = F::Digest;

    ghost is_state = { F.is_state };

    ghost start_of = { F.start_of };

    ghost step_of = { F.step_of };

    ghost output_of = { F.output_of };

    fn start() -> F::State {
        F::start()
    }

    fn step(state: F::State, block: &[u8; 64]) -> F::State {
        F::step(state, block)
    }

    fn output(state: F::State) -> F::Digest {
        F::output(state)
    }

    ghost output_injective = { F.output_injective };

    ghost same_state = { F.same_state };
}
