//! The traits of block cores and of block functions.

ghost use Rattle.std.specs.Prelude.{◌≡◌, ◌≢◌, ℕ, ◌+◌, ◌≤◌, List, [], ◌++◌, length, IfOk, IfErr, IfSome, IfNone, true};
ghost use Rattle.std.specs.Fmt.{WritesOnOk, WritesStyledOnOk};
ghost use Rattle.ripemd_block.specs.Standard.{block_size, walk};
ghost use Rattle.ripemd_block.specs.States.{HashState, IsTail};
ghost use Rattle.ripemd_block.specs.OverLists.{IsOverLists, IsInjectiveOutput};

use crate::arrays::ByteArray;
use crate::buffer::Buffer;
use std::fmt;
use thiserror::Error;

/// The kind of buffer that hands on a block as soon as it is full.
#[derive(Clone, Copy, PartialEq, Eq, Debug)]
pub struct Eager;

/// A type that works on blocks.
pub trait BlockSizeUser {
    ghost BLOCK_SIZE: { ℕ };

    ghost block_size_is: { BLOCK_SIZE ≡ block_size };

    /// The size of a block: 64 bytes.
    const BLOCK_SIZE: usize;
}

/// A type with a digest.
pub trait OutputSizeUser {
    /// The digest, an array of bytes.
    type Output: Copy;

    ghost bytes_of: { Self.Output → List ℕ };

    ghost OUTPUT_SIZE: { ℕ };

    /// The size of a digest in bytes.
    const OUTPUT_SIZE: usize;

    ghost same_digest: { (a b : Self.Output) → bytes_of a ≡ bytes_of b → a ≡ b };
}

/// Marks a hash function or its core, and has no items.
pub trait HashMarker {}

/// A type with the name of a hash function.
pub trait AlgorithmName {
    // The characters of the name.
    ghost name: { List ℕ };

    /// The name, such as `Ripemd160`.
    const ALG_NAME: &'static str;

    /// Writes the name, whatever the formatter's width and other options.
    ///
    /// # Errors
    ///
    /// The writer's error. What it then took is not known.
    fn write_alg_name<W: fmt::Write>(f: &mut fmt::Formatter<W>) -> fmt::Result
        ensures writes { WritesOnOk W.write_str_gives f.old result name f.new }
        ensures styled { WritesStyledOnOk W.write_str_gives f.old result name f.new };
}

/// A core or hasher. Contracts see a hash state: chaining value, count of blocks, tail.
pub trait HashMeaning {
    ghost meaning: { Self → HashState };

    // The hash states that can occur.
    ghost is_valid: { HashState → Type 0 };
}

/// The error of loading bytes that are no saved state.
#[derive(Clone, Copy, PartialEq, Eq, Debug, Error)]
#[error("Deserialization error")]
pub struct DeserializeStateError;

/// A core or hasher that can be saved as bytes and loaded.
pub trait SerializableState: HashMeaning {
    /// The saved bytes, an array.
    type Saved: Copy;

    ghost saved_bytes: { Self.Saved → List ℕ };

    // The saved bytes of a state.
    ghost state_bytes: { HashState → List ℕ };

    /// Saves the state.
    fn serialize(&self) -> Self::Saved
        ensures bytes { saved_bytes result ≡ state_bytes (Self.meaning self.now) }
        ensures valid { Self.is_valid (Self.meaning self.now) };

    /// Loads a saved state.
    ///
    /// # Errors
    ///
    /// `DeserializeStateError` if no state has these saved bytes.
    fn deserialize(saved: &Self::Saved) -> Result<Self, DeserializeStateError>
        ensures ok { IfOk result
            (λ value. state_bytes (Self.meaning value) ≡ saved_bytes saved.now) }
        ensures valid { IfOk result (λ value. Self.is_valid (Self.meaning value)) }
        ensures err { IfErr result
            (λ _. (h : HashState) → Self.is_valid h → state_bytes h ≢ saved_bytes saved.now) };

    /// Loads a state from its saved bytes.
    ///
    /// # Errors
    ///
    /// `DeserializeStateError` if no state has these saved bytes, so for any other number of them.
    fn load_slice(bytes: &[u8]) -> Result<Self, DeserializeStateError>
        ensures ok { IfOk result (λ value. state_bytes (Self.meaning value) ≡ bytes.now) }
        ensures valid { IfOk result (λ value. Self.is_valid (Self.meaning value)) }
        ensures err { IfErr result
            (λ _. (h : HashState) → Self.is_valid h → state_bytes h ≢ bytes.now) };

    // A saved state loads as itself.
    ghost state_injective: { (g h : HashState) → Self.is_valid g → Self.is_valid h
        → state_bytes g ≡ state_bytes h → g ≡ h };

    // A loaded array saves as itself.
    ghost same_saved: { (a b : Self.Saved) → saved_bytes a ≡ saved_bytes b → a ≡ b };
}

/// A value that can be reset.
pub trait Reset: Default {
    /// Makes the value what `default()` gives.
    fn reset(&mut self)
        ensures { Self.is_default self.new };
}

/// A type that says what kind of buffer it needs.
pub trait BufferKindUser: BlockSizeUser {
    /// The kind of buffer.
    type BufferKind;
}

/// A core that takes in whole blocks.
pub trait UpdateCore: BlockSizeUser {
    // The cores that can occur.
    ghost is_core: { Self → Type 0 };

    // A core after some blocks.
    ghost after: { Self → List (List ℕ) → Self };

    /// Takes in blocks in order, and counts them modulo 2^64.
    fn update_blocks(&mut self, blocks: &[[u8; 64]])
        ensures after { self.new ≡ after self.old blocks.now }
        ensures valid_old { is_core self.old }
        ensures valid_new { is_core self.new };

    ghost after_none: { (core : Self) → is_core core → after core [] ≡ core };

    ghost after_joined: { (core : Self) (xs ys : List (List ℕ)) → is_core core
        → after (after core xs) ys ≡ after core (xs ++ ys) };
}

/// A core that gives a digest.
pub trait FixedOutputCore: UpdateCore + BufferKindUser + OutputSizeUser {
    // The digest's bytes, by the core and the tail.
    ghost digest_of: { Self → List ℕ → List ℕ };

    /// Writes to `out` the digest of the core's blocks and then the buffer's bytes, with the length in bits modulo
    /// 2^64. The core stays as it was; the buffer becomes empty.
    fn finalize_fixed_core(&mut self, buffer: &mut Buffer, out: &mut Self::Output)
        ensures digest { Self.bytes_of out.new ≡ digest_of self.old buffer.old }
        ensures size { length (Self.bytes_of out.new) ≡ Self.OUTPUT_SIZE }
        ensures same_core { self.new ≡ self.old }
        ensures empty { buffer.new ≡ [] }
        ensures valid { Self.is_core self.old }
        ensures valid_tail { IsTail buffer.old };
}

/// A block function: a state to start from, a step from a state and a block to a state, and an output. The hash of a
/// message is the output after the steps over its padded blocks. The calls depend on their arguments alone and allocate
/// nothing.
pub trait BlockFunction {
    /// A state.
    type State: Copy + Eq;

    /// The output.
    type Digest;

    // The states that can occur.
    ghost is_state: { Self.State → Type 0 };

    ghost start_of: { Self.State };

    ghost step_of: { Self.State → List ℕ → Self.State };

    ghost output_of: { Self.State → Self.Digest };

    /// The state to start from.
    fn start() -> Self::State
        ensures value { result ≡ start_of }
        ensures valid { is_state result };

    /// The state after a block.
    fn step(state: Self::State, block: &[u8; 64]) -> Self::State
        ensures value { result ≡ step_of state block.now }
        ensures valid_old { is_state state }
        ensures valid_new { is_state result };

    /// The output of a state. Different states have different outputs.
    fn output(state: Self::State) -> Self::Digest
        ensures value { result ≡ output_of state }
        ensures valid { is_state state };

    ghost output_injective: { (s t : Self.State) → is_state s → is_state t
        → output_of s ≡ output_of t → s ≡ t };

    ghost same_state: { (s t : Self.State) → Self.State.eq s t ≡ true → s ≡ t };
}

/// A block function for hashers: its states are lists of numbers, and its digests arrays of at most 64 bytes.
pub trait ListBlockFunction: BlockFunction<Digest: ByteArray> {
    // The numbers of a state.
    ghost list: { Self.State → List ℕ };

    // The lists that are states.
    ghost are_words: { List ℕ → Type 0 };

    // The list after a block.
    ghost step: { List ℕ → List ℕ → List ℕ };

    // The bytes of the output of a list.
    ghost output: { List ℕ → List ℕ };

    /// Takes blocks into a state in order. A block function may have a faster body than steps.
    #[inline(never)]
    fn walk_on(first: &mut Self::State, blocks: &[[u8; 64]])
        ensures value { first.new ≡ walk Self.step_of first.old blocks.now }
        ensures valid { Self.is_state first.old → Self.is_state first.new }
    {
        let mut state = *first;
        for block in blocks {
            state = Self::step(state, block);
        }
        *first = state;
    }

    // Over these lists the block function is the same.
    ghost over_lists: { IsOverLists list Self.is_state Self.step_of Self.output_of
        Self.Digest.bytes are_words step output };

    ghost digest_most: { Self.Digest.LEN ≤ 64 };
}

/// A block function whose outputs give back the states. A hash state is saved as the output of its chaining value, the
/// count of its blocks, and its tail.
pub trait ResumableFunction: ListBlockFunction {
    /// A saved core: 8 bytes more than a digest.
    type SavedCore: ByteArray;

    /// A saved hasher: 64 bytes more than a saved core.
    type SavedHasher: ByteArray;

    /// A saved HMAC state: twice as many bytes as a saved hasher.
    type SavedHmac: ByteArray;

    /// The state with this output; `None` exactly if there is none.
    fn from_output(output: Self::Digest) -> Option<Self::State>
        ensures some { IfSome result (λ state. Self.output_of state ≡ output) }
        ensures valid { IfSome result Self.is_state }
        ensures none { IfNone result ((words : List ℕ) → Self.are_words words
            → Self.output words ≢ Self.Digest.bytes output) };

    /// Replaces the output of a state by that of the state after these blocks. If no state has this output, nothing is
    /// known of the result. Never inlined: the state is loaded and stored once, and stays in registers in between.
    #[inline(never)]
    final fn walk_on_output(output: &mut [u8], blocks: &[[u8; 64]])
        requires size { length output.old ≡ Self.Digest.LEN }
        ensures value { (words : List ℕ) → Self.are_words words → Self.output words ≡ output.old
            → Self.output (walk Self.step words blocks.now) ≡ output.new }
        ensures valid { (words : List ℕ) → Self.are_words words → Self.output words ≡ output.old
            → Self.are_words (walk Self.step words blocks.now) }
    {
        let digest = Self::Digest::from_slice(output).unwrap();
        if let Some(state) = Self::from_output(digest) {
            let mut last = state;
            Self::walk_on(&mut last, blocks);
            output.copy_from_slice(Self::output(last).as_bytes());
        }
    }

    // An output has the digest's size, and different words have different outputs.
    ghost injective_output: { IsInjectiveOutput Self.are_words Self.output Self.Digest.LEN };

    ghost saved_core_size: { Self.SavedCore.LEN ≡ Self.Digest.LEN + 8 };

    ghost saved_hasher_size: { Self.SavedHasher.LEN ≡ Self.SavedCore.LEN + 64 };

    ghost saved_hmac_size: { Self.SavedHmac.LEN ≡ Self.SavedHasher.LEN + Self.SavedHasher.LEN };
}
