//! The traits of the hashers.

ghost use Rattle.std.specs.Prelude.{◌≡◌, ℕ, ◌≤◌, List, [], ◌++◌, length};
ghost use Rattle.ripemd_block.specs.Standard.{hash};
ghost use Rattle.ripemd_block.specs.States.{HashState, initial_state, fed, finish};
ghost use Rattle.ripemd.specs.Messages.{IsHashing};

pub use ripemd_block::block_api::{
    AlgorithmName, BlockFunction, BlockSizeUser, BufferKindUser, FixedOutputCore, HashMarker,
    HashMeaning, OutputSizeUser, Reset, SerializableState, UpdateCore,
};

/// A hash function that takes a message in pieces and gives its digest. The calls have the names of the Rust crate
/// `digest`; none allocates or fails.
///
/// How a message is cut into pieces makes no difference. Its length in bits, as in MD4, and its count of blocks are
/// taken modulo 2^64.
pub trait Digest: OutputSizeUser + HashMeaning + Drop {
    // The words to start from.
    ghost start: { List ℕ };

    // The words after a block.
    ghost step: { List ℕ → List ℕ → List ℕ };

    // The digest of the words.
    ghost output: { List ℕ → List ℕ };

    /// A hasher of the empty message.
    fn new() -> Self
        ensures meaning { Self.meaning result ≡ initial_state start }
        ensures message { IsHashing start step [] (Self.meaning result) }
        ensures valid { Self.is_valid (Self.meaning result) };

    /// Appends bytes to the message.
    fn update(&mut self, bytes: &[u8])
        ensures fed { Self.meaning self.new ≡ fed step (Self.meaning self.old) bytes.now }
        ensures message { (message : List ℕ)
            → IsHashing start step message (Self.meaning self.old)
            → IsHashing start step (message ++ bytes.now) (Self.meaning self.new) }
        ensures valid_old { Self.is_valid (Self.meaning self.old) }
        ensures valid_new { Self.is_valid (Self.meaning self.new) };

    /// Gives the digest, and resets the hasher.
    fn finalize_reset(&mut self) -> Self::Output
        ensures digest { Self.bytes_of result ≡ finish step output (Self.meaning self.old) }
        ensures message { (message : List ℕ)
            → IsHashing start step message (Self.meaning self.old)
            → Self.bytes_of result ≡ hash start step output message }
        ensures size { length (Self.bytes_of result) ≡ Self.OUTPUT_SIZE }
        ensures reset { Self.meaning self.new ≡ initial_state start }
        ensures valid_old { Self.is_valid (Self.meaning self.old) }
        ensures valid_new { Self.is_valid (Self.meaning self.new) };

    /// Makes the hasher what `new()` gives.
    fn reset(&mut self)
        ensures meaning { Self.meaning self.new ≡ initial_state start }
        ensures valid_old { Self.is_valid (Self.meaning self.old) }
        ensures valid_new { Self.is_valid (Self.meaning self.new) };

    /// An independent copy of the hasher.
    fn duplicate(&self) -> Self
        ensures same { result ≡ self.now }
        ensures valid { Self.is_valid (Self.meaning self.now) };

    /// The bytes of a digest: `output_size()`, at most 64.
    fn output_bytes(out: &Self::Output) -> &[u8]
        ensures bytes { result.now ≡ Self.bytes_of out.now }
        ensures size { length result.now ≡ Self.OUTPUT_SIZE }
        ensures most { length result.now ≤ 64 };

    /// A hasher of the message `prefix`.
    fn new_with_prefix(prefix: &[u8]) -> Self
    where
        Self: Sized,
        ensures fed { Self.meaning result ≡ fed Self.step (initial_state Self.start) prefix.now }
        ensures message { IsHashing Self.start Self.step prefix.now (Self.meaning result) }
        ensures valid { Self.is_valid (Self.meaning result) }
    {
        let mut hasher = Self::new();
        hasher.update(prefix);
        hasher
    }

    /// The hasher after `update(bytes)`, for chains of calls.
    final fn chain_update(self, bytes: &[u8]) -> Self
    where
        Self: Sized,
        ensures fed { Self.meaning result ≡ fed Self.step (Self.meaning self) bytes.now }
        ensures message { (message : List ℕ)
            → IsHashing Self.start Self.step message (Self.meaning self)
            → IsHashing Self.start Self.step (message ++ bytes.now) (Self.meaning result) }
        ensures valid_old { Self.is_valid (Self.meaning self) }
        ensures valid_new { Self.is_valid (Self.meaning result) }
    {
        let mut hasher = self;
        hasher.update(bytes);
        hasher
    }

    /// Gives the digest, and ends the hasher.
    final fn finalize(self) -> Self::Output
    where
        Self: Sized,
        ensures digest { Self.bytes_of result ≡ finish Self.step Self.output (Self.meaning self) }
        ensures message { (message : List ℕ)
            → IsHashing Self.start Self.step message (Self.meaning self)
            → Self.bytes_of result ≡ hash Self.start Self.step Self.output message }
        ensures size { length (Self.bytes_of result) ≡ Self.OUTPUT_SIZE }
        ensures valid { Self.is_valid (Self.meaning self) }
    {
        let mut hasher = self;
        hasher.finalize_reset()
    }

    /// Writes the digest to `out`, and ends the hasher.
    final fn finalize_into(self, out: &mut Self::Output)
    where
        Self: Sized,
        ensures digest { Self.bytes_of out.new
            ≡ finish Self.step Self.output (Self.meaning self) }
        ensures size { length (Self.bytes_of out.new) ≡ Self.OUTPUT_SIZE }
        ensures valid { Self.is_valid (Self.meaning self) }
    {
        *out = self.finalize();
    }

    /// Writes the digest to `out`, and resets the hasher.
    final fn finalize_into_reset(&mut self, out: &mut Self::Output)
    where
        Self: Sized,
        ensures digest { Self.bytes_of out.new
            ≡ finish Self.step Self.output (Self.meaning self.old) }
        ensures size { length (Self.bytes_of out.new) ≡ Self.OUTPUT_SIZE }
        ensures reset { Self.meaning self.new ≡ initial_state Self.start }
        ensures valid_old { Self.is_valid (Self.meaning self.old) }
        ensures valid_new { Self.is_valid (Self.meaning self.new) }
    {
        *out = self.finalize_reset();
    }

    /// How many bytes a digest has.
    final fn output_size() -> usize
    where
        Self: Sized,
        ensures { result ≡ Self.OUTPUT_SIZE }
    {
        Self::OUTPUT_SIZE
    }

    /// The digest of a whole message.
    #[tactic(auto, using(crate::specs::Laws::finish_fed))]
    fn digest(message: &[u8]) -> Self::Output
    where
        Self: Sized,
        ensures digest { Self.bytes_of result
            ≡ hash Self.start Self.step Self.output message.now }
        ensures size { length (Self.bytes_of result) ≡ Self.OUTPUT_SIZE }
    {
        let mut fresh = Self::new();
        fresh.update(message);
        fresh.finalize_reset()
    }

    ghost fed_nothing: { (h : HashState) → Self.is_valid h → fed step h [] ≡ h };
}

/// A hash function that iterates a block function over the padded message (Merkle–Damgård).
pub trait BlockDigest: Digest {
    /// The block function.
    type Core: BlockFunction<Digest = Self::Output>;

    ghost digest_is: { (message : List ℕ)
        → Self.bytes_of (hash Self.Core.start_of Self.Core.step_of Self.Core.output_of message)
        ≡ hash Self.start Self.step Self.output message };
}
