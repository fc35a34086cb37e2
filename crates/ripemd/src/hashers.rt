//! The hasher of any block function, and of the four variants.

ghost use Rattle.std.specs.Prelude.{◌≡◌, ⊤, refl};
ghost use Rattle.ripemd_block.specs.States.{HashState, IsHashState, initial_state, with_tail};
ghost use Rattle.ripemd.specs.Laws.{fed_nothing};
ghost use Rattle.ripemd_block.specs.OverLists.{hash_over_lists};

use crate::digest::{
    AlgorithmName, BlockDigest, BlockSizeUser, Digest, FixedOutputCore, HashMarker, HashMeaning,
    OutputSizeUser, Reset, UpdateCore,
};
use ripemd_block::block_api::{
    BlockCore, ByteArray, ListBlockFunction, Ripemd128Function, Ripemd160Function,
    Ripemd256Function, Ripemd320Function, digest_message,
};
use ripemd_block::buffer::Buffer;
use ripemd_block::padding::whole_blocks;
use std::alloc::AllocError;
use std::fmt;
use std::marker::Model;

/// The hasher of a block function, with the padding of MD4 (RFC 1320): its block core, and the tail of the message.
/// Contracts see both as one hash state.
#[derive(Drop)]
pub struct BlockHasher<F: ListBlockFunction> {
    pub(crate) core: BlockCore<F>,
    pub(crate) buffer: Buffer,
}

/// The hasher of RIPEMD-128 (1996), with 16-byte digests.
pub type Ripemd128 = BlockHasher<Ripemd128Function>;

/// The hasher of RIPEMD-160 (1996), with 20-byte digests.
pub type Ripemd160 = BlockHasher<Ripemd160Function>;

/// The hasher of RIPEMD-256 (1996), with 32-byte digests. It is no stronger than RIPEMD-128.
pub type Ripemd256 = BlockHasher<Ripemd256Function>;

/// The hasher of RIPEMD-320 (1996), with 40-byte digests. It is no stronger than RIPEMD-160.
pub type Ripemd320 = BlockHasher<Ripemd320Function>;

impl Ripemd128 {
    /// The object identifier of RIPEMD-128, in TeleTrusT's arc 1.3.36.3.2.
    pub const OID: &'static str = "1.3.36.3.2.2";
}

impl Ripemd160 {
    /// The object identifier of RIPEMD-160, in TeleTrusT's arc 1.3.36.3.2.
    pub const OID: &'static str = "1.3.36.3.2.1";
}

impl Ripemd256 {
    /// The object identifier of RIPEMD-256, in TeleTrusT's arc 1.3.36.3.2.
    pub const OID: &'static str = "1.3.36.3.2.3";
}

impl<F: ListBlockFunction> Model for BlockHasher<F> {
    ghost Value = { HashState };

    ghost view = { λ h. with_tail h.core h.buffer };

    ghost invariant = { λ h. IsHashState F.are_words (with_tail h.core h.buffer) };
}

impl<F: ListBlockFunction> BlockHasher<F> {
    /// The hasher of a block core and the tail after its blocks.
    #[inline(always)]
    pub fn from_parts(core: BlockCore<F>, tail: Buffer) -> BlockHasher<F>
        ensures { result ≡ with_tail core tail }
    {
        let mut core = core;
        // Proof only: a core and a tail are valid.
        core.update_blocks(&[]);
        tail.get_data();
        BlockHasher { core, buffer: tail }
    }

    /// The block core, and the tail after its blocks.
    #[inline(always)]
    pub fn parts(&self) -> (&BlockCore<F>, &[u8])
        ensures same { with_tail result.0.now result.1.now ≡ self.now }
        ensures valid { IsHashState F.are_words self.now }
    {
        (&self.core, self.buffer.get_data())
    }
}

impl<F: ListBlockFunction> Default for BlockHasher<F> {
    ghost is_default = { λ h. h ≡ initial_state (F.list F.start_of) };

    fn default() -> BlockHasher<F> {
        BlockHasher {
            core: BlockCore::default(),
            buffer: Buffer::default(),
        }
    }
}

impl<F: ListBlockFunction> Clone for BlockHasher<F> {
    ghost is_clone = { λ x y. y ≡ x };

    ghost is_infallible = { λ _. ⊤ };

    fn clone(&self) -> Result<BlockHasher<F>, AllocError> {
        Ok(self.duplicate())
    }
}

/// Writes only the name, as `Ripemd160 { ... }`.
impl<F: ListBlockFunction + AlgorithmName> fmt::Debug for BlockHasher<F> {
    fn fmt<W: fmt::Write>(&self, f: &mut fmt::Formatter<W>) -> fmt::Result {
        F::write_alg_name(f)?;
        f.write_str(" { ... }")
    }
}

impl<F: ListBlockFunction + AlgorithmName> AlgorithmName for BlockHasher<F> {
    ghost name = { F.name };

    const ALG_NAME: &'static str = <F as AlgorithmName>::ALG_NAME;

    fn write_alg_name<W: fmt::Write>(f: &mut fmt::Formatter<W>) -> fmt::Result {
        F::write_alg_name(f)
    }
}

impl<F: ListBlockFunction> HashMarker for BlockHasher<F> {}

impl<F: ListBlockFunction> HashMeaning for BlockHasher<F> {
    ghost meaning = { λ h. h };

    ghost is_valid = { IsHashState F.are_words };
}

impl<F: ListBlockFunction> Reset for BlockHasher<F> {
    fn reset(&mut self) {
        Digest::reset(self);
    }
}

impl<F: ListBlockFunction> BlockSizeUser for BlockHasher<F> {
    ghost BLOCK_SIZE = { 64 };

    ghost block_size_is = { refl };

    const BLOCK_SIZE: usize = 64;
}

impl<F: ListBlockFunction> OutputSizeUser for BlockHasher<F> {
    type Output = F::Digest;

    ghost bytes_of = { F.Digest.bytes };

    ghost OUTPUT_SIZE = { F.Digest.LEN };

    const OUTPUT_SIZE: usize = <F::Digest as ByteArray>::LEN;

    ghost same_digest = { F.Digest.same_array };
}

impl<F: ListBlockFunction> Digest for BlockHasher<F> {
    ghost start = { F.list F.start_of };

    ghost step = { F.step };

    ghost output = { F.output };

    #[tactic(auto, using(crate::specs::Laws::hashing_nothing))]
    fn new() -> BlockHasher<F> {
        Self::default()
    }

    #[tactic(auto, unfolding(ripemd_block::specs::States::fed))]
    fn update(&mut self, bytes: &[u8]) {
        self.buffer.absorb(&mut self.core, bytes);
    }

    #[tactic(auto, using(crate::specs::Laws::hashing_done))]
    fn finalize_reset(&mut self) -> F::Digest {
        let mut digest = F::Digest::zeros();
        self.core.finalize_fixed_core(&mut self.buffer, &mut digest);
        self.core = BlockCore::default();
        digest
    }

    fn reset(&mut self) {
        self.core = BlockCore::default();
        self.buffer = Buffer::default();
    }

    fn duplicate(&self) -> BlockHasher<F> {
        BlockHasher {
            core: self.core.duplicate(),
            buffer: self.buffer.duplicate(),
        }
    }

    fn output_bytes(out: &F::Digest) -> &[u8] {
        out.as_bytes()
    }

    #[inline(always)]
    #[tactic(auto, unfolding(ripemd_block::specs::States::fed))]
    fn new_with_prefix(prefix: &[u8]) -> BlockHasher<F> {
        let (whole, tail) = whole_blocks(prefix);
        let mut core = BlockCore::default();
        core.update_blocks(whole);
        BlockHasher {
            core,
            buffer: Buffer::try_new(tail).unwrap(),
        }
    }

    fn digest(message: &[u8]) -> F::Digest {
        digest_message::<F>(message)
    }

    ghost fed_nothing = { λ h valid.
        fed_nothing F.step h valid.count valid.tail.short };
}

impl<F: ListBlockFunction> BlockDigest for BlockHasher<F> {
    type Core = BlockCore<F>;

    ghost digest_is = { hash_over_lists F.over_lists F.start_of };
}
