//! The block functions of the four variants, and their cores.

ghost use Rattle.std.specs.Prelude.{◌≡◌, length, codes, refl};
ghost use Rattle.std.proofs.Common.{rules};
ghost use Rattle.ripemd_block.specs.Standard.{word_bytes, compress, ripemd128, ripemd160, ripemd256, ripemd320};
ghost use Rattle.ripemd_block.specs.OverLists.{of_arrays};
ghost use Rattle.ripemd_block.specs.States.{AreWords};
ghost use Rattle.ripemd_block.specs.Laws.WordBytes.{equal_words, word_bytes_injective};
ghost use Rattle.ripemd_block.specs.Laws.Saved.{word_bytes_output};

use crate::arrays::{read_words, write_words};
use crate::block_core::BlockCore;
use crate::traits::{AlgorithmName, BlockFunction, ListBlockFunction, ResumableFunction};
use crate::{c128, c160, c256, c320, registers};
use std::fmt;

/// The block function of RIPEMD-128: four words, and a digest of 16 bytes.
pub enum Ripemd128Function {}

/// The block function of RIPEMD-160: five words, and a digest of 20 bytes.
pub enum Ripemd160Function {}

/// The block function of RIPEMD-256: eight words, and a digest of 32 bytes.
pub enum Ripemd256Function {}

/// The block function of RIPEMD-320: ten words, and a digest of 40 bytes.
pub enum Ripemd320Function {}

/// The block core of RIPEMD-128.
pub type Ripemd128Core = BlockCore<Ripemd128Function>;

/// The block core of RIPEMD-160.
pub type Ripemd160Core = BlockCore<Ripemd160Function>;

/// The block core of RIPEMD-256.
pub type Ripemd256Core = BlockCore<Ripemd256Function>;

/// The block core of RIPEMD-320.
pub type Ripemd320Core = BlockCore<Ripemd320Function>;

impl BlockFunction for Ripemd128Function {
    type State = [u32; 4];

    type Digest = [u8; 16];

    ghost is_state = { AreWords 4 };

    ghost start_of = { ripemd128.start };

    ghost step_of = { compress ripemd128 };

    ghost output_of = { word_bytes };

    fn start() -> [u32; 4] {
        [0x6745_2301, 0xefcd_ab89, 0x98ba_dcfe, 0x1032_5476]
    }

    #[inline(always)]
    fn step(state: [u32; 4], block: &[u8; 64]) -> [u32; 4] {
        let mut words = state;
        c128::compress(&mut words, block);
        words
    }

    fn output(state: [u32; 4]) -> [u8; 16] {
        let mut digest = [0; 16];
        write_words(&state, &mut digest);
        digest
    }

    ghost output_injective = { word_bytes_injective 4 };

    ghost same_state = { equal_words };
}

impl ListBlockFunction for Ripemd128Function {
    ghost list = { λ words. words };

    ghost are_words = { AreWords 4 };

    ghost step = { compress ripemd128 };

    ghost output = { word_bytes };

    #[inline(never)]
    fn walk_on(first: &mut [u32; 4], blocks: &[[u8; 64]]) {
        registers::walk_in_registers::<Ripemd128Function>(first, blocks);
    }

    ghost over_lists = { of_arrays };

    ghost digest_most = { Prim.search rules };
}

impl ResumableFunction for Ripemd128Function {
    type SavedCore = [u8; 24];

    type SavedHasher = [u8; 88];

    type SavedHmac = [u8; 176];

    fn from_output(output: [u8; 16]) -> Option<[u32; 4]> {
        let mut words = [0; 4];
        read_words(&output, &mut words);
        Some(words)
    }

    ghost injective_output = { word_bytes_output 4 };

    ghost saved_core_size = { refl };

    ghost saved_hasher_size = { refl };

    ghost saved_hmac_size = { refl };
}

impl AlgorithmName for Ripemd128Function {
    ghost name = { codes "Ripemd128" };

    const ALG_NAME: &'static str = "Ripemd128";

    fn write_alg_name<W: fmt::Write>(f: &mut fmt::Formatter<W>) -> fmt::Result {
        f.write_str("Ripemd128")
    }
}

impl BlockFunction for Ripemd160Function {
    type State = [u32; 5];

    type Digest = [u8; 20];

    ghost is_state = { AreWords 5 };

    ghost start_of = { ripemd160.start };

    ghost step_of = { compress ripemd160 };

    ghost output_of = { word_bytes };

    fn start() -> [u32; 5] {
        [
            0x6745_2301,
            0xefcd_ab89,
            0x98ba_dcfe,
            0x1032_5476,
            0xc3d2_e1f0,
        ]
    }

    #[inline(always)]
    fn step(state: [u32; 5], block: &[u8; 64]) -> [u32; 5] {
        let mut words = state;
        c160::compress(&mut words, block);
        words
    }

    fn output(state: [u32; 5]) -> [u8; 20] {
        let mut digest = [0; 20];
        write_words(&state, &mut digest);
        digest
    }

    ghost output_injective = { word_bytes_injective 5 };

    ghost same_state = { equal_words };
}

impl ListBlockFunction for Ripemd160Function {
    ghost list = { λ words. words };

    ghost are_words = { AreWords 5 };

    ghost step = { compress ripemd160 };

    ghost output = { word_bytes };

    #[inline(never)]
    fn walk_on(first: &mut [u32; 5], blocks: &[[u8; 64]]) {
        registers::walk_in_registers::<Ripemd160Function>(first, blocks);
    }

    ghost over_lists = { of_arrays };

    ghost digest_most = { Prim.search rules };
}

impl ResumableFunction for Ripemd160Function {
    type SavedCore = [u8; 28];

    type SavedHasher = [u8; 92];

    type SavedHmac = [u8; 184];

    fn from_output(output: [u8; 20]) -> Option<[u32; 5]> {
        let mut words = [0; 5];
        read_words(&output, &mut words);
        Some(words)
    }

    ghost injective_output = { word_bytes_output 5 };

    ghost saved_core_size = { refl };

    ghost saved_hasher_size = { refl };

    ghost saved_hmac_size = { refl };
}

impl AlgorithmName for Ripemd160Function {
    ghost name = { codes "Ripemd160" };

    const ALG_NAME: &'static str = "Ripemd160";

    fn write_alg_name<W: fmt::Write>(f: &mut fmt::Formatter<W>) -> fmt::Result {
        f.write_str("Ripemd160")
    }
}

impl BlockFunction for Ripemd256Function {
    type State = [u32; 8];

    type Digest = [u8; 32];

    ghost is_state = { AreWords 8 };

    ghost start_of = { ripemd256.start };

    ghost step_of = { compress ripemd256 };

    ghost output_of = { word_bytes };

    fn start() -> [u32; 8] {
        [
            0x6745_2301,
            0xefcd_ab89,
            0x98ba_dcfe,
            0x1032_5476,
            0x7654_3210,
            0xfedc_ba98,
            0x89ab_cdef,
            0x0123_4567,
        ]
    }

    #[inline(always)]
    fn step(state: [u32; 8], block: &[u8; 64]) -> [u32; 8] {
        let mut words = state;
        c256::compress(&mut words, block);
        words
    }

    fn output(state: [u32; 8]) -> [u8; 32] {
        let mut digest = [0; 32];
        write_words(&state, &mut digest);
        digest
    }

    ghost output_injective = { word_bytes_injective 8 };

    ghost same_state = { equal_words };
}

impl ListBlockFunction for Ripemd256Function {
    ghost list = { λ words. words };

    ghost are_words = { AreWords 8 };

    ghost step = { compress ripemd256 };

    ghost output = { word_bytes };

    #[inline(never)]
    fn walk_on(first: &mut [u32; 8], blocks: &[[u8; 64]]) {
        registers::walk_in_registers::<Ripemd256Function>(first, blocks);
    }

    ghost over_lists = { of_arrays };

    ghost digest_most = { Prim.search rules };
}

impl ResumableFunction for Ripemd256Function {
    type SavedCore = [u8; 40];

    type SavedHasher = [u8; 104];

    type SavedHmac = [u8; 208];

    fn from_output(output: [u8; 32]) -> Option<[u32; 8]> {
        let mut words = [0; 8];
        read_words(&output, &mut words);
        Some(words)
    }

    ghost injective_output = { word_bytes_output 8 };

    ghost saved_core_size = { refl };

    ghost saved_hasher_size = { refl };

    ghost saved_hmac_size = { refl };
}

impl AlgorithmName for Ripemd256Function {
    ghost name = { codes "Ripemd256" };

    const ALG_NAME: &'static str = "Ripemd256";

    fn write_alg_name<W: fmt::Write>(f: &mut fmt::Formatter<W>) -> fmt::Result {
        f.write_str("Ripemd256")
    }
}

impl BlockFunction for Ripemd320Function {
    type State = [u32; 10];

    type Digest = [u8; 40];

    ghost is_state = { AreWords 10 };

    ghost start_of = { ripemd320.start };

    ghost step_of = { compress ripemd320 };

    ghost output_of = { word_bytes };

    fn start() -> [u32; 10] {
        [
            0x6745_2301,
            0xefcd_ab89,
            0x98ba_dcfe,
            0x1032_5476,
            0xc3d2_e1f0,
            0x7654_3210,
            0xfedc_ba98,
            0x89ab_cdef,
            0x0123_4567,
            0x3c2d_1e0f,
        ]
    }

    #[inline(always)]
    fn step(state: [u32; 10], block: &[u8; 64]) -> [u32; 10] {
        let mut words = state;
        c320::compress(&mut words, block);
        words
    }

    fn output(state: [u32; 10]) -> [u8; 40] {
        let mut digest = [0; 40];
        write_words(&state, &mut digest);
        digest
    }

    ghost output_injective = { word_bytes_injective 10 };

    ghost same_state = { equal_words };
}

impl ListBlockFunction for Ripemd320Function {
    ghost list = { λ words. words };

    ghost are_words = { AreWords 10 };

    ghost step = { compress ripemd320 };

    ghost output = { word_bytes };

    #[inline(never)]
    fn walk_on(first: &mut [u32; 10], blocks: &[[u8; 64]]) {
        registers::walk_in_registers::<Ripemd320Function>(first, blocks);
    }

    ghost over_lists = { of_arrays };

    ghost digest_most = { Prim.search rules };
}

impl ResumableFunction for Ripemd320Function {
    type SavedCore = [u8; 48];

    type SavedHasher = [u8; 112];

    type SavedHmac = [u8; 224];

    fn from_output(output: [u8; 40]) -> Option<[u32; 10]> {
        let mut words = [0; 10];
        read_words(&output, &mut words);
        Some(words)
    }

    ghost injective_output = { word_bytes_output 10 };

    ghost saved_core_size = { refl };

    ghost saved_hasher_size = { refl };

    ghost saved_hmac_size = { refl };
}

impl AlgorithmName for Ripemd320Function {
    ghost name = { codes "Ripemd320" };

    const ALG_NAME: &'static str = "Ripemd320";

    fn write_alg_name<W: fmt::Write>(f: &mut fmt::Formatter<W>) -> fmt::Result {
        f.write_str("Ripemd320")
    }
}
