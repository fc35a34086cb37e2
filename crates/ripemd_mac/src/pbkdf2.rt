//! A key derived from a password and a salt: PBKDF2 with HMAC (RFC 8018, section 5.2).

ghost use Rattle.std.specs.Prelude.{◌≡◌, ◌≢◌, ◌↔◌, ◌<◌, ◌≤◌, ◌*◌, ◌^◌, ◌-◌, ℕ, List, [], length, take, IfOk, IfErr};
ghost use Rattle.std.specs.Int.Bits.{bit_xor};
ghost use Rattle.std.specs.Simd.Lanes.{zip2};
ghost use Rattle.ripemd.specs.Standard.{hash};
ghost use Rattle.ripemd_mac.specs.Hmac.{StandsFor, filled, hmac};
ghost use Rattle.ripemd_mac.specs.Pbkdf2.{F, pbkdf2};

use crate::hmac::{Hmac, filled};
use ripemd::digest::{BlockDigest, Digest};
use std::simd::prelude::*;
use thiserror::Error;

/// Why no key is derived.
#[derive(Debug, Error, Clone, Copy, PartialEq, Eq)]
pub enum Pbkdf2Error {
    /// The number of rounds is 0.
    #[error("no rounds")]
    NoRounds,
    /// The key is longer than 2^32 - 1 digests.
    #[error("key too long")]
    KeyTooLong,
}

/// Derives a key from a password and a salt, each of any length, by `rounds` rounds, into `key`, of any length up to
/// 2^32 - 1 digests. Nothing is allocated.
///
/// # Errors
///
/// `NoRounds` if `rounds` is 0, else `KeyTooLong` if `key` is longer. Nothing is written then.
pub fn pbkdf2_hmac<D: BlockDigest>(
    password: &[u8],
    salt: &[u8],
    rounds: u32,
    key: &mut [u8],
) -> Result<(), Pbkdf2Error>
    ensures ok { IfOk result (λ _. key.new ≡ pbkdf2 (hmac (hash D.start D.step D.output))
        D.OUTPUT_SIZE password.now salt.now rounds (length key.old)) }
    ensures fits { IfOk result (λ _. (rounds ≢ 0)
        × (length key.old ≤ (2 ^ 32 - 1) * D.OUTPUT_SIZE)) }
    ensures no_rounds { IfErr result (λ why. (why ≡ Pbkdf2Error.NoRounds) ↔ (rounds ≡ 0)) }
    ensures too_long { IfErr result (λ why. why ≡ Pbkdf2Error.KeyTooLong
        → (2 ^ 32 - 1) * D.OUTPUT_SIZE < length key.old) }
    ensures unchanged { IfErr result (λ _. key.new ≡ key.old) }
{
    let size = D::OUTPUT_SIZE;
    allowed(rounds, size, key.len())?;
    if key.is_empty() {
        return Ok(());
    }
    let keyed = Hmac::<D>::new(password);
    for i in 0..key.len().div_ceil(size) {
        let block = derived_block(&keyed, salt, rounds, i as u32 + 1);
        let end = key.len().min(size * i + size);
        write_front(&block, &mut key[size * i..end]);
    }
    Ok(())
}

/// Whether `rounds` rounds may derive a key of `len` bytes, with digests of `size` bytes.
///
/// # Errors
///
/// `NoRounds` if `rounds` is 0, else `KeyTooLong` if the key is longer than 2^32 - 1 digests.
pub fn allowed(rounds: u32, size: usize, len: usize) -> Result<(), Pbkdf2Error>
    ensures ok { IfOk result (λ _. (rounds ≢ 0) × (len ≤ (2 ^ 32 - 1) * size)) }
    ensures no_rounds { IfErr result (λ why. (why ≡ Pbkdf2Error.NoRounds) ↔ (rounds ≡ 0)) }
    ensures too_long { IfErr result (λ why. why ≡ Pbkdf2Error.KeyTooLong
        → (2 ^ 32 - 1) * size < len) }
{
    if rounds == 0 {
        return Err(Pbkdf2Error::NoRounds);
    }
    if size.saturating_mul(0xffff_ffff) < len {
        return Err(Pbkdf2Error::KeyTooLong);
    }
    Ok(())
}

/// Fills `part` with the front of a block.
pub fn write_front(block: &[u8; 64], part: &mut [u8])
    requires { length part.old ≤ 64 }
    ensures { part.new ≡ take (length part.old) block.now }
{
    part.copy_from_slice(&block[..part.len()]);
}

// Block `number` of the key, from 1, filled with zeros. `keyed` has the password and the empty text.
fn derived_block<D: BlockDigest>(keyed: &Hmac<D>, salt: &[u8], rounds: u32, number: u32) -> [u8; 64]
    requires { 0 < rounds }
    ensures block { (password : List ℕ) → StandsFor D.start D.step D.output password [] keyed.now
        → result ≡ filled (F (hmac (hash D.start D.step D.output)) password salt.now rounds number) }
    ensures size { (password : List ℕ) → StandsFor D.start D.step D.output password [] keyed.now
        → length (F (hmac (hash D.start D.step D.output)) password salt.now rounds number)
        ≡ D.OUTPUT_SIZE }
    ensures most { D.OUTPUT_SIZE ≤ 64 }
{
    let mut first = keyed.duplicate();
    first.update(salt);
    first.update(&number.to_be_bytes());
    let mut tag = first.finalize();
    let mut block = filled(D::output_bytes(&tag));
    for j in 1..rounds {
        tag = next_tag::<D>(keyed, &tag);
        block = combined(&block, &filled(D::output_bytes(&tag)));
    }
    block
}

fn next_tag<D: BlockDigest>(keyed: &Hmac<D>, tag: &D::Output) -> D::Output
    ensures tag { (password : List ℕ) → StandsFor D.start D.step D.output password [] keyed.now
        → D.bytes_of result ≡ hmac (hash D.start D.step D.output) password (D.bytes_of tag.now) }
    ensures size { length (D.bytes_of result) ≡ D.OUTPUT_SIZE }
{
    let mut text = keyed.duplicate();
    text.update(D::output_bytes(tag));
    text.finalize()
}

/// The exclusive or of two blocks. Not inlined: if the compiler sees how a block is assembled, it works on single
/// bytes, and a round of PBKDF2 by RIPEMD-128 takes 30 ns more.
#[inline(never)]
pub fn combined(a: &[u8; 64], b: &[u8; 64]) -> [u8; 64]
    ensures { result ≡ zip2 bit_xor a.now b.now }
{
    (u8x64::from_array(*a) ^ u8x64::from_array(*b)).to_array()
}
