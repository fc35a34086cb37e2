//! Keys derived from passwords: PBKDF2 with HMAC (RFC 8018, section 5.2).

ghost use Rattle.ripemd.specs.Standard.{hash};
ghost use Rattle.ripemd_batch.specs.Lanes.{targets};
ghost use Rattle.ripemd_c.specs.Pbkdf2.{DerivesKey, DerivesKeys, FillsKey, FillsKeys};

use crate::each::is_product;
use ripemd::{Ripemd128, Ripemd160, Ripemd256, Ripemd320};
use ripemd_batch::{BatchDigest, pbkdf2_hmac, pbkdf2_hmac_each};

/// Fills `key` with the key derived from a password and a salt by `rounds` rounds, with HMAC over the
/// variant. False exactly if there is no such variant, there are no rounds, or the key is longer than
/// 2^32 - 1 digests; nothing is written then.
#[unsafe(no_mangle)]
pub extern "C" fn nattizhu_pbkdf2_nonnull(
    variant: u32,
    password: &[u8],
    salt: &[u8],
    rounds: u32,
    key: &mut [u8],
) -> bool
    ensures { DerivesKey variant password.now salt.now rounds key.old key.new result }
{
    by_variant!(variant, derive_key(password, salt, rounds, key))
}

/// Writes the keys of `size` bytes, each derived from a password and its salt as by
/// `nattizhu_pbkdf2_nonnull`, one after another to `keys`. False exactly if there is no such variant,
/// there are no rounds, `size` is more than 2^32 - 1 digests, there are not as many salts as passwords,
/// or `keys` is not as long as all keys; nothing is written then.
#[unsafe(no_mangle)]
pub extern "C" fn nattizhu_pbkdf2_list_nonnull(
    variant: u32,
    passwords: &[&[u8]],
    salts: &[&[u8]],
    rounds: u32,
    size: usize,
    keys: &mut [u8],
) -> bool
    ensures { DerivesKeys variant (targets passwords.now) (targets salts.now) rounds size
        keys.old keys.new result }
{
    by_variant!(variant, derive_keys(passwords, salts, rounds, size, keys))
}

fn derive_key<D: BatchDigest>(password: &[u8], salt: &[u8], rounds: u32, key: &mut [u8]) -> bool
    ensures { FillsKey (hash D.start D.step D.output) D.OUTPUT_SIZE password.now salt.now rounds
        key.old key.new result }
{
    pbkdf2_hmac::<D>(password, salt, rounds, key).is_ok()
}

fn derive_keys<D: BatchDigest>(
    passwords: &[&[u8]],
    salts: &[&[u8]],
    rounds: u32,
    size: usize,
    keys: &mut [u8],
) -> bool
    ensures { FillsKeys (hash D.start D.step D.output) D.OUTPUT_SIZE (targets passwords.now) (targets salts.now)
        rounds size keys.old keys.new result }
{
    salts.len() == passwords.len()
        && is_product(keys.len(), size, passwords.len())
        && pbkdf2_hmac_each::<D>(passwords, salts, rounds, size, keys).is_ok()
}
