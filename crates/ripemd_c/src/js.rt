//! What only the WebAssembly modules for JavaScript have: PBKDF2 without vectors, and RIPEMD-160 alone, of which the
//! smaller module is made.

ghost use Rattle.std.specs.Prelude.{◌≡◌, ◌≢◌, slice_index};
ghost use Rattle.ripemd.specs.Standard.{hash};
ghost use Rattle.ripemd_c.specs.KeptStates.{FinalizesState, InitsState, LoadsState, SavesState, UpdatesState};
ghost use Rattle.ripemd_c.specs.Pbkdf2.{DerivesKey, FillsKey};
ghost use Rattle.ripemd_c.specs.Variants.{Refuses, WritesDigest};

use crate::states::{final_kept, init_kept, load_saved, save_kept, update_kept};
use crate::write_digest;
use ripemd::digest::BlockDigest;
use ripemd::{Ripemd128, Ripemd160, Ripemd256, Ripemd320};
use ripemd_mac::pbkdf2_hmac;

/// Does what `nattizhu_pbkdf2_nonnull` does, one block of the key after another.
#[unsafe(no_mangle)]
pub extern "C" fn nattizhu_pbkdf2_scalar(
    variant: u32,
    password: &[u8],
    salt: &[u8],
    rounds: u32,
    key: &mut [u8],
) -> bool
    ensures { DerivesKey variant password.now salt.now rounds key.old key.new result }
{
    by_variant!(variant, derive_scalar(password, salt, rounds, key))
}

fn derive_scalar<D: BlockDigest>(password: &[u8], salt: &[u8], rounds: u32, key: &mut [u8]) -> bool
    ensures { FillsKey (hash D.start D.step D.output) D.OUTPUT_SIZE password.now salt.now rounds
        key.old key.new result }
{
    pbkdf2_hmac::<D>(password, salt, rounds, key).is_ok()
}

/// Does what `nattizhu_digest_nonnull` does by RIPEMD-160.
#[unsafe(no_mangle)]
pub extern "C" fn nattizhu_ripemd160_digest(message: &[u8], digest: &mut [u8]) -> bool
    ensures { WritesDigest 160 message.now digest.old digest.new result }
{
    write_digest::<Ripemd160>(message, digest)
}

/// Does what `nattizhu_init` does by RIPEMD-160.
#[unsafe(no_mangle)]
pub extern "C" fn nattizhu_ripemd160_init(state: &mut [u8; 113]) -> bool
    ensures { InitsState 160 state.old state.new result }
{
    init_kept::<Ripemd160>(&[], state)
}

/// Does what `nattizhu_update_nonnull` does with a RIPEMD-160 state, and refuses any other.
#[unsafe(no_mangle)]
pub extern "C" fn nattizhu_ripemd160_update(state: &mut [u8; 113], bytes: &[u8]) -> bool
    ensures updates { slice_index state.old 0 ≡ 20 → UpdatesState state.old bytes.now state.new result }
    ensures refused { slice_index state.old 0 ≢ 20 → Refuses state.old state.new result }
{
    state[0] == 20 && update_kept::<Ripemd160>(state, bytes)
}

/// Does what `nattizhu_final_nonnull` does with a RIPEMD-160 state, and refuses any other.
#[unsafe(no_mangle)]
pub extern "C" fn nattizhu_ripemd160_final(state: &[u8; 113], digest: &mut [u8]) -> bool
    ensures finalizes { slice_index state.now 0 ≡ 20 → FinalizesState state.now digest.old digest.new result }
    ensures refused { slice_index state.now 0 ≢ 20 → Refuses digest.old digest.new result }
{
    state[0] == 20 && final_kept::<Ripemd160>(state, digest)
}

/// Does what `nattizhu_save_nonnull` does with a RIPEMD-160 state, and refuses any other.
#[unsafe(no_mangle)]
pub extern "C" fn nattizhu_ripemd160_save(state: &[u8; 113], saved: &mut [u8]) -> bool
    ensures saves { slice_index state.now 0 ≡ 20 → SavesState state.now saved.old saved.new result }
    ensures refused { slice_index state.now 0 ≢ 20 → Refuses saved.old saved.new result }
{
    state[0] == 20 && save_kept::<Ripemd160>(state, saved)
}

/// Does what `nattizhu_load_nonnull` does by RIPEMD-160.
#[unsafe(no_mangle)]
pub extern "C" fn nattizhu_ripemd160_load(state: &mut [u8; 113], saved: &[u8]) -> bool
    ensures { LoadsState 160 saved.now state.old state.new result }
{
    load_saved::<Ripemd160>(saved, state)
}
