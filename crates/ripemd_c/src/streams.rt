//! Digests of messages that come in pieces. A call that answers false writes nothing.

ghost use Rattle.std.specs.Prelude.{◌≡◌};
ghost use Rattle.ripemd_c.specs.KeptStates.{FinalizesState, InitsState, LoadsState, SavesState, UpdatesState, bits_of_state};

use crate::states::{final_kept, init_kept, load_saved, save_kept, update_kept};
use ripemd::{Ripemd128, Ripemd160, Ripemd256, Ripemd320};

/// Writes the hash state of the empty message. False exactly if there is no such variant.
#[unsafe(no_mangle)]
pub extern "C" fn nattizhu_init(variant: u32, state: &mut [u8; 113]) -> bool
    ensures { InitsState variant state.old state.new result }
{
    by_variant!(variant, init_kept(&[], state))
}

/// Appends bytes to the message. False exactly if `state` holds no hash state.
#[unsafe(no_mangle)]
pub extern "C" fn nattizhu_update_nonnull(state: &mut [u8; 113], bytes: &[u8]) -> bool
    ensures { UpdatesState state.old bytes.now state.new result }
{
    by_variant!(bits_of(state), update_kept(state, bytes))
}

/// Writes the digest of the message so far to `digest`. True exactly if `state` holds a hash state and `digest` has
/// the size of its digests.
#[unsafe(no_mangle)]
pub extern "C" fn nattizhu_final_nonnull(state: &[u8; 113], digest: &mut [u8]) -> bool
    ensures { FinalizesState state.now digest.old digest.new result }
{
    by_variant!(bits_of(state), final_kept(state, digest))
}

/// Writes the saved form of the hash state to `saved`: its core, the length of the tail, the tail and zeros. True
/// exactly if `state` holds a hash state and `saved` has 72 bytes more than a digest.
#[unsafe(no_mangle)]
pub extern "C" fn nattizhu_save_nonnull(state: &[u8; 113], saved: &mut [u8]) -> bool
    ensures { SavesState state.now saved.old saved.new result }
{
    by_variant!(bits_of(state), save_kept(state, saved))
}

/// Writes the hash state of the variant with the saved form `saved`. False exactly if there is no such variant or
/// state.
#[unsafe(no_mangle)]
pub extern "C" fn nattizhu_load_nonnull(variant: u32, state: &mut [u8; 113], saved: &[u8]) -> bool
    ensures { LoadsState variant saved.now state.old state.new result }
{
    by_variant!(variant, load_saved(saved, state))
}

// The bits of the digests of the variant that a state names.
#[inline(always)]
fn bits_of(state: &[u8; 113]) -> u32
    ensures { result ≡ bits_of_state state.now }
{
    8 * state[0] as u32
}
