//! Tags of texts under keys (HMAC, RFC 2104), whole and in pieces. A call that answers false writes nothing.

ghost use Rattle.std.specs.Prelude.{◌≡◌, ◌↔◌, length, IsTrue};
ghost use Rattle.ripemd.specs.Standard.{hash};
ghost use Rattle.ripemd_mac.specs.Hmac.{StandsFor, hmac};
ghost use Rattle.ripemd_c.specs.KeptStates.{FinalizesHmac, InitsHmac, LoadsHmac, SavesHmac, UpdatesHmac, VerifiesHmac, bits_of_hmac};
ghost use Rattle.ripemd_c.specs.Variants.{VerifiesTag, Writes, WritesTag};

use crate::states::{final_kept, init_kept, load_saved, save_kept, update_kept, verify_kept};
use crate::write;
use ripemd::digest::BlockDigest;
use ripemd::{Ripemd128, Ripemd160, Ripemd256, Ripemd320};
use ripemd_mac::Hmac;

/// Writes the tag of the text under the key to `tag`. True exactly if there is such a variant and `tag` has the size
/// of its digests.
#[unsafe(no_mangle)]
pub extern "C" fn nattizhu_hmac_nonnull(
    variant: u32,
    key: &[u8],
    text: &[u8],
    tag: &mut [u8],
) -> bool
    ensures { WritesTag variant key.now text.now tag.old tag.new result }
{
    by_variant!(variant, write_tag(key, text, tag))
}

/// Whether there is such a variant, and `tag` is its whole tag of the text under the key. All bytes of a tag of the
/// right length are compared, whatever they are.
#[unsafe(no_mangle)]
pub extern "C" fn nattizhu_hmac_verify_text_nonnull(
    variant: u32,
    key: &[u8],
    text: &[u8],
    tag: &[u8],
) -> bool
    ensures { VerifiesTag variant key.now text.now tag.now result }
{
    by_variant!(variant, is_tag(key, text, tag))
}

/// Writes the HMAC state of the key and the empty text. False exactly if there is no such variant.
#[unsafe(no_mangle)]
pub extern "C" fn nattizhu_hmac_init_nonnull(
    variant: u32,
    state: &mut [u8; 225],
    key: &[u8],
) -> bool
    ensures { InitsHmac variant key.now state.old state.new result }
{
    by_variant!(variant, init_kept::<Hmac>(key, state))
}

/// Appends bytes to the text. False exactly if `state` holds no HMAC state.
#[unsafe(no_mangle)]
pub extern "C" fn nattizhu_hmac_update_nonnull(state: &mut [u8; 225], bytes: &[u8]) -> bool
    ensures { UpdatesHmac state.old bytes.now state.new result }
{
    by_variant!(bits_of(state), update_kept::<Hmac>(state, bytes))
}

/// Writes the tag of the text so far to `tag`. True exactly if `state` holds an HMAC state and `tag` has the size of
/// its tags.
#[unsafe(no_mangle)]
pub extern "C" fn nattizhu_hmac_final_nonnull(state: &[u8; 225], tag: &mut [u8]) -> bool
    ensures { FinalizesHmac state.now tag.old tag.new result }
{
    by_variant!(bits_of(state), final_kept::<Hmac>(state, tag))
}

/// Whether `tag` is the whole tag of the text so far. False also if `state` holds no HMAC state.
#[unsafe(no_mangle)]
pub extern "C" fn nattizhu_hmac_verify_nonnull(state: &[u8; 225], tag: &[u8]) -> bool
    ensures { VerifiesHmac state.now tag.now result }
{
    by_variant!(bits_of(state), verify_kept::<Hmac>(state, tag))
}

/// Writes the saved form of the HMAC state to `saved`: its inner hash state, and then its outer one. True exactly if
/// `state` holds an HMAC state and `saved` has 144 bytes more than two tags.
#[unsafe(no_mangle)]
pub extern "C" fn nattizhu_hmac_save_nonnull(state: &[u8; 225], saved: &mut [u8]) -> bool
    ensures { SavesHmac state.now saved.old saved.new result }
{
    by_variant!(bits_of(state), save_kept::<Hmac>(state, saved))
}

/// Writes the HMAC state of the variant with the saved form `saved`. False exactly if there is no such variant or
/// state.
#[unsafe(no_mangle)]
pub extern "C" fn nattizhu_hmac_load_nonnull(
    variant: u32,
    state: &mut [u8; 225],
    saved: &[u8],
) -> bool
    ensures { LoadsHmac variant saved.now state.old state.new result }
{
    by_variant!(variant, load_saved::<Hmac>(saved, state))
}

// The bits of the tags of the variant that a state names.
#[inline(always)]
fn bits_of(state: &[u8; 225]) -> u32
    ensures { result ≡ bits_of_hmac state.now }
{
    8 * state[0].saturating_sub(128) as u32
}

fn write_tag<D: BlockDigest>(key: &[u8], text: &[u8], tag: &mut [u8]) -> bool
    ensures { Writes (length tag.old ≡ D.OUTPUT_SIZE) (hmac (hash D.start D.step D.output) key.now text.now)
        tag.old tag.new result }
{
    write(D::output_bytes(&mac_of::<D>(key, text).finalize()), tag)
}

fn is_tag<D: BlockDigest>(key: &[u8], text: &[u8], tag: &[u8]) -> bool
    ensures { IsTrue result ↔ (tag.now ≡ hmac (hash D.start D.step D.output) key.now text.now) }
{
    mac_of::<D>(key, text).verify(tag)
}

#[inline(always)]
fn mac_of<D: BlockDigest>(key: &[u8], text: &[u8]) -> Hmac<D>
    ensures { StandsFor D.start D.step D.output key.now text.now result }
{
    let mut mac = Hmac::<D>::new(key);
    mac.update(text);
    mac
}
