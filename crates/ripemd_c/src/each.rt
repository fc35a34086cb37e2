//! Digests of many messages, and their tags under one key (RFC 2104): of records of one size that lie one after
//! another, and of a list of messages. `words` is how many words the processor's vectors have; only the time
//! depends on it. A call that answers false writes nothing.

ghost use Rattle.std.specs.Prelude.{◌≡◌, ◌↔◌, ◌+◌, ◌*◌, ◌^◌, ◌<◌, ◌≤◌, length, IsTrue};
ghost use Rattle.std.specs.List.{flat_map};
ghost use Rattle.ripemd.specs.Standard.{hash};
ghost use Rattle.ripemd_mac.specs.Hmac.{hmac};
ghost use Rattle.ripemd_batch.specs.Lanes.{made_by, targets};
ghost use Rattle.ripemd_c.specs.Records.{FillsEach, FillsList, record_at, records, WritesDigests, WritesEachDigest, WritesEachTag, WritesTags};

use ripemd::block_api::ByteArray;
use ripemd::digest::OutputSizeUser;
use ripemd::{Digest, Ripemd128, Ripemd160, Ripemd256, Ripemd320};
use ripemd_batch::pbkdf2::digest_size;
use ripemd_batch::{BatchDigest, ListHasher};

// The most records of a list.
const RECORDS_AT_ONCE: usize = 32;

/// Writes the digests of records, `size` bytes each, to `digests`. Records and digests lie one after another. True
/// exactly if there is such a variant, `digests` is a whole number of its digests, and `bytes` as many records.
#[unsafe(no_mangle)]
pub extern "C" fn nattizhu_each_nonnull(
    variant: u32,
    words: u32,
    bytes: &[u8],
    size: usize,
    digests: &mut [u8],
) -> bool
    ensures { WritesEachDigest variant bytes.now size digests.old digests.new result }
{
    by_variant!(
        variant,
        write_each(ListHasher::new(), words, bytes, size, digests)
    )
}

/// Writes the tags of records under the key, of any length, as `nattizhu_each_nonnull` writes digests.
#[unsafe(no_mangle)]
pub extern "C" fn nattizhu_hmac_each_nonnull(
    variant: u32,
    words: u32,
    key: &[u8],
    bytes: &[u8],
    size: usize,
    tags: &mut [u8],
) -> bool
    ensures { WritesEachTag variant key.now bytes.now size tags.old tags.new result }
{
    by_variant!(
        variant,
        write_each(ListHasher::keyed(key), words, bytes, size, tags)
    )
}

/// Writes the digests of messages, one after another to `digests`. True exactly if there is such a variant, and
/// `digests` is as long as all of them.
#[unsafe(no_mangle)]
pub extern "C" fn nattizhu_list_nonnull(
    variant: u32,
    words: u32,
    messages: &[&[u8]],
    digests: &mut [u8],
) -> bool
    ensures { WritesDigests variant (targets messages.now) digests.old digests.new result }
{
    by_variant!(
        variant,
        write_list(ListHasher::new(), words, messages, digests)
    )
}

/// Writes the tags of texts under the key, of any length, as `nattizhu_list_nonnull` writes digests.
#[unsafe(no_mangle)]
pub extern "C" fn nattizhu_hmac_list_nonnull(
    variant: u32,
    words: u32,
    key: &[u8],
    texts: &[&[u8]],
    tags: &mut [u8],
) -> bool
    ensures { WritesTags variant key.now (targets texts.now) tags.old tags.new result }
{
    by_variant!(
        variant,
        write_list(ListHasher::keyed(key), words, texts, tags)
    )
}

// Writes the output of each record, if the lengths fit.
#[inline(always)]
fn write_each<D: BatchDigest>(
    hasher: ListHasher<D>,
    words: u32,
    bytes: &[u8],
    size: usize,
    outputs: &mut [u8],
) -> bool
    ensures { FillsEach D.OUTPUT_SIZE (made_by D.step D.output hasher) bytes.now size
        outputs.old outputs.new result }
{
    let width = digest_size::<D>();
    let count = outputs.len() / width;
    if !is_product(outputs.len(), count, width) || !is_product(bytes.len(), count, size) {
        return false;
    }
    let hasher = hasher.in_vectors_of(words);
    let mut messages: [&[u8]; RECORDS_AT_ONCE] = [&[]; RECORDS_AT_ONCE];
    write_records(&hasher, bytes, size, 0, count, &mut messages, outputs);
    true
}

// Writes the output of each message, if there is room for all.
#[inline(always)]
fn write_list<D: BatchDigest>(
    hasher: ListHasher<D>,
    words: u32,
    messages: &[&[u8]],
    outputs: &mut [u8],
) -> bool
    ensures { FillsList D.OUTPUT_SIZE (made_by D.step D.output hasher) (targets messages.now)
        outputs.old outputs.new result }
{
    if !is_product(outputs.len(), messages.len(), digest_size::<D>()) {
        return false;
    }
    hasher.in_vectors_of(words).write_joined(messages, outputs);
    true
}

pub(crate) fn is_product(len: usize, count: usize, size: usize) -> bool
    ensures { IsTrue result ↔ (len ≡ count * size) }
{
    count.checked_mul(size) == Some(len)
}

// Writes the outputs of records from `at` on. More than a group are halved, so that nothing is allocated.
fn write_records<'a, D: BatchDigest>(
    hasher: &ListHasher<D>,
    bytes: &'a [u8],
    size: usize,
    at: usize,
    count: usize,
    messages: &mut [&'a [u8]; RECORDS_AT_ONCE],
    outputs: &mut [u8],
)
    requires fits { at + count < 2 ^ 64 }
    requires length { (at + count) * size ≤ length bytes.now }
    requires room { length outputs.old ≡ count * D.Output.LEN }
    ensures { outputs.new ≡ flat_map (made_by D.step D.output hasher.now) (records at count size bytes.now) }
{
    if count > RECORDS_AT_ONCE {
        let half = half_of(count);
        let rest = count - half;
        let (front, back) = outputs.split_at_mut(half * <D::Output as ByteArray>::LEN);
        write_records(hasher, bytes, size, at, half, messages, front);
        write_records(hasher, bytes, size, at + half, rest, messages, back);
        return;
    }
    let places = &mut messages[..count];
    put_records(bytes, size, at, places);
    hasher.write_joined(places, outputs);
}

// Half of them, rounded up to whole eights, which are hashed at once.
#[inline(always)]
fn half_of(count: usize) -> usize
    requires { 8 < count }
    ensures { (0 < result) × (result < count) }
{
    count.div_ceil(16) * 8
}

// Puts the records from `at` on into these places.
#[inline(always)]
fn put_records<'a>(bytes: &'a [u8], size: usize, at: usize, places: &mut [&'a [u8]])
    requires fits { at + length places.old < 2 ^ 64 }
    requires length { (at + length places.old) * size ≤ length bytes.now }
    ensures { targets places.new ≡ records at (length places.old) size bytes.now }
{
    for j in 0..places.len() {
        places[j] = record_slice(bytes, size, at + j);
    }
}

// Record `i`.
#[inline(always)]
fn record_slice<'a>(bytes: &'a [u8], size: usize, i: usize) -> &'a [u8]
    requires { i * size + size ≤ length bytes.now }
    ensures { result.now ≡ record_at size bytes.now i }
{
    let start = i * size;
    &bytes[start..start + size]
}
