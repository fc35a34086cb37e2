//! Where the outputs of a list go: each to an array, or to bytes, one after another.

ghost use Rattle.std.specs.Prelude.{◌≡◌, ℕ, ◌+◌, ◌*◌, ◌<◌, ◌≤◌, ◌++◌, List, length, map, take, drop, slice_set};
ghost use Rattle.ripemd_batch.specs.Lanes.{chunks};

use ripemd_block::block_api::ByteArray;

// Places of outputs, in order.
pub(crate) trait Places<O: ByteArray> {
    type Element;

    // The bytes at each place.
    ghost list: { List Self.Element → List (List ℕ) };

    fn put(places: &mut [Self::Element], i: usize, output: O)
        requires { i < length (list places.old) }
        ensures { list places.new ≡ slice_set (list places.old) i (O.bytes output) };
}

// An array for each output.
pub(crate) struct Arrays;

impl<O: ByteArray> Places<O> for Arrays {
    type Element = O;

    ghost list = { λ arrays. map O.bytes arrays };

    #[tactic(auto, using(crate::proofs::Placing::putting))]
    fn put(arrays: &mut [O], i: usize, output: O) {
        arrays[i] = output;
    }
}

// Bytes for each output.
pub(crate) struct Bytes;

impl<O: ByteArray> Places<O> for Bytes {
    type Element = u8;

    ghost list = { λ bytes. chunks O.LEN bytes };

    #[tactic(auto, using(crate::proofs::Chunks::chunk_end, crate::proofs::Chunks::put_chunk))]
    fn put(bytes: &mut [u8], i: usize, output: O) {
        write_chunk(bytes, i, output.as_bytes());
    }
}

// Writes chunk `i` of some bytes, all of one size.
#[inline(always)]
fn write_chunk(bytes: &mut [u8], i: usize, chunk: &[u8])
    requires { i * length chunk.now + length chunk.now ≤ length bytes.old }
    ensures { bytes.new ≡ take (i * length chunk.now) bytes.old ++ chunk.now
        ++ drop (i * length chunk.now + length chunk.now) bytes.old }
{
    let start = i * chunk.len();
    bytes[start..start + chunk.len()].copy_from_slice(chunk);
}
