//! Arrays of bytes, of any length, and words as bytes.

ghost use Rattle.std.specs.Prelude.{◌≡◌, ℕ, ◌+◌, ◌*◌, ◌^◌, ◌<◌, ◌≤◌, ◌↔◌, List, ◌++◌, length, drop, replicate, IfSome, IsSome};
ghost use Rattle.std.specs.List.{All};
ghost use Rattle.ripemd_block.specs.Standard.{word_bytes, eight_bytes};

/// An array of bytes, `[u8; N]` for any `N`.
pub trait ByteArray: Copy {
    ghost bytes: { Self → List ℕ };

    ghost same_array: { (a b : Self) → bytes a ≡ bytes b → a ≡ b };

    ghost LEN: { ℕ };

    /// The number of bytes.
    const LEN: usize;

    /// The array of zero bytes.
    fn zeros() -> Self
        ensures { bytes result ≡ replicate LEN 0 };

    /// The array of these bytes; `None` unless they are `LEN` bytes.
    fn from_slice(slice: &[u8]) -> Option<Self>
        ensures same { IfSome result (λ array. bytes array ≡ slice.now) }
        ensures some { IsSome result ↔ (length slice.now ≡ LEN) };

    /// The array of `front` and then `back`; `None` unless together they are `LEN` bytes.
    fn from_slices(front: &[u8], back: &[u8]) -> Option<Self>
        ensures same { IfSome result (λ array. bytes array ≡ front.now ++ back.now) }
        ensures some { IsSome result ↔ (length front.now + length back.now ≡ LEN) };

    /// The bytes of the array.
    fn as_bytes(&self) -> &[u8]
        ensures bytes { result.now ≡ bytes self.now }
        ensures size { length result.now ≡ LEN };
}

impl<const N: usize> ByteArray for [u8; N] {
    ghost bytes = { λ bytes. bytes };

    ghost same_array = { λ a b same. same };

    ghost LEN = { N };

    const LEN: usize = N;

    fn zeros() -> [u8; N] {
        [0; N]
    }

    fn from_slice(slice: &[u8]) -> Option<[u8; N]> {
        Self::from_slices(slice, &[])
    }

    fn from_slices(front: &[u8], back: &[u8]) -> Option<[u8; N]> {
        if N < front.len() || N - front.len() != back.len() {
            return None;
        }
        let mut array = [0; N];
        write_slices(front, back, &mut array);
        Some(array)
    }

    fn as_bytes(&self) -> &[u8] {
        self
    }
}

/// Writes at most 64 bytes to the front of `place`, which has room, without a call of `memcpy`, which takes longer.
#[inline(always)]
pub fn write_short(place: &mut [u8], bytes: &[u8])
    requires few { length bytes.now ≤ 64 }
    requires room { length bytes.now ≤ length place.old }
    ensures { place.new ≡ bytes.now ++ drop (length bytes.now) place.old }
{
    let len = bytes.len();
    if len == 1 {
        place[0] = bytes[0];
    } else if len < 8 {
        if len >= 4 {
            write_ends::<4>(place, bytes);
        } else if len >= 2 {
            write_ends::<2>(place, bytes);
        }
    } else if len >= 32 {
        write_ends::<32>(place, bytes);
    } else if len >= 16 {
        write_ends::<16>(place, bytes);
    } else {
        write_ends::<8>(place, bytes);
    }
}

// Writes `N` to `2 * N` bytes as two arrays, which may overlap. The front one comes last, so that one store has it all:
// a load of bytes from two recent stores waits long.
#[inline(always)]
fn write_ends<const N: usize>(place: &mut [u8], bytes: &[u8])
    requires few { (N ≤ length bytes.now) × (length bytes.now ≤ 2 * N) }
    requires room { length bytes.now ≤ length place.old }
    ensures { place.new ≡ bytes.now ++ drop (length bytes.now) place.old }
{
    let len = bytes.len();
    write_array::<N>(&mut place[len - N..len], &bytes[len - N..]);
    write_array::<N>(&mut place[..N], &bytes[..N]);
}

// Writes `N` bytes as an array: the compiler copies it without checking for overlap.
#[inline(always)]
fn write_array<const N: usize>(place: &mut [u8], bytes: &[u8])
    requires { (length place.old ≡ N) × (length bytes.now ≡ N) }
    ensures { place.new ≡ bytes.now }
{
    if let (Some(to), Some(from)) = (place.as_mut_array::<N>(), bytes.as_array::<N>()) {
        *to = *from;
    }
}

fn write_slices(front: &[u8], back: &[u8], out: &mut [u8])
    requires { length out.old ≡ length front.now + length back.now }
    ensures { out.new ≡ front.now ++ back.now }
{
    let (first, last) = out.split_at_mut(front.len());
    first.copy_from_slice(front);
    last.copy_from_slice(back);
}

// Writes words as bytes, least significant first.
pub(crate) fn write_words(words: &[u32], out: &mut [u8])
    requires { length out.old ≡ 4 * length words.now }
    ensures bytes { out.new ≡ word_bytes words.now }
    ensures fit { All (λ w. w < 2 ^ 32) words.now }
{
    for (i, word) in words.iter().enumerate() {
        out[4 * i..4 * i + 4].copy_from_slice(&word.to_le_bytes());
    }
}

pub(crate) fn read_words(bytes: &[u8], words: &mut [u32])
    requires { length bytes.now ≡ 4 * length words.old }
    ensures bytes { word_bytes words.new ≡ bytes.now }
    ensures size { length words.new ≡ length words.old }
    ensures fit { All (λ w. w < 2 ^ 32) words.new }
{
    for (i, word) in words.iter_mut().enumerate() {
        *word = u32::from_le_bytes([
            bytes[4 * i],
            bytes[4 * i + 1],
            bytes[4 * i + 2],
            bytes[4 * i + 3],
        ]);
    }
    words_in_range(words);
}

// Proof only: words are below 2^32.
fn words_in_range(words: &[u32])
    ensures { All (λ w. w < 2 ^ 32) words.now }
{}

pub(crate) fn read_count(bytes: &[u8]) -> u64
    requires { length bytes.now ≡ 8 }
    ensures { eight_bytes result ≡ bytes.now }
{
    let mut count = [0; 8];
    count.copy_from_slice(bytes);
    u64::from_le_bytes(count)
}
