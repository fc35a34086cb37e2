//! Bytes that count up, sums of bytes, values in turn, and the ends of saved hashers.

ghost use Rattle.std.specs.Prelude.{◌≡◌, ◌+◌, ◌%◌};
ghost use Rattle.std.specs.List.{fold};

/// The sum of a number and bytes, modulo 256.
pub fn sum_from(start: u8, bytes: &[u8]) -> u8
    ensures { result ≡ fold (λ sum byte. (sum + byte) % 256) start bytes.now }
{
    let mut sum = start;
    for byte in bytes {
        sum = sum.wrapping_add(*byte);
    }
    sum
}

/// `N` bytes that count up from `first`, modulo 256.
pub fn counted<const N: usize>(first: u8) -> [u8; N] {
    let mut bytes = [0; N];
    let mut next = first;
    for byte in bytes.iter_mut() {
        *byte = next;
        next = next.wrapping_add(1);
    }
    bytes
}

/// Nine values, which are these two in turn.
pub fn in_turn<T: Copy>(x: T, y: T) -> [T; 9] {
    [x, y, x, y, x, y, x, y, x]
}

/// At most 63 bytes, filled with zeros.
pub fn tail_of(bytes: &[u8]) -> [u8; 63] {
    let mut tail = [0; 63];
    if bytes.len() <= 63 {
        tail[..bytes.len()].copy_from_slice(bytes);
    }
    tail
}

/// A saved hasher after its words: count, length of the tail, tail.
pub fn rest_of(count: u64, len: u8, tail: &[u8; 63]) -> [u8; 72] {
    let mut rest = [0; 72];
    rest[..8].copy_from_slice(&count.to_le_bytes());
    rest[8] = len;
    rest[9..].copy_from_slice(tail);
    rest
}
