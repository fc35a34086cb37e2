//! The buffer, and padded messages block by block.

use ripemd_block::block_api::Ripemd160Core;
use ripemd_block::buffer::Buffer;
use ripemd_block::padding::{block_count, pad_block};

// Whether a buffer of zeros holds so many bytes after each piece.
fn holds_after(pieces: &[(usize, usize)]) -> bool {
    let zeros = [0; 200];
    let mut core = Ripemd160Core::default();
    let mut buffer = Buffer::default();
    for (len, wanted) in pieces {
        buffer.absorb(&mut core, &zeros[..(*len).min(200)]);
        if buffer.get_pos() != *wanted {
            return false;
        }
    }
    true
}

// A buffer holds the bytes after the last whole block.
#[test]
fn buffers(rt: HostRuntime) {
    assert!(rt; holds_after(&[(63, 63), (1, 0), (130, 2)]));
    assert!(rt; holds_after(&[(200, 8), (55, 63), (0, 63), (1, 0), (64, 0), (65, 1)]));
    assert!(rt; Buffer::try_new(&[]).is_some() && Buffer::try_new(&[7; 63]).is_some());
    assert!(rt; Buffer::try_new(&[7; 64]).is_none() && Buffer::try_new(&[7; 65]).is_none());
}

// Whether `len` padded bytes are `count` blocks that end in this length in bits, little-endian.
fn is_padded(len: usize, count: usize, bit_len: u64) -> bool {
    let bytes = [0x61; 120];
    let message = &bytes[..len.min(120)];
    let last = pad_block(message, count.saturating_sub(1)).unwrap_or([0xff; 64]);
    block_count(message) == count
        && last.ends_with(&bit_len.to_le_bytes())
        && pad_block(message, count).is_none()
}

#[test]
fn padding(rt: HostRuntime) {
    for (len, count, bit_len) in [
        (0, 1, 0),
        (55, 1, 0x1b8),
        (56, 2, 0x1c0),
        (63, 2, 0x1f8),
        (64, 2, 0x200),
        (119, 2, 0x3b8),
        (120, 3, 0x3c0),
    ] {
        assert!(rt; is_padded(len, count, bit_len), "{len} bytes");
    }
    let mut block = [0; 64];
    block[0] = 0x80;
    assert!(rt; pad_block(b"", 0) == Some(block) && pad_block(b"", usize::MAX).is_none());
}
