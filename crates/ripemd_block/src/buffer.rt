//! The tail of a message: the bytes after its last whole block.

ghost use Rattle.std.specs.Prelude.{◌≡◌, ℕ, ◌+◌, ◌<◌, ◌≤◌, ◌↔◌, List, [], ◌∷◌, ◌++◌, length, take, drop, IfSome, SomeIff, IsSome};
ghost use Rattle.std.specs.Option.{option_to_list};
ghost use Rattle.ripemd_block.specs.Standard.{block_size, length_place, with_padding, blocks, partial_block};
ghost use Rattle.ripemd_block.specs.States.{IsTail};

use crate::arrays::write_short;
pub use crate::padding::Padded;
use crate::padding::{last_blocks, whole_blocks};
use crate::traits::UpdateCore;
use std::marker::Model;
use std::slice::from_ref;

/// Holds 0 to 63 bytes. Contracts see them as a list.
#[derive(Drop)]
pub struct Buffer {
    bytes: [u8; 64],
    len: usize,
}

impl Model for Buffer {
    ghost Value = { List ℕ };

    ghost view = { λ b. take b.len b.bytes };

    ghost invariant = { λ b. b.len < 64 };
}

impl Default for Buffer {
    ghost is_default = { λ b. b ≡ [] };

    fn default() -> Buffer {
        Buffer {
            bytes: [0; 64],
            len: 0,
        }
    }
}

impl Buffer {
    /// A buffer of these bytes; `None` exactly if there are 64 or more.
    pub fn try_new(bytes: &[u8]) -> Option<Buffer>
        ensures value { SomeIff result (length bytes.now < block_size) bytes.now }
        ensures valid { IfSome result IsTail }
    {
        Buffer::try_front(bytes, bytes.len())
    }

    /// A buffer of the first `len` of `bytes`; `None` exactly if `len` is 64 or more, or `bytes` has fewer than `len`
    /// or more than 64. It copies all of `bytes`: this is faster if the compiler knows their number.
    #[inline(always)]
    pub fn try_front(bytes: &[u8], len: usize) -> Option<Buffer>
        ensures value { SomeIff result ((len < block_size) × (len ≤ length bytes.now)
            × (length bytes.now ≤ block_size)) (take len bytes.now) }
        ensures valid { IfSome result IsTail }
    {
        if len >= 64 || len > bytes.len() || bytes.len() > 64 {
            return None;
        }
        bytes_in_range(&bytes[..len]);
        let mut all = [0; 64];
        put_front(&mut all, bytes);
        Some(Buffer { bytes: all, len })
    }

    /// A copy of the buffer.
    pub fn duplicate(&self) -> Buffer
        ensures { result ≡ self.now }
    {
        Buffer {
            bytes: self.bytes,
            len: self.len,
        }
    }

    /// The number of bytes held: 0 to 63.
    pub fn get_pos(&self) -> usize
        ensures length { result ≡ length self.now }
        ensures small { result < block_size }
    {
        self.len
    }

    /// The bytes held.
    pub fn get_data(&self) -> &[u8]
        ensures bytes { result.now ≡ self.now }
        ensures small { length result.now < block_size }
        ensures valid { IsTail self.now }
    {
        let data = &self.bytes[..self.len];
        bytes_in_range(data);
        data
    }

    /// Appends `bytes`. The core takes in the whole blocks of all bytes, in order, and the buffer keeps the 0 to 63
    /// bytes after them.
    pub fn absorb<C: UpdateCore>(&mut self, core: &mut C, bytes: &[u8])
        ensures core { core.new ≡ C.after core.old (blocks (self.old ++ bytes.now)) }
        ensures buffer { self.new ≡ partial_block (self.old ++ bytes.now) }
        ensures valid_old { C.is_core core.old }
        ensures valid_new { C.is_core core.new }
        ensures valid_tail_old { IsTail self.old }
        ensures valid_tail_new { IsTail self.new }
    {
        bytes_in_range(self.get_data());
        let mut len = self.len;
        let mut rest = bytes;
        if bytes.len() < 64 - len {
            // Proof only: no blocks change nothing.
            core.update_blocks(&[]);
        } else {
            rest = take_blocks(core, &self.bytes, len, bytes);
            len = 0;
        }
        put_behind(&mut self.bytes, len, rest);
        self.len = len + rest.len();
        bytes_in_range(self.get_data());
    }

    /// The last one or two blocks of a message of `bit_len` bits, of which it holds the tail, padded as by
    /// [`last_blocks`] (RFC 1320, sections 3.1 and 3.2). Afterwards the buffer is empty.
    pub fn len64_padding_le(&mut self, bit_len: u64) -> Padded
        ensures value { result.first ∷ option_to_list result.second
            ≡ blocks (with_padding self.old bit_len) }
        ensures second { IsSome result.second ↔ (length_place ≤ length self.old) }
        ensures empty { self.new ≡ [] }
        ensures valid { IsTail self.old }
    {
        let mut zeros = [[0; 64]; 2];
        let last = last_blocks(self.get_data(), bit_len, &mut zeros);
        let padded = Padded {
            first: last[0],
            second: last.get(1).copied(),
        };
        self.len = 0;
        padded
    }
}

// Takes the whole blocks, at least one, of a tail (the first `len` bytes of `front`) and then `bytes` into the core.
// Gives the 0 to 63 bytes after them.
#[inline(always)]
fn take_blocks<'a, C: UpdateCore>(
    core: &mut C,
    front: &[u8],
    len: usize,
    bytes: &'a [u8],
) -> &'a [u8]
    requires short { len < block_size }
    requires front { (len ≤ length front.now) × (length front.now ≤ block_size) }
    requires filled { block_size ≤ len + length bytes.now }
    ensures core { core.new ≡ C.after core.old (blocks (take len front.now ++ bytes.now)) }
    ensures rest { result.now ≡ partial_block (take len front.now ++ bytes.now) }
    ensures valid_old { C.is_core core.old }
    ensures valid_new { C.is_core core.new }
    ensures valid_rest { IsTail result.now }
{
    let mut behind = bytes;
    if len > 0 {
        let mut block = [0; 64];
        behind = fill_block(&mut block, front, len, bytes);
        core.update_blocks(from_ref(&block));
    }
    let (whole, rest) = whole_blocks(behind);
    core.update_blocks(whole);
    bytes_in_range(rest);
    rest
}

/// Fills a block with the first `len` bytes of `front` and then the first of `bytes`, and gives the rest of these. It
/// copies all of `front`, as `try_front` does.
#[inline(always)]
pub fn fill_block<'a>(block: &mut [u8; 64], front: &[u8], len: usize, bytes: &'a [u8]) -> &'a [u8]
    requires short { len < block_size }
    requires front { (len ≤ length front.now) × (length front.now ≤ block_size) }
    requires filled { block_size ≤ len + length bytes.now }
    ensures filled { block.new ∷ blocks result.now ≡ blocks (take len front.now ++ bytes.now) }
    ensures rest { partial_block result.now ≡ partial_block (take len front.now ++ bytes.now) }
{
    let (first, behind) = bytes.split_at(64 - len);
    put_front(block, front);
    put_behind(block, len, first);
    behind
}

#[inline(always)]
fn put_front(block: &mut [u8; 64], bytes: &[u8])
    requires { length bytes.now ≤ block_size }
    ensures { block.new ≡ bytes.now ++ drop (length bytes.now) block.old }
{
    let (front, _) = block.split_at_mut(bytes.len());
    front.copy_from_slice(bytes);
}

// Proof only: bytes are below 256.
fn bytes_in_range(tail: &[u8])
    requires { length tail.now < block_size }
    ensures { IsTail tail.now }
{}

fn put_behind(block: &mut [u8; 64], len: usize, bytes: &[u8])
    requires { len + length bytes.now ≤ block_size }
    ensures { block.new
        ≡ take len block.old ++ bytes.now ++ drop (len + length bytes.now) block.old }
{
    write_short(&mut block[len..], bytes);
}
