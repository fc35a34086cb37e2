//! Tags by HMAC: those of others, which keys count as one, and which tags are taken.

use crate::bytes::counted;
use crate::digits::{
    Ripemd128Function, Ripemd160Function, Ripemd256Function, Ripemd320Function, is_written,
};
use ripemd::block_api::ByteArray;
use ripemd::digest::BlockDigest;
use ripemd::{BlockHasher, Digest, ResumableFunction, Ripemd160};
use ripemd_mac::Hmac;

// The tag of a text in two pieces, by a copy after the first.
fn tag_of<D: BlockDigest>(key: &[u8], first: &[u8], second: &[u8]) -> D::Output {
    let mut mac = Hmac::<D>::new(key);
    mac.update(first);
    let mut copy = mac.duplicate();
    mac.update(b"another piece");
    copy.update(second);
    copy.finalize()
}

// The tag of a text in two pieces, saved and loaded between them.
fn tag_put_aside<F: ResumableFunction>(
    key: &[u8],
    first: &[u8],
    second: &[u8],
) -> Option<F::Digest> {
    let mut mac = Hmac::<BlockHasher<F>>::new(key);
    mac.update(first);
    let mut loaded = Hmac::<BlockHasher<F>>::load(&mac.save()).ok()?;
    loaded.update(second);
    Some(loaded.finalize())
}

// Whether the text has this tag, wherever it is cut.
fn has_tag<F: ResumableFunction>(key: &[u8], text: &[u8], digits: &str) -> bool {
    for at in [0, 1, 63, 64, 65] {
        let (first, second) = text.split_at(at.min(text.len()));
        let tag = tag_of::<BlockHasher<F>>(key, first, second);
        let Some(same) = tag_put_aside::<F>(key, first, second) else {
            return false;
        };
        if !is_written(tag.as_bytes(), digits) || !is_written(same.as_bytes(), digits) {
            return false;
        }
    }
    true
}

// From RFC 2286: a key for RIPEMD-128 and one for RIPEMD-160, a text, and its tags.
pub(crate) static PUBLISHED: [(&[u8], &[u8], &[u8], &str, &str); 7] = [
    (
        &[0x0b; 16],
        &[0x0b; 20],
        b"Hi There",
        "fbf61f9492aa4bbf81c172e84e0734db",
        "24cb4bd67d20fc1a5d2ed7732dcc39377f0a5668",
    ),
    (
        b"Jefe",
        b"Jefe",
        b"what do ya want for nothing?",
        "875f828862b6b334b427c55f9f7ff09b",
        "dda6c0213a485a9e24f4742064a7f033b43c4069",
    ),
    (
        &[0xaa; 16],
        &[0xaa; 20],
        &[0xdd; 50],
        "09f0b2846d2f543da363cbec8d62a38d",
        "b0b105360de759960ab4f35298e116e295d8e7c1",
    ),
    (
        b"\x01\x02\x03\x04\x05\x06\x07\x08\x09\x0a\x0b\x0c\x0d\x0e\x0f\x10\x11\x12\x13\x14\x15\x16\x17\x18\x19",
        b"\x01\x02\x03\x04\x05\x06\x07\x08\x09\x0a\x0b\x0c\x0d\x0e\x0f\x10\x11\x12\x13\x14\x15\x16\x17\x18\x19",
        &[0xcd; 50],
        "bdbbd7cf03e44b5aa60af815be4d2294",
        "d5ca862f4d21d5e610e18b4cf1beb97a4365ecf4",
    ),
    (
        &[0x0c; 16],
        &[0x0c; 20],
        b"Test With Truncation",
        "e79808f24b25fd031c155f0d551d9a3a",
        "7619693978f91d90539ae786500ff3d8e0518e39",
    ),
    (
        &[0xaa; 80],
        &[0xaa; 80],
        b"Test Using Larger Than Block-Size Key - Hash Key First",
        "dc732928de98104a1f59d373c150acbb",
        "6466ca07ac5eac29e1bd523e5ada7605b791fd8b",
    ),
    (
        &[0xaa; 80],
        &[0xaa; 80],
        b"Test Using Larger Than Block-Size Key and Larger Than One Block-Size Data",
        "5c6bec96793e16d40690c237635f30c5",
        "69ea60798d71616cce5fd0871e23754cd75d5a0a",
    ),
];

#[test]
fn published_tags(rt: HostRuntime) {
    for (key_128, key_160, text, tag_128, tag_160) in &PUBLISHED {
        assert!(rt;
            has_tag::<Ripemd128Function>(key_128, text, tag_128),
            "{tag_128}"
        );
        assert!(rt;
            has_tag::<Ripemd160Function>(key_160, text, tag_160),
            "{tag_160}"
        );
    }
}

// Whether the bytes 0 to 149 have these tags, under keys of 64 and of 65 bytes, which are 1, 2 and
// so on.
fn have_tags<F: ResumableFunction>(of_64: &str, of_65: &str) -> bool {
    let text: [u8; 150] = counted(0);
    has_tag::<F>(&counted::<64>(1), &text, of_64) && has_tag::<F>(&counted::<65>(1), &text, of_65)
}

// Lines of tests/data/tags.txt, which says where they come from.
#[test]
fn tags_of_others(rt: HostRuntime) {
    assert!(rt;
        have_tags::<Ripemd256Function>(
            "be221f0b5f7f241262b6a7c5d9bf30585d415b0e5c1a50a9263136cdce033f69",
            "0f3b7db33db96cbbc3f480e5a6e48683dcf4b9ed2dba5d36466421dd899aa66a"
        )
    );
    assert!(rt;
        have_tags::<Ripemd320Function>(
            "b9d0ee4a02fe6ec700cfb8d93276454348dbfc09b6be303ebe17cc273407fc84477caa5110cd28a3",
            "8a07e205dd28da238f82a501f9eab6a228827eb6f3978ddcb9ebb46a3b8d39499f6456129ba9299e"
        )
    );
}

// Whether both keys give one tag.
fn count_as_one(key: &[u8], other: &[u8]) -> bool {
    tag_of::<Ripemd160>(key, b"Hi There", b"") == tag_of::<Ripemd160>(other, b"Hi There", b"")
}

// A key counts as if zeros filled it to 64 bytes, and a longer one as its digest. One of 64 bytes
// is not hashed.
#[test]
fn keys(rt: HostRuntime) {
    let mut filled = [0; 64];
    filled[..20].copy_from_slice(&[0x0b; 20]);
    assert!(rt; count_as_one(&[0x0b; 20], &filled));
    assert!(rt; count_as_one(&[], &[0; 64]));
    assert!(rt; count_as_one(&[0x0b; 65], &Ripemd160::digest(&[0x0b; 65])));
    assert!(rt; !count_as_one(&[0x0b; 65], &[0x0b; 20]));
    let inner = Ripemd160::new_with_prefix(&[0x0b ^ 0x36; 64]).chain_update(b"Hi There");
    let outer = Ripemd160::new_with_prefix(&[0x0b ^ 0x5c; 64]).chain_update(&inner.finalize());
    assert!(rt; tag_of::<Ripemd160>(&[0x0b; 64], b"Hi There", b"") == outer.finalize());
}

// What `verify` says of a tag of "Hi There", under 20 bytes 0x0b.
fn is_verified(tag: &[u8]) -> bool {
    let mut mac = Hmac::<Ripemd160>::new(&[0x0b; 20]);
    mac.update(b"");
    mac.update(b"Hi");
    mac.update(b" There");
    mac.verify(tag)
}

#[test]
fn verified_tags(rt: HostRuntime) {
    let followed =
        b"\x24\xcb\x4b\xd6\x7d\x20\xfc\x1a\x5d\x2e\xd7\x73\x2d\xcc\x39\x37\x7f\x0a\x56\x68\x00";
    let mut wrong = *followed;
    wrong[19] = 0x67;
    assert!(rt; is_verified(&followed[..20]));
    assert!(rt; !is_verified(&followed[..19]) && !is_verified(followed));
    assert!(rt; !is_verified(&wrong[..20]) && !is_verified(b""));
}
