//! What several tests expect, written in hexadecimal.

use hex::FromHex;
use ripemd::Digest;
pub use ripemd::block_api::{
    Ripemd128Function, Ripemd160Function, Ripemd256Function, Ripemd320Function,
};

/// Test vectors of one hash function. The authors published the first five digests, and the start words.
pub struct Vectors {
    /// Of no bytes, of "a" and of "abc".
    pub empty: &'static str,
    pub a: &'static str,
    pub abc: &'static str,
    /// Of `TWO_BLOCKS`.
    pub two_blocks: &'static str,
    /// Of a million times "a".
    pub million: &'static str,
    /// Of the bytes 0 to 63, from tests/data/digests-128.txt and the like.
    pub counted: &'static str,
    /// The bytes of the start words.
    pub start: &'static str,
    /// From the start words and the last count with the tail "a", by a textbook program in Python, written apart from
    /// this code.
    pub last_count: &'static str,
    /// The key by three rounds of the password of bytes 1 to 8 and the salt of bytes 0 to 7, from tests/data/keys.txt.
    pub key: &'static str,
}

/// A message that needs a second block.
pub const TWO_BLOCKS: &[u8; 56] = b"abcdbcdecdefdefgefghfghighijhijkijkljklmklmnlmnomnopnopq";

pub static OF_128: Vectors = Vectors {
    empty: "cdf26213a150dc3ecb610f18f6b38b46",
    a: "86be7afa339d0fc7cfc785e72f578d33",
    abc: "c14a12199c66e4ba84636b0f69144c77",
    two_blocks: "a1aa0689d0fafa2ddc22e88b49133a06",
    million: "4a7f5723f954eba1216c9d8f6320431f",
    counted: "406c6ec2643ccef38f964864d12c9191",
    start: "0123456789abcdeffedcba9876543210",
    last_count: "e60fc1420090357f339f3caef66ec61a",
    key: "756433ef95e294e6cbadabc3e806b755efe460c8400a31cc4f5f2d2337ba651cc7a2653769cfdc01b288c9e76e8fba4aa3d0e5d395c9ee",
};

pub static OF_160: Vectors = Vectors {
    empty: "9c1185a5c5e9fc54612808977ee8f548b2258d31",
    a: "0bdc9d2d256b3ee9daae347be6f4dc835a467ffe",
    abc: "8eb208f7e05d987a9b044a8e98c6b087f15a0bfc",
    two_blocks: "12a053384a9c0c88e405a06c27dcf49ada62eb2b",
    million: "52783243c1697bdbe16d37f97f68f08325dc1528",
    counted: "2581f5e9f957b44b0fa24d31996de47409dd1e0f",
    start: "0123456789abcdeffedcba9876543210f0e1d2c3",
    last_count: "c53fa47b3c78560f9a6e4a086a827a88de779ff8",
    key: "95948057310ca113412571efb203bbeedcc2555d24d45a8c3cd021a6f714a324fcfa312ef638b48ac59b1e5a0becf09f5191a002478e944bc587eb85313e628d26cca0",
};

pub static OF_256: Vectors = Vectors {
    empty: "02ba4c4e5f8ecd1877fc52d64d30e37a2d9774fb1e5d026380ae0168e3c5522d",
    a: "f9333e45d857f5d90a91bab70a1eba0cfb1be4b0783c9acfcd883a9134692925",
    abc: "afbd6e228b9d8cbbcef5ca2d03e6dba10ac0bc7dcbe4680e1e42d2e975459b65",
    two_blocks: "3843045583aac6c8c8d9128573e7a9809afb2a0f34ccc36ea9e72f16f6368e3f",
    million: "ac953744e10e31514c150d4d8d7b677342e33399788296e43ae4850ce4f97978",
    counted: "f4fff1bbd2086bbe13a46a8f281cbcc725d882bb783a8b2fbade2ec969d4343d",
    start: "0123456789abcdeffedcba98765432101032547698badcfeefcdab8967452301",
    last_count: "7f29c9f35ab4e82a13935f865ad3909619aeb6da883111cdd7d41ceb5d76caeb",
    key: "502a57f5ac0d9e9446c9b458335e114bab57d6e2c74f545c8bddb7e96b4d6c6d772eff31291b31a953748d87abf2c49626552dae3a53cb80cf4fce577b4df87e856cc370865b8228cd5fce2af02ff71f28bb11a25ec968863b7e0e27ca9efdca7551c7451a389f",
};

pub static OF_320: Vectors = Vectors {
    empty: "22d65d5661536cdc75c1fdf5c6de7b41b9f27325ebc61e8557177d705a0ec880151c3a32a00899b8",
    a: "ce78850638f92658a5a585097579926dda667a5716562cfcf6fbe77f63542f99b04705d6970dff5d",
    abc: "de4c01b3054f8930a79d09ae738e92301e5a17085beffdc1b8d116713e74f82fa942d64cdbc4682d",
    two_blocks: "d034a7950cf722021ba4b84df769a5de2060e259df4c9bb4a4268c0e935bbc7470a969c9d072a1ac",
    million: "bdee37f4371e20646b8b0d862dda16292ae36f40965e8c8509e63d1dbddecc503e2b63eb9245bb66",
    counted: "8da29de9049df2855cf8f26594c03275b9a216cca012a8245818bb63b0ee6e4ab2dc069b393270cf",
    start: "0123456789abcdeffedcba9876543210f0e1d2c31032547698badcfeefcdab89674523010f1e2d3c",
    last_count: "eaa7ae2979fcbd7051d7f7510577114b8b582356cfe2b9b829a0bad999845834cf83300bf8ff71fa",
    key: "9dc5a9d5e7ff46f27008f03bf5c750a4cfb345455df03cc0ea7d19d0376bd99f817af1f92e27863780a8da8aa5ccbd5751973eb4bd91c5d53d3fdb08bb9c730398622602e15843811faa7a685210ab659006de311224f699dd3cfec2fe2cd3984f66f1cb9a2c52be9672f7b84817d152ff7b12c3a5cab6091d78e5322098d1",
};

/// What OpenSSL and other implementations agree on for "Hello world!".
pub const HELLO_160: &str = "7f772647d88750add82d8e1a7a3e5c0902a346a3";

pub const HELLO_320: &str =
    "f1c1c231d301abcf2d7daae0269ff3e7bc68e623ad723aa068d316b056d26b7d1bb6f0cc0f28336d";

/// Whether the bytes are these digits in lower-case hexadecimal.
pub fn is_written(bytes: &[u8], digits: &str) -> bool {
    let mut room = [0; 256];
    let Some(written) = room.get_mut(..digits.len()) else {
        return false;
    };
    hex::encode_to_slice(bytes, written).is_ok() && *written == *digits.as_bytes()
}

/// Whether the digests, one after another, are these digits.
pub fn are_written<D: Digest>(digests: &[D::Output], wanted: &[&str]) -> bool {
    for (digest, digits) in digests.iter().zip(wanted) {
        if !is_written(D::output_bytes(digest), digits) {
            return false;
        }
    }
    digests.len() == wanted.len()
}

/// The bytes of these digits, or zeros if they are not of `N` bytes.
pub fn bytes_of<const N: usize>(digits: &str) -> [u8; N] {
    <[u8; N] as FromHex>::from_hex(digits).unwrap_or([0; N])
}

/// Asserts each of these facts for the four block functions, with the vectors it names.
#[macro_export]
macro_rules! assert_each {
    ($rt:expr; of $function:ident, $vectors:ident; $($fact:ident($($vector:ident),*)),+) => {
        $(
            assert!($rt;
                $fact::<$crate::digits::$function>($($crate::digits::$vectors.$vector),*),
                "{} of {}", stringify!($fact), stringify!($vectors)
            );
        )+
    };
    ($rt:expr; $($facts:tt)+) => {
        $crate::assert_each!($rt; of Ripemd128Function, OF_128; $($facts)+);
        $crate::assert_each!($rt; of Ripemd160Function, OF_160; $($facts)+);
        $crate::assert_each!($rt; of Ripemd256Function, OF_256; $($facts)+);
        $crate::assert_each!($rt; of Ripemd320Function, OF_320; $($facts)+);
    };
}
