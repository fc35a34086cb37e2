//! Lines: what they say, and how they are written.

ghost use Rattle.std.specs.Prelude.{◌≡◌};

/// A hash that a line can name.
#[derive(Clone, Copy, PartialEq, Eq, Debug)]
pub enum Variant {
    /// RIPEMD-128.
    R128,
    /// RIPEMD-160.
    R160,
    /// RIPEMD-256.
    R256,
    /// RIPEMD-320.
    R320,
}

impl Variant {
    ghost use Rattle.ripemd_files.specs.Lines.{label_of, size_of};

    /// The length of a digest in bytes.
    pub fn digest_size(self) -> usize
        ensures { result ≡ size_of self }
    {
        match self {
            Variant::R128 => 16,
            Variant::R160 => 20,
            Variant::R256 => 32,
            Variant::R320 => 40,
        }
    }

    /// What begins a tagged line, as BSD has it.
    pub fn label(self) -> &'static str
        ensures { result.now ≡ label_of self }
    {
        match self {
            Variant::R128 => "RMD128",
            Variant::R160 => "RMD160",
            Variant::R256 => "RMD256",
            Variant::R320 => "RMD320",
        }
    }
}

/// What a line says: the digest of a file.
#[derive(PartialEq, Eq, Debug, Drop)]
pub struct Line {
    /// The hash.
    pub variant: Variant,
    /// The digest.
    pub digest: Vec<u8>,
    /// The name of the file, which need not be text.
    pub name: Vec<u8>,
}

/// How a line is written.
#[derive(Clone, Copy, PartialEq, Eq, Debug)]
pub enum Form {
    /// `HEX  NAME`.
    Text,
    /// `HEX *NAME`.
    Binary,
    /// `RMD160 (NAME) = HEX`, as BSD writes it.
    Tagged,
}

/// What parts digests from names in the untagged lines of a list.
#[derive(Clone, Copy, PartialEq, Eq, Debug)]
pub enum Layout {
    /// Two bytes, as in `HEX  NAME` and `HEX *NAME`.
    Standard,
    /// One byte, as in `HEX NAME`, which BSD's `md5 -r` writes.
    Reversed,
}

/// What follows a line.
#[derive(Clone, Copy, PartialEq, Eq, Debug)]
pub enum Ending {
    /// A newline. Names are escaped.
    Newline,
    /// A byte 0. Names stand as they are.
    Zero,
}
