//! Which hash the program computes.

ghost use Rattle.std.specs.Prelude.{◌≡◌, ◌↔◌, Some};
ghost use Rattle.ripemd_sum.specs.Arguments.{name_of};
ghost use Rattle.ripemd_sum.specs.Types.{Variant};

/// A hash that the program has.
#[derive(Clone, Copy, PartialEq, Eq, Debug)]
pub enum Variant {
    /// RIPEMD-128.
    R128,
    /// RIPEMD-160.
    R160,
    /// RIPEMD-256.
    R256,
    /// RIPEMD-320.
    R320,
}

impl Variant {
    /// The variant named `128`, `160`, `256` or `320`, the digest's length in bits; `None` for
    /// every other text.
    pub fn from_name(name: &str) -> Option<Variant>
        ensures { (v : Variant) → (result ≡ Some v) ↔ (name.now ≡ name_of v) }
    {
        match name {
            "128" => Some(Variant::R128),
            "160" => Some(Variant::R160),
            "256" => Some(Variant::R256),
            "320" => Some(Variant::R320),
            _ => None,
        }
    }
}
