//! What the program's arguments ask for: a digest, or a tag under a key.

ghost use Rattle.std.specs.Prelude.{◌≡◌, ◌≤◌, ◌↔◌, ℕ, Ok, Some, IfSome, map, take, string_bytes};
ghost use Rattle.hex.specs.Hex.{decode_of};
ghost use Rattle.ripemd_sum.specs.Arguments.{Chooses, IsKeyText, ChoosesMac, HasKey};
ghost use Rattle.ripemd_sum.specs.Types.{Variant};

use crate::variant::Variant;

/// The variant that the arguments ask for: RIPEMD-160 for none, or the one that a single argument names; `None` for all
/// others.
pub fn choose(arguments: &[String]) -> Option<Variant>
    ensures { (v : Variant) → (result ≡ Some v) ↔ Chooses (map string_bytes arguments.now) v }
{
    match arguments {
        [] => Some(Variant::R160),
        [name] => Variant::from_name(name.as_str()),
        _ => None,
    }
}

/// The variant of the tag that the arguments ask for, and the number of bytes of its key. The arguments are the
/// variant's name, `hmac`, and the text of the key, which `parse_key` reads into `out`.
///
/// `None` for all other arguments; what `out` then holds means nothing.
pub fn choose_mac(arguments: &[String], out: &mut [u8; 64]) -> Option<(Variant, usize)>
    ensures chosen { (v : Variant) (n : ℕ) → (result ≡ Some (v, n))
        ↔ ChoosesMac (map string_bytes arguments.now) v n }
    ensures key { IfSome result (λ chosen.
        HasKey (map string_bytes arguments.now) (take chosen.1 out.new)) }
    ensures most { IfSome result (λ chosen. chosen.1 ≤ 64) }
{
    match arguments {
        [name, word, text] if word.as_str() == "hmac" => {
            let variant = Variant::from_name(name.as_str())?;
            let length = parse_key(text.as_str(), out)?;
            Some((variant, length))
        }
        _ => None,
    }
}

/// Reads a key from hexadecimal text, of either case, to the front of `out`, and gives the number of its bytes.
///
/// `None` exactly if the text has an odd number of bytes, or more than 128, or one that is no hexadecimal digit; what
/// `out` then holds means nothing.
pub fn parse_key(text: &str, out: &mut [u8; 64]) -> Option<usize>
    ensures length { (n : ℕ) → (result ≡ Some n) ↔ IsKeyText text.now n }
    ensures key { IfSome result (λ n. decode_of text.now ≡ Ok (take n out.new)) }
{
    let length = text.len() / 2;
    if length > 64 {
        return None;
    }
    hex::decode_to_slice(text, &mut out[..length]).ok()?;
    Some(length)
}
