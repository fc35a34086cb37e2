//! The layout of a list, by its lines.

ghost use Rattle.std.specs.Prelude.{◌≡◌};
ghost use Rattle.std.specs.List.{list_all};
ghost use Rattle.hex.specs.Hex.{is_hex_digit};
ghost use Rattle.ripemd_files.specs.Reading.{has_digits, is_wanted_length, untagged_at, untagged_layout};

use crate::line::{Layout, Variant};
use crate::reading::untagged_parts;

fn are_digits(text: &[u8]) -> bool
    ensures { result ≡ list_all is_hex_digit text.now }
{
    text.iter().all(|byte| byte.is_ascii_hexdigit())
}

// Whether so many digits count.
fn has_wanted_length(only: Option<Variant>, count: usize) -> bool
    ensures { result ≡ is_wanted_length only count }
{
    only.is_none_or(|variant| count == 2 * variant.digest_size())
}

// Whether a body has digits that count and a name, in this layout.
fn is_untagged(only: Option<Variant>, layout: Layout, body: &[u8]) -> bool
    ensures { result ≡ has_digits only (untagged_at layout body.now) }
{
    match untagged_parts(layout, body) {
        None => false,
        Some(parts) => has_wanted_length(only, parts.digits.len()) && are_digits(parts.digits),
    }
}

// The layout of a body without a label, if it has digits that count, and a name, whatever that spells; standard if both
// fit. `sha256sum --check` takes the layout of a list from its first untagged line. With `only`, digits of its length
// alone count.
pub(crate) fn layout_of_untagged(only: Option<Variant>, body: &[u8]) -> Option<Layout>
    ensures { result ≡ untagged_layout only body.now }
{
    if is_untagged(only, Layout::Standard, body) {
        Some(Layout::Standard)
    } else if is_untagged(only, Layout::Reversed, body) {
        Some(Layout::Reversed)
    } else {
        None
    }
}
