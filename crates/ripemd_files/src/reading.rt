//! Lines that are read.

ghost use Rattle.std.specs.Prelude.{◌≡◌, ℕ, List, false, IfOk, IfSome, option_map, unwrap_or};
ghost use Rattle.ripemd_files.specs.Types.{Variant, Form, Standard, Ending};
ghost use Rattle.ripemd_files.specs.Lines.{is_blank, IsLine, Says, RoundTrips, line_of};
ghost use Rattle.ripemd_files.specs.Reading.{strip, skip_blanks, split_blank, split_close, variant_of, strip_bits, strip_label, text_at, untagged_at, skip_space, tagged_at, found_at, digest_at, meant_by, unescaped, name_at, strip_mark, said_by, found_of, said_of, layout_at, layout_of};
ghost use Rattle.std.specs.Option.{option_or};

use crate::layout::layout_of_untagged;
use crate::line::{Layout, Line, Variant};
use hex::FromHexError;
use std::alloc::{AllocError, Global};

// A line in parts: the digits of the digest, and the text of the name.
#[derive(Clone, Copy)]
pub(crate) struct Parts<'a> {
    variant: Variant,
    pub(crate) digits: &'a [u8],
    text: &'a [u8],
}

fn is_blank_byte(byte: u8) -> bool
    ensures { result ≡ is_blank byte }
{
    byte == b' ' || byte == b'\t'
}

// What follows leading blanks.
#[tactic(auto, unfolding(crate::specs::Reading::skip_blanks))]
fn without_blanks(text: &[u8]) -> &[u8]
    ensures { result.now ≡ skip_blanks text.now }
{
    for (place, byte) in text.iter().enumerate() {
        if !is_blank_byte(*byte) {
            return &text[place..];
        }
    }
    &[]
}

// What follows a prefix.
fn behind<'a>(prefix: &[u8], text: &'a [u8]) -> Option<&'a [u8]>
    ensures { option_map (λ x. x.now) result ≡ strip prefix.now text.now }
{
    text.strip_prefix(prefix)
}

// What stands before and after the first blank.
#[tactic(auto, unfolding(crate::specs::Reading::split_blank))]
fn around_blank(text: &[u8]) -> Option<(&[u8], &[u8])>
    ensures { option_map (λ x. (x.0.now, x.1.now)) result ≡ split_blank text.now }
{
    for (place, byte) in text.iter().enumerate() {
        if is_blank_byte(*byte) {
            return Some((&text[..place], &text[place + 1..]));
        }
    }
    None
}

// What stands before and after the last closing parenthesis.
#[tactic(auto, using(crate::proofs::Places::split_close_found), unfolding(crate::specs::Reading::split_close))]
fn around_close(text: &[u8]) -> Option<(&[u8], &[u8])>
    ensures { option_map (λ x. (x.0.now, x.1.now)) result ≡ split_close text.now }
{
    for place in (0..text.len()).rev() {
        if text[place] == b')' {
            return Some((&text[..place], &text[place + 1..]));
        }
    }
    None
}

fn variant_by_digits(count: usize) -> Option<Variant>
    ensures { result ≡ variant_of count }
{
    match count {
        32 => Some(Variant::R128),
        40 => Some(Variant::R160),
        64 => Some(Variant::R256),
        80 => Some(Variant::R320),
        _ => None,
    }
}

// The variant by the bits that end its label, and what follows.
fn behind_bits(text: &[u8]) -> Option<(Variant, &[u8])>
    ensures { option_map (λ x. (x.0, x.1.now)) result ≡ strip_bits text.now }
{
    if let Some(rest) = behind(b"128", text) {
        Some((Variant::R128, rest))
    } else if let Some(rest) = behind(b"160", text) {
        Some((Variant::R160, rest))
    } else if let Some(rest) = behind(b"256", text) {
        Some((Variant::R256, rest))
    } else {
        let rest = behind(b"320", text)?;
        Some((Variant::R320, rest))
    }
}

// The variant of a label, and what follows it.
#[tactic(auto, unfolding(crate::specs::Reading::strip_label))]
fn behind_label(text: &[u8]) -> Option<(Variant, &[u8])>
    ensures { option_map (λ x. (x.0, x.1.now)) result ≡ strip_label text.now }
{
    if let Some(rest) = behind(b"RMD", text) {
        behind_bits(rest)
    } else if let Some(rest) = behind(b"RIPEMD-", text) {
        behind_bits(rest)
    } else {
        behind_bits(behind(b"RIPEMD", text)?)
    }
}

// The text of a name after a blank, unless it is empty.
fn behind_separator(layout: Layout, text: &[u8]) -> Option<&[u8]>
    ensures { option_map (λ x. x.now) result ≡ text_at layout text.now }
{
    match layout {
        Layout::Standard => match text {
            [b' ' | b'*', name @ ..] if !name.is_empty() => Some(name),
            _ => None,
        },
        Layout::Reversed => match text {
            [] => None,
            _ => Some(text),
        },
    }
}

#[tactic(auto, unfolding(crate::specs::Reading::untagged_at))]
pub(crate) fn untagged_parts(layout: Layout, body: &[u8]) -> Option<Parts<'_>>
    ensures { option_map found_of result ≡ untagged_at layout body.now }
{
    let (digits, rest) = around_blank(body)?;
    let variant = variant_by_digits(digits.len())?;
    let text = behind_separator(layout, rest)?;
    Some(Parts {
        variant,
        digits,
        text,
    })
}

// What follows one space, if it stands there.
fn without_space(text: &[u8]) -> &[u8]
    ensures { result.now ≡ skip_space text.now }
{
    match text {
        [b' ', rest @ ..] => rest,
        _ => text,
    }
}

// The parts of a tagged line, from what follows its label.
#[tactic(auto, unfolding(crate::specs::Reading::tagged_at))]
fn tagged_parts(variant: Variant, text: &[u8]) -> Option<Parts<'_>>
    ensures { option_map found_of result ≡ tagged_at variant text.now }
{
    let inner = behind(b"(", without_space(text))?;
    let (text, rest) = around_close(inner)?;
    let digits = behind(b"=", without_blanks(rest))?;
    Some(Parts {
        variant,
        digits: without_blanks(digits),
        text,
    })
}

// The parts of a line, tagged or not. An untagged line decides the layout of its list, if none is known.
#[tactic(auto, unfolding(crate::specs::Reading::found_at, crate::specs::Reading::layout_at))]
fn either_parts<'a>(
    only: Option<Variant>,
    layout: &mut Option<Layout>,
    body: &'a [u8],
) -> Option<Parts<'a>>
    ensures layout { layout.new ≡ option_or layout.old (layout_at only body.now) }
    ensures parts { option_map found_of result ≡ found_at (unwrap_or layout.new Standard) body.now }
{
    match behind_label(body) {
        Some((variant, rest)) => tagged_parts(variant, rest),
        None => {
            if layout.is_none() {
                *layout = layout_of_untagged(only, body);
            }
            untagged_parts(layout.unwrap_or(Layout::Standard), body)
        }
    }
}

#[tactic(auto, unfolding(crate::specs::Reading::digest_at))]
fn decode_digest(
    alloc: Global,
    variant: Variant,
    digits: &[u8],
) -> Result<Option<Vec<u8>>, AllocError>
    ensures { IfOk result (λ found. option_map (λ v. v.items) found ≡ digest_at variant digits.now) }
{
    if digits.len() != 2 * variant.digest_size() {
        return Ok(None);
    }
    match hex::decode(alloc, digits) {
        Ok(digest) => Ok(Some(digest)),
        Err(FromHexError::OutOfMemory) => Err(AllocError),
        Err(_) => Ok(None),
    }
}

// What a letter after a backslash stands for.
fn meaning(letter: u8) -> Option<u8>
    ensures { result ≡ meant_by letter }
{
    match letter {
        b'\\' => Some(b'\\'),
        b'n' => Some(b'\n'),
        b'r' => Some(b'\r'),
        _ => None,
    }
}

// The name that an escaped text spells.
#[tactic(auto, using(crate::proofs::Places::unescaping), unfolding(crate::specs::Reading::unescaped))]
fn unescape(alloc: Global, text: &[u8]) -> Result<Option<Vec<u8>>, AllocError>
    ensures { IfOk result (λ found. option_map (λ v. v.items) found ≡ unescaped false text.now) }
{
    let mut name = Vec::with_capacity(alloc, text.len())?;
    let mut escaping = false;
    for &byte in text {
        if escaping {
            match meaning(byte) {
                Some(meant) => name.push(meant)?,
                None => return Ok(None),
            }
            escaping = false;
        } else if byte == b'\\' {
            escaping = true;
        } else {
            name.push(byte)?;
        }
    }
    Ok(if escaping { None } else { Some(name) })
}

// The name that a text spells, unless it has a byte 0.
#[tactic(auto, unfolding(crate::specs::Reading::name_at))]
fn read_name(alloc: Global, marked: bool, text: &[u8]) -> Result<Option<Vec<u8>>, AllocError>
    ensures { IfOk result (λ found. option_map (λ v. v.items) found ≡ name_at marked text.now) }
{
    let spelled = if marked {
        unescape(alloc, text)?
    } else {
        Some(Vec::from_slice(alloc, text)?)
    };
    match spelled {
        Some(name) if !name.contains(&0) => Ok(Some(name)),
        _ => Ok(None),
    }
}

// Whether a line is marked as escaped, and what follows the mark.
fn without_mark(text: &[u8]) -> (bool, &[u8])
    ensures { (result.0, result.1.now) ≡ strip_mark text.now }
{
    match text {
        [b'\\', rest @ ..] => (true, rest),
        _ => (false, text),
    }
}

// What a line says, in the layout of its list, which it may decide.
#[tactic(auto, unfolding(crate::specs::Reading::said_by))]
pub(crate) fn parse_listed(
    alloc: Global,
    only: Option<Variant>,
    layout: &mut Option<Layout>,
    line: &[u8],
) -> Result<Option<Line>, AllocError>
    ensures layout { layout.new ≡ option_or layout.old (layout_of only line.now) }
    ensures line { IfOk result (λ found. option_map said_of found ≡ said_by (unwrap_or layout.new Standard) line.now) }
{
    let (marked, body) = without_mark(without_blanks(line));
    let Some(parts) = either_parts(only, layout, body) else {
        return Ok(None);
    };
    let Some(digest) = decode_digest(alloc, parts.variant, parts.digits)? else {
        return Ok(None);
    };
    let Some(name) = read_name(alloc, marked, parts.text)? else {
        return Ok(None);
    };
    Ok(Some(Line {
        variant: parts.variant,
        digest,
        name,
    }))
}

/// What a line, given without its end, says: its variant, its digest and the name of its file; `None` if it is no
/// line of a digest and a name.
///
/// It takes what [`write_line`](crate::write_line) writes and, as `sha256sum --check` does, leading blanks, digits of
/// either case, a tab for the first of the two spaces, and tagged lines as OpenSSL writes them. The length of an
/// untagged digest tells the variant.
#[tactic(auto, using(crate::proofs::Sayings::line_is_found, crate::proofs::Written::writing))]
pub fn parse_line(alloc: Global, layout: Layout, line: &[u8]) -> Result<Option<Line>, AllocError>
    // The line says what is found.
    ensures found { IfOk result (λ found. IfSome found (λ l. IsLine layout line.now l.variant l.digest.items l.name.items)) }
    // What it says is found, and nothing else.
    ensures only { (variant : Variant) (digest name : List ℕ) → IsLine layout line.now variant digest name
        → IfOk result (λ found. Says found variant digest name) }
    // What was written is found.
    ensures written { (ending : Ending) (form : Form) (variant : Variant) (digest name : List ℕ) → RoundTrips layout form variant digest name
        → line.now ≡ line_of ending form variant digest name → IfOk result (λ found. Says found variant digest name) }
{
    let mut layout = Some(layout);
    parse_listed(alloc, None, &mut layout, line)
}
