//! Lines that are written.

ghost use Rattle.std.specs.Prelude.{◌≡◌, ◌++◌, OnOk};
ghost use Rattle.std.specs.List.{list_any};
ghost use Rattle.ripemd_files.specs.Lines.{is_special, escape_of, mark_of, is_marked, text_of, body_of, line_of, end_of};

use crate::line::{Ending, Form, Variant};
use crate::printing::Style;
use std::alloc::{AllocError, Global};

// Whether a name has a byte that is escaped.
fn has_special(name: &[u8]) -> bool
    ensures { result ≡ list_any is_special name.now }
{
    name.iter()
        .any(|byte| matches!(byte, b'\\' | b'\n' | b'\r'))
}

// Whether a line is marked, and its name escaped.
fn needs_mark(ending: Ending, name: &[u8]) -> bool
    ensures { result ≡ is_marked ending name.now }
{
    ending == Ending::Newline && has_special(name)
}

fn push_escaped(line: &mut Vec<u8>, byte: u8) -> Result<(), AllocError>
    ensures { OnOk result (line.new.items ≡ line.old.items ++ escape_of byte) }
{
    match byte {
        b'\\' => line.extend_from_slice(b"\\\\")?,
        b'\n' => line.extend_from_slice(b"\\n")?,
        b'\r' => line.extend_from_slice(b"\\r")?,
        _ => line.push(byte)?,
    }
    Ok(())
}

// Adds a name, escaped if it is marked.
pub(crate) fn push_text(line: &mut Vec<u8>, marked: bool, name: &[u8]) -> Result<(), AllocError>
    ensures { OnOk result (line.new.items ≡ line.old.items ++ text_of marked name.now) }
{
    if !marked {
        line.extend_from_slice(name)?;
        return Ok(());
    }
    for &byte in name {
        push_escaped(line, byte)?;
    }
    Ok(())
}

fn push_body(
    line: &mut Vec<u8>,
    form: Form,
    variant: Variant,
    digits: &[u8],
    marked: bool,
    name: &[u8],
) -> Result<(), AllocError>
    ensures { OnOk result (line.new.items ≡ line.old.items ++ body_of form variant digits.now (text_of marked name.now)) }
{
    match form {
        Form::Text => {
            line.extend_from_slice(digits)?;
            line.extend_from_slice(b"  ")?;
            push_text(line, marked, name)?;
        }
        Form::Binary => {
            line.extend_from_slice(digits)?;
            line.extend_from_slice(b" *")?;
            push_text(line, marked, name)?;
        }
        Form::Tagged => {
            line.extend_from_slice(variant.label().as_bytes())?;
            line.extend_from_slice(b" (")?;
            push_text(line, marked, name)?;
            line.extend_from_slice(b") = ")?;
            line.extend_from_slice(digits)?;
        }
    }
    Ok(())
}

/// Adds the line of a digest and a name, with its end, as `sha256sum` writes it.
///
/// The digits are in lower case. [`parse_line`](crate::parse_line) finds digest and name again if
/// the digest has the variant's length, the name has no byte 0, and an untagged line has a name
/// that is not empty and is read in the standard layout.
///
/// # Errors
///
/// `AllocError` if memory is exhausted. `lines` then also holds a front of the line.
pub fn write_line(
    alloc: Global,
    style: Style,
    digest: &[u8],
    name: &[u8],
    lines: &mut Vec<u8>,
) -> Result<(), AllocError>
    ensures { OnOk result (lines.new.items ≡ lines.old.items
        ++ (line_of style.ending style.form style.variant digest.now name.now ++ end_of style.ending)) }
{
    let digits = hex::encode(alloc, digest)?;
    let marked = needs_mark(style.ending, name);
    if marked {
        lines.push(b'\\')?;
    }
    push_body(
        lines,
        style.form,
        style.variant,
        digits.as_bytes(),
        marked,
        name,
    )?;
    match style.ending {
        Ending::Newline => lines.push(b'\n')?,
        Ending::Zero => lines.push(0)?,
    }
    Ok(())
}
