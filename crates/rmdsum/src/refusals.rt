//! Refused arguments and their messages.

use crate::quoting::{Charset, quote, quoteaf};
use crate::switches::{Flag, Parameter, SWITCHES, around_equals};
use std::alloc::AllocError;
use std::io;
use std::io::Write;

// What many of them are about.
const CHECKING: &[u8] = b" when verifying checksums";

/// Why arguments are refused.
#[derive(PartialEq, Eq, Debug, Drop)]
pub enum Misuse {
    /// No long option begins so: the text after `--`.
    UnknownLong(Vec<u8>),
    /// Several long options begin so: the text after `--`.
    Ambiguous(Vec<u8>),
    /// This option takes no value, and has one.
    UnwantedValue(Flag),
    /// This long option has no value.
    MissingValue(Parameter),
    /// No option has this letter.
    UnknownShort(u8),
    /// The option of this letter has no value.
    MissingShortValue(u8),
    /// No hash has this name.
    UnknownVariant(Vec<u8>),
    /// `--text` after `--tag`.
    TextWithTag,
    /// `--zero` with `--check`.
    ZeroWithCheck,
    /// `--tag` with `--check`.
    TagWithCheck,
    /// `--binary` or `--text` with `--check`.
    ModeWithCheck,
    /// This option without `--check`.
    OnlyWithCheck(Flag),
    /// This operand beside `--files0-from`.
    ExtraOperand(Vec<u8>),
}

impl Misuse {
    /// Adds the message that follows the program's name and a colon, without its last newline.
    pub fn push_text(&self, text: &mut Vec<u8>, charset: Charset) -> io::Result<()> {
        match self {
            Misuse::UnknownLong(option) => {
                push_parts(text, &[b"unrecognized option '--", option.as_slice(), b"'"])?;
            }
            Misuse::Ambiguous(option) => push_ambiguous(text, option.as_slice())?,
            Misuse::UnwantedValue(flag) => {
                let name = flag.long_name();
                write!(text, "option '--{name}' doesn't allow an argument")?;
            }
            Misuse::MissingValue(parameter) => {
                let name = parameter.long_name();
                write!(text, "option '--{name}' requires an argument")?;
            }
            Misuse::UnknownShort(letter) => {
                push_parts(text, &[b"invalid option -- '", &[*letter], b"'"])?;
            }
            Misuse::MissingShortValue(letter) => {
                let what = b"option requires an argument -- '";
                push_parts(text, &[what, &[*letter], b"'"])?;
            }
            Misuse::UnknownVariant(name) => push_unknown_variant(text, name.as_slice())?,
            Misuse::TextWithTag => write!(text, "--tag does not support --text mode")?,
            Misuse::ZeroWithCheck => push_parts(
                text,
                &[b"the --zero option is not supported", CHECKING],
            )?,
            Misuse::TagWithCheck => push_parts(
                text,
                &[b"the --tag option is meaningless", CHECKING],
            )?,
            Misuse::ModeWithCheck => {
                let what = b"the --binary and --text options are meaningless";
                push_parts(text, &[what, CHECKING])?;
            }
            Misuse::OnlyWithCheck(flag) => {
                let name = flag.long_name().as_bytes();
                push_parts(
                    text,
                    &[b"the --", name, b" option is meaningful only", CHECKING],
                )?;
            }
            Misuse::ExtraOperand(operand) => {
                write!(text, "extra operand ")?;
                quoteaf(text, charset, operand.as_slice())?;
                let why = b"\nfile operands cannot be combined with --files0-from";
                text.extend_from_slice(why)?;
            }
        }
        Ok(())
    }
}

fn push_parts(text: &mut Vec<u8>, parts: &[&[u8]]) -> Result<(), AllocError> {
    for part in parts {
        text.extend_from_slice(part)?;
    }
    Ok(())
}

// Says which options an ambiguous one may be.
fn push_ambiguous(text: &mut Vec<u8>, option: &[u8]) -> Result<(), AllocError> {
    push_parts(
        text,
        &[b"option '--", option, b"' is ambiguous; possibilities:"],
    )?;
    let (name, _) = around_equals(option);
    for switch in SWITCHES {
        let long = switch.long_name().as_bytes();
        if long.starts_with(name) {
            push_parts(text, &[b" '--", long, b"'"])?;
        }
    }
    Ok(())
}

// Says which names of hashes there are.
fn push_unknown_variant(text: &mut Vec<u8>, name: &[u8]) -> Result<(), AllocError> {
    push_parts(text, &[b"invalid argument "])?;
    quote(text, name)?;
    push_parts(
        text,
        &[b" for '--algorithm'\nValid arguments are:\n  - '128'\n  - '160'\n  - '256'\n  - '320'"],
    )
}
