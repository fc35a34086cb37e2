//! Names and words as coreutils shows them in messages.
//!
//! Names show printable ASCII and, in a locale of UTF-8, every character from U+00A0 on; other bytes are escaped.

use std::alloc::AllocError;
use std::env::VarError;
use std::{env, str};

/// The characters of the locale.
#[derive(Clone, Copy, PartialEq, Eq)]
pub enum Charset {
    Ascii,
    Utf8,
}

impl Charset {
    /// By the first of `LC_ALL`, `LC_CTYPE` and `LANG` that is set and not empty.
    pub fn of(rt: &HostRuntime) -> Charset {
        for variable in ["LC_ALL", "LC_CTYPE", "LANG"] {
            match env::var(rt, variable) {
                Ok(locale) if !locale.is_empty() => return Charset::of_locale(locale.as_str()),
                Ok(_) | Err(VarError::NotPresent) => {}
                Err(_) => return Charset::Ascii,
            }
        }
        Charset::Ascii
    }

    // By a locale's name, as `de_DE.UTF-8` or `C.utf8`.
    fn of_locale(name: &str) -> Charset {
        let (_, charset) = name.split_once('.').unwrap_or(("", ""));
        let (charset, _) = charset.split_once('@').unwrap_or((charset, ""));
        if charset.eq_ignore_ascii_case("utf-8") || charset.eq_ignore_ascii_case("utf8") {
            Charset::Utf8
        } else {
            Charset::Ascii
        }
    }

    // Whether a character beyond ASCII is shown.
    fn shows(self, character: char) -> bool {
        self == Charset::Utf8 && character >= '\u{a0}'
    }
}

/// Adds a name that a colon follows: bare if a shell reads it so and it has no colon, else as by `quoteaf`.
pub fn quotef(text: &mut Vec<u8>, charset: Charset, name: &[u8]) -> Result<(), AllocError> {
    if is_plain(charset, name) {
        text.extend_from_slice(name)?;
        return Ok(());
    }
    quoteaf(text, charset, name)
}

/// Adds a name in quotes from which a shell reads it: `'a file'`, `'a'$'\n''b'`, `"it's"`.
pub fn quoteaf(text: &mut Vec<u8>, charset: Charset, name: &[u8]) -> Result<(), AllocError> {
    if fits_double_quotes(charset, name) {
        text.push(b'"')?;
        text.extend_from_slice(name)?;
        text.push(b'"')?;
        return Ok(());
    }
    text.push(b'\'')?;
    let mut escaping = false;
    for chunk in name.utf8_chunks() {
        for character in chunk.valid().chars() {
            escaping = push_character(text, charset, escaping, character)?;
        }
        for byte in chunk.invalid() {
            escaping = set_escaping(text, escaping, true)?;
            push_escape(text, *byte)?;
        }
    }
    text.push(b'\'')?;
    Ok(())
}

/// Adds a word in quotes, with `'`, `\` and all but printable ASCII escaped as in C: `'x'`, `'a\nb'`, `'it\'s'`.
pub fn quote(text: &mut Vec<u8>, word: &[u8]) -> Result<(), AllocError> {
    text.push(b'\'')?;
    for &byte in word {
        match byte {
            b'\'' | b'\\' => text.extend_from_slice(&[b'\\', byte])?,
            b' '..=b'~' => text.push(byte)?,
            _ => push_escape(text, byte)?,
        }
    }
    text.push(b'\'')?;
    Ok(())
}

// Whether a name needs no quotes.
fn is_plain(charset: Charset, name: &[u8]) -> bool {
    let Ok(characters) = str::from_utf8(name) else {
        return false;
    };
    let is_alone = name.len() == 1;
    !name.is_empty()
        && characters.char_indices().all(|(place, character)| match character {
            ':' => false,
            '#' | '~' => place != 0,
            '{' | '}' => !is_alone,
            _ => is_ordinary(charset, character),
        })
}

// Whether a name stands in double quotes: it has an apostrophe, and only characters safe there.
fn fits_double_quotes(charset: Charset, name: &[u8]) -> bool {
    let Ok(characters) = str::from_utf8(name) else {
        return false;
    };
    name.contains(&b'\'')
        && characters.char_indices().all(|(place, character)| match character {
            ' ' | '\'' => true,
            '#' | '~' => place == 0,
            _ => is_ordinary(charset, character),
        })
}

// Whether a character means nothing to a shell, wherever it stands.
fn is_ordinary(charset: Charset, character: char) -> bool {
    match character {
        'a'..='z' | 'A'..='Z' | '0'..='9' => true,
        '%' | '+' | ',' | '-' | '.' | '/' | ':' | '@' | ']' | '_' => true,
        _ => charset.shows(character),
    }
}

// Adds a character of a quoted name. `escaping` and the result: whether `$'` is open before and after.
fn push_character(
    text: &mut Vec<u8>,
    charset: Charset,
    escaping: bool,
    character: char,
) -> Result<bool, AllocError> {
    if character == '\'' {
        text.extend_from_slice(b"'\\''")?;
        return Ok(false);
    }
    let is_shown = matches!(character, ' '..='~') || charset.shows(character);
    let escaping = set_escaping(text, escaping, !is_shown)?;
    let mut buffer = [0; 4];
    let bytes = character.encode_utf8(&mut buffer).as_bytes();
    if is_shown {
        text.extend_from_slice(bytes)?;
    } else {
        for byte in bytes {
            push_escape(text, *byte)?;
        }
    }
    Ok(escaping)
}

// Opens `$'` if wanted, else `'`.
fn set_escaping(text: &mut Vec<u8>, escaping: bool, wanted: bool) -> Result<bool, AllocError> {
    match (escaping, wanted) {
        (false, true) => text.extend_from_slice(b"'$'")?,
        (true, false) => text.extend_from_slice(b"''")?,
        _ => {}
    }
    Ok(wanted)
}

fn push_escape(text: &mut Vec<u8>, byte: u8) -> Result<(), AllocError> {
    let letter = match byte {
        7 => b'a',
        8 => b'b',
        b'\t' => b't',
        b'\n' => b'n',
        11 => b'v',
        12 => b'f',
        b'\r' => b'r',
        _ => {
            let (high, middle, low) = (byte / 64, byte / 8 % 8, byte % 8);
            text.extend_from_slice(&[b'\\', b'0' + high, b'0' + middle, b'0' + low])?;
            return Ok(());
        }
    };
    text.extend_from_slice(&[b'\\', letter])?;
    Ok(())
}
