//! What arguments ask for, keys in hexadecimal, and texts of errors. More arguments, and what `main` prints, are tried
//! on the built program.

use crate::arguments::{choose, choose_mac, parse_key};
use crate::fault::{ReadFault, RunFault};
use crate::variant::Variant;
use std::alloc::{AllocError, Global};
use std::fmt::Display;
use std::io;
use std::io::ErrorKind;
use std::test::Fail;

/// The variant of the digest, and the variant and key length of the tag, that arguments ask for.
type Asked = (Option<Variant>, Option<(Variant, usize)>);

fn asked_by(alloc: Global, texts: &[&str]) -> Result<Asked, AllocError> {
    let mut arguments = Vec::new(alloc);
    for text in texts {
        arguments.push(String::from_str(alloc, text)?)?;
    }
    let tag = choose_mac(arguments.as_slice(), &mut [0; 64]);
    Ok((choose(arguments.as_slice()), tag))
}

#[test]
fn arguments(rt: HostRuntime) -> Result<(), Fail> {
    let key = "0b0b0b0b0b0b0b0b0b0b0b0b0b0b0b0b0b0b0b0b";
    let cases: [(&[&str], Asked); 13] = [
        (&[], (Some(Variant::R160), None)),
        (&["128"], (Some(Variant::R128), None)),
        (&["160"], (Some(Variant::R160), None)),
        (&["256"], (Some(Variant::R256), None)),
        (&["320"], (Some(Variant::R320), None)),
        (&["512"], (None, None)),
        (&["160", "160"], (None, None)),
        (&["160", "hmac"], (None, None)),
        (&["160", "hmac", key], (None, Some((Variant::R160, 20)))),
        (&["160", "hmac", ""], (None, Some((Variant::R160, 0)))),
        (&["320", "hmac", "00"], (None, Some((Variant::R320, 1)))),
        (&["160", "mac", "00"], (None, None)),
        (&["512", "hmac", "00"], (None, None)),
    ];
    for (texts, asked) in cases {
        assert!(rt; asked_by(rt.alloc(), texts)? == asked, "{texts:?}");
    }
    Ok(())
}

/// Whether a text is read as this key, or refused if there is none.
fn is_read_as(text: &str, key: Option<&[u8]>) -> bool {
    let mut out = [0xee; 64];
    match (parse_key(text, &mut out), key) {
        (Some(length), Some(key)) => length == key.len() && out.starts_with(key),
        (None, None) => true,
        _ => false,
    }
}

#[test]
fn keys(rt: HostRuntime) {
    let zeros = [b'0'; 130];
    let digits = str::from_utf8(&zeros).unwrap_or("");
    let cases: [(&str, Option<&[u8]>); 7] = [
        ("", Some(b"")),
        ("0B0b", Some(b"\x0b\x0b")),
        (
            "0123456789abcdefABCDEF",
            Some(b"\x01\x23\x45\x67\x89\xab\xcd\xef\xab\xcd\xef"),
        ),
        ("0b0", None),
        ("0g", None),
        (digits.get(..128).unwrap_or(""), Some(&[0; 64])),
        (digits, None),
    ];
    for (text, key) in cases {
        assert!(rt; is_read_as(text, key), "{text:?}");
    }
}

/// Whether an error is shown as this text.
fn shows<E: Display>(alloc: Global, error: &E, text: &str) -> Result<bool, AllocError> {
    Ok(format!(in alloc; "{error}")?.as_str() == text)
}

#[test]
fn errors(rt: HostRuntime) -> Result<(), Fail> {
    let read = RunFault::Read(io::Error::from(ErrorKind::ConnectionReset));
    let write = RunFault::Write(io::Error::from(ErrorKind::BrokenPipe));
    assert!(rt; shows(rt.alloc(), &read, "ripemd_sum: read error")?);
    assert!(rt; shows(rt.alloc(), &RunFault::TooLong, "ripemd_sum: input too long")?);
    assert!(rt; shows(rt.alloc(), &write, "ripemd_sum: write error")?);
    let read = ReadFault::Read(io::Error::from(ErrorKind::ConnectionReset));
    assert!(rt; shows(rt.alloc(), &read, "read error")?);
    assert!(rt; shows(rt.alloc(), &ReadFault::TooLong, "input too long")?);
    Ok(())
}
