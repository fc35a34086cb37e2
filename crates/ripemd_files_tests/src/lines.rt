//! Lines, written and read. The digest is that of the empty message, by the authors.

use ripemd_files::printing::Style;
use ripemd_files::{Ending, Form, Layout, Line, Variant, parse_line, write_line};
use std::alloc::{AllocError, Global};
use std::test::Fail;

const DIGEST: [u8; 20] = [
    0x9c, 0x11, 0x85, 0xa5, 0xc5, 0xe9, 0xfc, 0x54, 0x61, 0x28, 0x08, 0x97, 0x7e, 0xe8, 0xf5, 0x48,
    0xb2, 0x25, 0x8d, 0x31,
];

fn expected(alloc: Global, name: &[u8]) -> Result<Option<Line>, AllocError> {
    Ok(Some(Line {
        variant: Variant::R160,
        digest: Vec::from_slice(alloc, &DIGEST)?,
        name: Vec::from_slice(alloc, name)?,
    }))
}

#[test]
fn a_line_is_read(rt: HostRuntime) -> Result<(), Fail> {
    let alloc = rt.alloc();
    let line = b"\\9c1185a5c5e9fc54612808977ee8f548b2258d31  a\\\\b";
    let found = parse_line(alloc, Layout::Standard, line)?;
    assert_eq!(rt; found, expected(alloc, b"a\\b")?);
    let line = b"RIPEMD-160(a)= 9c1185a5c5e9fc54612808977ee8f548b2258d31";
    let found = parse_line(alloc, Layout::Standard, line)?;
    assert_eq!(rt; found, expected(alloc, b"a")?);
    let line = b"9c1185a5c5e9fc54612808977ee8f548b2258d31 a";
    assert_eq!(rt; parse_line(alloc, Layout::Standard, line)?, None);
    let found = parse_line(alloc, Layout::Reversed, line)?;
    assert_eq!(rt; found, expected(alloc, b"a")?);
    Ok(())
}

#[test]
fn a_line_is_written(rt: HostRuntime) -> Result<(), Fail> {
    let alloc = rt.alloc();
    let mut lines = Vec::new(alloc);
    let mut style = Style {
        variant: Variant::R160,
        form: Form::Text,
        ending: Ending::Newline,
    };
    write_line(alloc, style, &DIGEST, b"a\\b", &mut lines)?;
    style.form = Form::Tagged;
    style.ending = Ending::Zero;
    write_line(alloc, style, &DIGEST, b"a\n", &mut lines)?;
    let written =
        b"\\9c1185a5c5e9fc54612808977ee8f548b2258d31  a\\\\b\nRMD160 (a\n) = 9c1185a5c5e9fc54612808977ee8f548b2258d31\0";
    assert_eq!(rt; lines.as_slice(), written.as_slice());
    Ok(())
}
