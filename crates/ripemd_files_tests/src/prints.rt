//! Lines of files in memory. The digests are the authors'.

use crate::doubles::{Calls, Memory, Page, letters};
use ripemd_files::fault::Fault;
use ripemd_files::printing::{Style, print_digests};
use ripemd_files::{Ending, Form, Variant};
use std::test::Fail;

const STYLE: Style = Style {
    variant: Variant::R160,
    form: Form::Text,
    ending: Ending::Newline,
};

const EMPTY: &[u8] = b"9c1185a5c5e9fc54612808977ee8f548b2258d31  empty\n";

const ABC: &[u8] = b"8eb208f7e05d987a9b044a8e98c6b087f15a0bfc  abc\n";

const LONG: &[u8] = b"52783243c1697bdbe16d37f97f68f08325dc1528  long\n";

// Short and long files, more than are hashed at once, one of which is missing.
#[test]
fn files_are_printed_in_order(rt: HostRuntime) -> Result<(), Fail> {
    let alloc = rt.alloc();
    let long = letters(alloc, 1_000_000)?;
    let files: [(&[u8], &[u8]); 3] = [(b"empty", b""), (b"abc", b"abc"), (b"long", &long)];
    let memory = Memory {
        files: &files,
        calls: Calls::failing_at(0),
    };
    let listed: [&[u8]; 11] = [
        b"abc", b"empty", b"long", b"abc", b"abc", b"missing", b"abc", b"abc", b"abc", b"long",
        b"abc",
    ];
    let mut page = Page::new(alloc, 0);
    let all = print_digests(alloc, &memory, STYLE, &listed, &mut page)?;
    let mut wanted = Vec::new(alloc);
    for line in [ABC, EMPTY, LONG, ABC, ABC, ABC, ABC, ABC, LONG, ABC] {
        wanted.extend_from_slice(line)?;
    }
    assert!(rt; !all);
    assert_eq!(rt; page.unreadable, 1);
    assert_eq!(rt; page.bytes, wanted);
    Ok(())
}

// Whichever opening or read fails, only the other file has its line.
#[test]
fn each_call_of_a_folder_may_fail(rt: HostRuntime) -> Result<(), Fail> {
    let alloc = rt.alloc();
    let long = letters(alloc, 1_000_000)?;
    let files: [(&[u8], &[u8]); 2] = [(b"abc", b"abc"), (b"long", &long)];
    let listed: [&[u8]; 2] = [b"abc", b"long"];
    let mut failed = 0usize;
    for failing in 1..100 {
        let memory = Memory {
            files: &files,
            calls: Calls::failing_at(failing),
        };
        let mut page = Page::new(alloc, 0);
        let all = print_digests(alloc, &memory, STYLE, &listed, &mut page)?;
        if all {
            assert!(rt; memory.calls.made() < failing);
            break;
        }
        failed = failed.saturating_add(1);
        assert_eq!(rt; page.unreadable, 1);
        let wanted = if failing <= 3 { LONG } else { ABC };
        assert_eq!(rt; page.bytes.as_slice(), wanted, "call {failing}");
    }
    assert!(rt; failed > 15);
    Ok(())
}

// Whichever write or remark fails, the run ends with its error, and no more is told.
#[test]
fn each_write_may_fail(rt: HostRuntime) -> Result<(), Fail> {
    let alloc = rt.alloc();
    let files: [(&[u8], &[u8]); 2] = [(b"abc", b"abc"), (b"empty", b"")];
    let listed: [&[u8]; 3] = [b"abc", b"missing", b"empty"];
    // A line, a remark and a line.
    for failing in 1..4 {
        let memory = Memory {
            files: &files,
            calls: Calls::failing_at(0),
        };
        let mut page = Page::new(alloc, failing);
        let outcome = print_digests(alloc, &memory, STYLE, &listed, &mut page);
        assert!(rt; matches!(outcome, Err(Fault::Write(_))), "write {failing}");
        assert_eq!(rt; page.calls.made(), failing);
        assert_eq!(rt; page.bytes.as_slice(), if failing == 1 { b"" } else { ABC });
        assert_eq!(rt; page.unreadable, usize::from(failing == 3));
    }
    Ok(())
}
