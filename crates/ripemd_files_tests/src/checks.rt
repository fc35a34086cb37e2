//! Checks of lists in memory. The digests are the authors'.

ghost use Rattle.std.specs.Prelude.{◌≡◌, None};
ghost use Rattle.ripemd_files.specs.Splitting.{state_of};
ghost use Rattle.ripemd_files.specs.declared.piece.Stage.TheVariants.{Among};

use crate::doubles::{Bytes, Calls, Memory, Page, list_of};
use ripemd_files::checking::check_list;
use ripemd_files::fault::Fault;
use ripemd_files::list::Rules;
use ripemd_files::log::Complaint;
use ripemd_files::piece::List;
use ripemd_files::verdict::Options;
use ripemd_files::{Layout, Variant};
use std::alloc::Global;
use std::test::Fail;

const PLAIN: Options = Options {
    ignore_missing: false,
    quiet: false,
    status: false,
    strict: false,
    warn: false,
};

const IGNORING: Options = Options {
    ignore_missing: true,
    quiet: true,
    ..PLAIN
};

const RULES: Rules = Rules {
    only: None,
    from_input: false,
};

// A comment, two lines that match, by two variants, one that differs, one that is misformatted, and one of a
// missing file.
const LIST: &[u8] = b"# a comment\n8eb208f7e05d987a9b044a8e98c6b087f15a0bfc  abc\n\
    cdf26213a150dc3ecb610f18f6b38b46  empty\r\n\
    9c1185a5c5e9fc54612808977ee8f548b2258d31  abc\nnothing\n\
    RMD160 (missing) = 9c1185a5c5e9fc54612808977ee8f548b2258d31";

const REPORT: &[u8] = b"abc: OK\nempty: OK\nabc: FAILED\nmissing: FAILED open or read\n";

const FILES: &[(&[u8], &[u8])] = &[(b"abc", b"abc"), (b"empty", b"")];

fn check(
    alloc: Global,
    mut list: List<Bytes<'_>>,
    calls: Calls,
    page: &mut Page,
) -> Result<bool, Fault>
    requires list { (state_of (λ bytes. None) list).stage ≡ Among }
    requires page { page.old.failure ≡ None }
{
    let memory = Memory {
        files: FILES,
        calls,
    };
    check_list(alloc, &memory, PLAIN, RULES, &mut None, &mut list, page)
}

// A list, how it is checked, and what comes of that.
#[derive(Clone, Copy)]
struct Case<'a> {
    options: Options,
    rules: Rules,
    first: Option<Layout>,
    list: &'a [u8],
    report: &'a [u8],
    unreadable: usize,
    complaints: &'a [Complaint],
    success: bool,
    last: Option<Layout>,
}

// A list with one good line.
const GOOD: Case<'static> = Case {
    options: PLAIN,
    rules: RULES,
    first: None,
    list: b"8eb208f7e05d987a9b044a8e98c6b087f15a0bfc  abc\n",
    report: b"abc: OK\n",
    unreadable: 0,
    complaints: &[],
    success: true,
    last: Some(Layout::Standard),
};

// `sha256sum` says the same of each, with its own digests.
const CASES: &[Case<'static>] = &[
    GOOD,
    Case {
        options: Options {
            warn: true,
            ..PLAIN
        },
        list: LIST,
        report: REPORT,
        unreadable: 1,
        complaints: &[
            Complaint::Misformatted(5),
            Complaint::MisformattedLines(1),
            Complaint::UnreadableFiles(1),
            Complaint::Mismatches(1),
        ],
        success: false,
        ..GOOD
    },
    // One line of each variant.
    Case {
        list: b"c14a12199c66e4ba84636b0f69144c77  abc\n\
            8eb208f7e05d987a9b044a8e98c6b087f15a0bfc  abc\n\
            afbd6e228b9d8cbbcef5ca2d03e6dba10ac0bc7dcbe4680e1e42d2e975459b65  abc\n\
            de4c01b3054f8930a79d09ae738e92301e5a17085beffdc1b8d116713e74f82fa942d64cdbc4682d  abc\n",
        report: b"abc: OK\nabc: OK\nabc: OK\nabc: OK\n",
        ..GOOD
    },
    // One variant counts.
    Case {
        rules: Rules {
            only: Some(Variant::R128),
            ..RULES
        },
        list: b"8eb208f7e05d987a9b044a8e98c6b087f15a0bfc  abc\n\
            c14a12199c66e4ba84636b0f69144c77  abc\n",
        complaints: &[Complaint::MisformattedLines(1)],
        ..GOOD
    },
    // Standard input is the list.
    Case {
        rules: Rules {
            from_input: true,
            ..RULES
        },
        list: b"8eb208f7e05d987a9b044a8e98c6b087f15a0bfc  -\n\
            8eb208f7e05d987a9b044a8e98c6b087f15a0bfc  abc\n",
        complaints: &[Complaint::MisformattedLines(1)],
        ..GOOD
    },
    // The first untagged line decides the layout, and so for the next list.
    Case {
        list: b"8eb208f7e05d987a9b044a8e98c6b087f15a0bfc abc\n\
            8eb208f7e05d987a9b044a8e98c6b087f15a0bfc  abc\n",
        report: b"abc: OK\n abc: FAILED open or read\n",
        unreadable: 1,
        complaints: &[Complaint::UnreadableFiles(1)],
        success: false,
        last: Some(Layout::Reversed),
        ..GOOD
    },
    Case {
        list: b"8eb208f7e05d987a9b044a8e98c6b087f15a0bfc  abc\n\
            8eb208f7e05d987a9b044a8e98c6b087f15a0bfc abc\n",
        complaints: &[Complaint::MisformattedLines(1)],
        ..GOOD
    },
    Case {
        first: Some(Layout::Reversed),
        list: b"RMD160 (abc) = 8eb208f7e05d987a9b044a8e98c6b087f15a0bfc\n\
            8eb208f7e05d987a9b044a8e98c6b087f15a0bfc  abc\n",
        report: b"abc: OK\n abc: FAILED open or read\n",
        unreadable: 1,
        complaints: &[Complaint::UnreadableFiles(1)],
        success: false,
        last: Some(Layout::Reversed),
        ..GOOD
    },
    // A name of two lines.
    Case {
        list: b"\\8eb208f7e05d987a9b044a8e98c6b087f15a0bfc  a\\nb\n",
        report: b"\\a\\nb: FAILED open or read\n",
        unreadable: 1,
        complaints: &[Complaint::UnreadableFiles(1)],
        success: false,
        ..GOOD
    },
    // No line.
    Case {
        list: b"",
        report: b"",
        complaints: &[Complaint::NoLines],
        success: false,
        last: None,
        ..GOOD
    },
    // Missing files are left out.
    Case {
        options: IGNORING,
        list: b"8eb208f7e05d987a9b044a8e98c6b087f15a0bfc  abc\n\
            8eb208f7e05d987a9b044a8e98c6b087f15a0bfc  b\n",
        report: b"",
        ..GOOD
    },
    Case {
        options: IGNORING,
        list: b"8eb208f7e05d987a9b044a8e98c6b087f15a0bfc  b\n",
        report: b"",
        complaints: &[Complaint::NothingVerified],
        success: false,
        ..GOOD
    },
];

#[test]
fn lists_are_checked(rt: HostRuntime) -> Result<(), Fail> {
    let alloc = rt.alloc();
    for (number, case) in CASES.iter().chain(CASES).enumerate() {
        let memory = Memory {
            files: FILES,
            calls: Calls::failing_at(0),
        };
        let at_hand = if number < CASES.len() { 7 } else { 1 << 16 };
        let mut list = list_of(alloc, case.list, at_hand, 0)?;
        let mut layout = case.first;
        let mut page = Page::new(alloc, 0);
        let success = check_list(
            alloc,
            &memory,
            case.options,
            case.rules,
            &mut layout,
            &mut list,
            &mut page,
        )?;
        assert_eq!(rt; page.bytes.as_slice(), case.report);
        assert_eq!(rt; page.unreadable, case.unreadable);
        assert_eq!(rt; page.complaints.as_slice(), case.complaints);
        assert_eq!(rt; success, case.success);
        assert_eq!(rt; layout, case.last);
    }
    Ok(())
}

// Whichever read of the list fails, the check fails, says so, and reports on the lines before.
#[test]
fn each_read_of_a_list_may_fail(rt: HostRuntime) -> Result<(), Fail> {
    let alloc = rt.alloc();
    let mut failed = 0usize;
    for failing in 1..1000 {
        let mut page = Page::new(alloc, 0);
        let list = list_of(alloc, LIST, 7, failing)?;
        let success = check(alloc, list, Calls::failing_at(0), &mut page)?;
        assert!(rt; !success);
        assert!(rt; REPORT.starts_with(page.bytes.as_slice()));
        if page.bytes.as_slice() == REPORT {
            break;
        }
        failed = failed.saturating_add(1);
        assert_eq!(rt;
            page.complaints.as_slice(),
            [Complaint::Unreadable].as_slice()
        );
    }
    assert!(rt; failed > 10);
    Ok(())
}

// Whichever call of the folder fails, only the line of its file changes.
#[test]
fn each_call_of_a_folder_may_fail(rt: HostRuntime) -> Result<(), Fail> {
    let alloc = rt.alloc();
    let list =
        b"8eb208f7e05d987a9b044a8e98c6b087f15a0bfc  abc\n9c1185a5c5e9fc54612808977ee8f548b2258d31  empty\n";
    for failing in 1..7 {
        let mut page = Page::new(alloc, 0);
        let list = list_of(alloc, list, 1 << 16, 0)?;
        let calls = Calls::failing_at(failing);
        let success = check(alloc, list, calls, &mut page)?;
        let wanted: &[u8] = match failing {
            1..=3 => b"abc: FAILED open or read\nempty: OK\n",
            4 | 5 => b"abc: OK\nempty: FAILED open or read\n",
            _ => b"abc: OK\nempty: OK\n",
        };
        assert_eq!(rt; page.bytes.as_slice(), wanted, "call {failing}");
        assert_eq!(rt; success, failing == 6);
    }
    Ok(())
}

// Whichever write or remark fails, the check ends with its error, after the front of the report.
#[test]
fn each_write_may_fail(rt: HostRuntime) -> Result<(), Fail> {
    let alloc = rt.alloc();
    for failing in 1..1000 {
        let mut page = Page::new(alloc, failing);
        let list = list_of(alloc, LIST, 7, 0)?;
        let outcome = check(alloc, list, Calls::failing_at(0), &mut page);
        assert!(rt; REPORT.starts_with(page.bytes.as_slice()));
        if outcome.is_ok() {
            // Three groups of lines, the error of a file, the line that says so, and three counts.
            assert_eq!(rt; failing, 9);
            break;
        }
        assert!(rt; matches!(outcome, Err(Fault::Write(_))), "call {failing}");
        assert_eq!(rt; page.calls.made(), failing);
    }
    Ok(())
}
