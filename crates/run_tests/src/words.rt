//! Words that ask for no command, and those that ask for help and for the version.

use crate::runs::{Case, ENOUGH, GOOD, good, holds, unread, words_of};
use fixtures::texts::USAGE;
use gk_io::{MemShelf, SureSink};
use gkey_cmd::run;
use std::process::Abort;
use std::sync::Wait;
use std::thread::Threads;

/// Words that ask for no command.
static NO_COMMAND: [&'static [&'static str]; 31] = [
    &[],
    &["match", "g"],
    &["match", "g", "k", "k"],
    &["matched", "g", "k"],
    &["prove", "g"],
    &["check", "g", "k"],
    &["convert"],
    &["convert", "p", "p"],
    &["demo"],
    &["demo", "0"],
    &["demo", "100001"],
    &["prove", "--workers", "0", "g", "k"],
    &["match", "--worker", "4", "g", "k"],
    &["match", "--workers", "65", "g", "k"],
    &["match", "--workers", "04", "g", "k"],
    &["match"],
    &["help"],
    &["--Help"],
    &["--help="],
    &["--help", "match"],
    &["match", "--help"],
    &["--help", "--help"],
    &["--version", "--help"],
    &["--version", "g", "k"],
    &["--large"],
    &["--large", "--large", "match", "g", "k"],
    &["match", "--large", "g", "k"],
    &["match", "g", "k", "--large"],
    &["--large", "demo", "1"],
    &["--large", "--help"],
    &["--large", "--version"],
];

fn no_command() -> &'static [&'static [&'static str]] {
    &NO_COMMAND
}

/// What is said of words that ask for no command.
fn usage() -> &'static str {
    USAGE
}

#[test]
fn other_words_ask_for_no_command(rt: HostRuntime) {
    for (row, words) in no_command().iter().enumerate() {
        let case = Case {
            words,
            status: 64,
            out: b"",
            err: usage(),
            ..good()
        };
        assert!(rt; holds(&rt, &case), "row {row}");
    }
    // A word that begins with a dash is a name as any other.
    let dashes = Case {
        words: &["match", "--workers", "4"],
        ..unread(&[], "graph: read failed\n")
    };
    assert!(rt; holds(&rt, &dashes));
}

/// The calls of a run, each of which a shelf may fail at.
const CALLS: [u64; 8] = [1, 2, 3, 4, 5, 6, 7, 8];

/// The version, over a shelf that fails at each call.
const VERSION: Case<'static> = Case {
    words: &["--version"],
    reads: &CALLS,
    out: b"gkey 0.1.0\n",
    ..GOOD
};

fn version() -> Case<'static> {
    VERSION
}

#[test]
fn the_version_is_printed_whatever_the_shelf_does(rt: HostRuntime) {
    assert!(rt; holds(&rt, &version()));
    let reads_well = Case {
        reads: &[],
        most: 1,
        ..version()
    };
    assert!(rt; holds(&rt, &reads_well));
    let unwritten = Case {
        writes: &[2],
        most: 5,
        status: 4,
        out: b"gkey ",
        err: "output: write failed\n",
        ..version()
    };
    assert!(rt; holds(&rt, &unwritten));
}

/// Whether no line of the text has more than 80 bytes.
fn is_narrow(text: &[u8]) -> bool {
    let mut column = 0usize;
    for byte in text {
        column = if *byte == b'\n' {
            0
        } else {
            column.saturating_add(1)
        };
        if column > 80 {
            return false;
        }
    }
    true
}

/// Whether a text has narrow lines, and begins and ends so.
fn is_help(text: &[u8], first: &[u8], last: &[u8]) -> bool {
    text.starts_with(first) && text.ends_with(last) && is_narrow(text)
}

/// Whether help is a text of narrow lines that begins and ends so, over a shelf whose calls with these numbers fail.
fn helps<R: AllocGlobal + Threads + Wait + Sync + Abort>(
    rt: &R,
    reads: &[u64],
    first: &[u8],
    last: &[u8],
) -> bool {
    let alloc = rt.alloc();
    let words = words_of(alloc, &["--help"]).expect(rt, ENOUGH);
    let reads = reads.to_vec(alloc).expect(rt, ENOUGH);
    let mut shelf = MemShelf::new(Vec::new(alloc), 1, reads);
    let mut out = SureSink::new(alloc, 10_000).expect(rt, ENOUGH);
    let mut err = SureSink::new(alloc, 100).expect(rt, ENOUGH);
    let status = run(rt, alloc, &words, &mut shelf, &mut out, &mut err);
    status == 0 && err.bytes().is_empty() && is_help(out.bytes(), first, last)
}

/// The first line of help.
fn first_of_help() -> &'static [u8] {
    b"gkey: finds the entities of a graph that keys make the same, and proves it\n"
}

/// The last line of help.
fn last_of_help() -> &'static [u8] {
    b"\nThe guide is docs/GUIDE.md, and the manual page docs/gkey.1.\n"
}

#[test]
fn help_is_printed_whatever_the_shelf_does(rt: HostRuntime) {
    assert!(rt; helps(&rt, &[], first_of_help(), last_of_help()));
    assert!(rt; helps(&rt, &CALLS, first_of_help(), last_of_help()));
    let unwritten = Case {
        words: &["--help"],
        writes: &[1],
        status: 4,
        out: b"",
        err: "output: write failed\n",
        ..version()
    };
    assert!(rt; holds(&rt, &unwritten));
}
