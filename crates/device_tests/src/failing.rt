//! Each call of the shelf, and each of the output, fails in turn, at every command.

ghost use Rattle.std.specs.Prelude.{◌<◌};

use crate::ends::{Command, end_of};
use fixtures::texts::{ALBUM_PROOF, ALBUMS_MERGED};
use std::process::Abort;
use std::sync::Wait;
use std::thread::Threads;

const GRAPH: &str = "graph: read failed\n";

const KEYS: &str = "keys: read failed\n";

const PROOF: &str = "proof: read failed\n";

/// More calls than a run makes of a device.
const MOST_CALLS: u64 = 200;

/// Each command with files.
static COMMANDS: [Command; 6] = [
    Command {
        words: &["match", "g", "k"],
        out: "<urn:al1> <urn:al2>\n",
        unread: &[GRAPH, KEYS],
    },
    Command {
        words: &["prove", "g", "k"],
        out: ALBUM_PROOF,
        unread: &[GRAPH, KEYS],
    },
    Command {
        words: &["check", "g", "k", "p"],
        out: "accepted 1\n",
        unread: &[GRAPH, KEYS, PROOF],
    },
    Command {
        words: &["convert", "p"],
        out: ALBUM_PROOF,
        unread: &[PROOF],
    },
    Command {
        words: &["merge", "g", "k"],
        out: ALBUMS_MERGED,
        unread: &[GRAPH, KEYS],
    },
    Command {
        words: &["why", "g", "k", "<urn:al1>", "<urn:al2>"],
        out: ALBUM_PROOF,
        unread: &[GRAPH, KEYS],
    },
];

fn commands() -> &'static [Command] {
    &COMMANDS
}

/// The place of the text among these from a place on, if it is there.
fn place_of(err: &[u8], texts: &[&str], from: usize) -> Option<usize> {
    for place in from..texts.len() {
        if texts[place].as_bytes() == err {
            return Some(place);
        }
    }
    None
}

/// Whether each run with a failing call of the shelf writes nothing and names the file that failed, each of the command's
/// files in its turn, up to the first run in which no call fails.
fn names_its_files<R: AllocGlobal + Threads + Wait + Sync + Abort>(
    rt: &R,
    command: &Command,
) -> bool {
    let mut named = 0usize;
    for call in 1u64..MOST_CALLS {
        let end = end_of(rt, command, call, 0, 64);
        if end.status == 0 {
            let whole = end.out.as_slice() == command.out.as_bytes() && end.err.is_empty();
            return whole && call > 1 && named.saturating_add(1) == command.unread.len();
        }
        let Some(place) = place_of(&end.err, command.unread, named) else {
            return false;
        };
        if end.status != 3 || !end.out.is_empty() || place > named.saturating_add(1) {
            return false;
        }
        named = place;
    }
    false
}

/// Whether each run with a failing call of the output, which takes so many bytes at once, leaves exactly what was taken before,
/// up to the first run in which no call fails.
fn leaves_a_front<R: AllocGlobal + Threads + Wait + Sync + Abort>(
    rt: &R,
    command: &Command,
    most: usize,
) -> bool
    requires { 0 < most }
{
    let whole = command.out.as_bytes();
    let mut taken = 0usize;
    for call in 1u64..MOST_CALLS {
        let end = end_of(rt, command, 0, call, most);
        if taken >= whole.len() {
            return end.status == 0 && end.out.as_slice() == whole && end.err.is_empty();
        }
        let told = end.status == 4 && end.err.as_slice() == "output: write failed\n".as_bytes();
        if !told || end.out.as_slice() != &whole[..taken] {
            return false;
        }
        taken = taken.saturating_add(most);
    }
    false
}

#[test]
fn each_failing_call_of_the_shelf_names_its_file(rt: HostRuntime) {
    for (row, command) in commands().iter().enumerate() {
        assert!(rt; names_its_files(&rt, command), "row {row}");
    }
}

#[test]
fn each_failing_call_of_the_output_leaves_a_front(rt: HostRuntime) {
    for (row, command) in commands().iter().enumerate() {
        assert!(rt;
            leaves_a_front(&rt, command, 1),
            "row {row}, a byte at once"
        );
        assert!(rt;
            leaves_a_front(&rt, command, 5),
            "row {row}, 5 bytes at once"
        );
        assert!(rt;
            leaves_a_front(&rt, command, 64),
            "row {row}, 64 bytes at once"
        );
    }
}
