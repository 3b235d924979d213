//! Runs over files in memory, the two albums above all: limits, devices that fail, and demos.

ghost use Rattle.std.specs.Prelude.{◌<◌, ◌^◌, IfSome, IsTrue};
ghost use Rattle.gkey_cmd.specs.Limits.{AreProgramLimits, CanBeKept};

use crate::texts::{album_key, albums};
use fixtures::texts::{ALBUM_KEY, ALBUMS, ONE_VALUE, TWO_VALUES};
use gk_base::{Limits, NoMemory, Text};
use gk_io::{MemShelf, MemSink, SureShelf, SureSink};
use gkey_cmd::{ProgramLimits, run, run_gated};
use std::alloc::Global;
use std::process::Abort;
use std::sync::Wait;
use std::thread::Threads;
use steal_pool::OpenGate;

const TWO_TYPES: &[u8] = b"\
<urn:f> <http://www.w3.org/1999/02/22-rdf-syntax-ns#type> <urn:D> .
<urn:f> <http://www.w3.org/1999/02/22-rdf-syntax-ns#type> <urn:T> .
<urn:g> <http://www.w3.org/1999/02/22-rdf-syntax-ns#type> <urn:T> .
<urn:h> <http://www.w3.org/1999/02/22-rdf-syntax-ns#type> <urn:D> .
<urn:f> <urn:p> \"1\" .
<urn:f> <urn:p> \"1\" .
<urn:g> <urn:p> \"1\" .
<urn:h> <urn:p> \"1\" .
<urn:f> <urn:q> \"1\" .
<urn:g> <urn:q> \"1\" .
";

const TYPE_AS_VALUE: &[u8] = b"\
key k <urn:T>
value $v
?x <http://www.w3.org/1999/02/22-rdf-syntax-ns#type> $v
end
";

const ORDERED: &[u8] = b"\
<urn:b> <http://www.w3.org/1999/02/22-rdf-syntax-ns#type> <urn:T> .
<urn:a> <http://www.w3.org/1999/02/22-rdf-syntax-ns#type> <urn:T> .
<urn:a:1> <http://www.w3.org/1999/02/22-rdf-syntax-ns#type> <urn:T> .
<urn:b> <urn:p> \"1\" .
<urn:a> <urn:p> \"1\" .
<urn:a:1> <urn:p> \"1\" .
";

const TWO_CLASSES: &[u8] = b"\
<urn:c> <http://www.w3.org/1999/02/22-rdf-syntax-ns#type> <urn:T> .
<urn:b> <http://www.w3.org/1999/02/22-rdf-syntax-ns#type> <urn:T> .
<urn:a> <http://www.w3.org/1999/02/22-rdf-syntax-ns#type> <urn:T> .
<urn:a:1> <http://www.w3.org/1999/02/22-rdf-syntax-ns#type> <urn:T> .
<urn:d> <http://www.w3.org/1999/02/22-rdf-syntax-ns#type> <urn:T> .
<urn:c> <urn:p> \"1\" .
<urn:b> <urn:p> \"1\" .
<urn:a> <urn:p> \"2\" .
<urn:a:1> <urn:p> \"2\" .
<urn:d> <urn:p> \"3\" .
";

/// A run over the files `g`, `k` and `p`, the calls that fail, and what it must leave.
#[derive(Clone, Copy)]
pub struct Case<'a> {
    pub words: &'a [&'a str],
    pub graph: &'a [u8],
    pub keys: &'a [u8],
    pub proof: &'a [u8],
    pub reads: &'a [u64],
    pub writes: &'a [u64],
    /// The most bytes that a call gives or takes.
    pub most: usize,
    pub limits: Limits,
    /// The limits with `--large`; those of the program where there are none.
    pub large: Option<Limits>,
    pub status: u8,
    pub out: &'a [u8],
    pub err: &'a str,
}

/// Two albums with the same name and year, in constants. Functions take `good`, which shows their proofs none of its bytes.
pub const GOOD: Case<'static> = Case {
    words: &["match", "g", "k"],
    graph: ALBUMS,
    keys: ALBUM_KEY,
    proof: b"",
    reads: &[],
    writes: &[],
    most: 65_536,
    limits: Limits::STANDARD,
    large: None,
    status: 0,
    out: b"<urn:al1> <urn:al2>\n",
    err: "",
};

/// The same.
pub fn good() -> Case<'static> {
    GOOD
}

/// The words of a run.
pub fn words_of(alloc: Global, words: &[&str]) -> Result<Vec<Text>, NoMemory> {
    let mut made = Vec::new(alloc);
    for word in words {
        made.push(Text::from_bytes(alloc, word.as_bytes())?)?;
    }
    Ok(made)
}

/// Adds a file with its name.
fn add_file(
    alloc: Global,
    files: &mut Vec<(Text, Vec<u8>)>,
    name: &str,
    content: &[u8],
) -> Result<(), NoMemory> {
    let name = Text::from_bytes(alloc, name.as_bytes())?;
    files.push((name, Vec::from_slice(alloc, content)?))?;
    Ok(())
}

/// The files `g`, `k` and `p` of a run.
pub fn files_of(
    alloc: Global,
    graph: &[u8],
    keys: &[u8],
    proof: &[u8],
) -> Result<Vec<(Text, Vec<u8>)>, NoMemory> {
    let mut files = Vec::new(alloc);
    add_file(alloc, &mut files, "g", graph)?;
    add_file(alloc, &mut files, "k", keys)?;
    add_file(alloc, &mut files, "p", proof)?;
    Ok(files)
}

/// What a test ends with where there is no memory for it.
pub const ENOUGH: &str = "enough memory";

/// The shelf of a case.
fn shelf_of(alloc: Global, case: &Case<'_>) -> Result<MemShelf, NoMemory>
    requires { 0 < case.now.most }
{
    let files = files_of(alloc, case.graph, case.keys, case.proof)?;
    Ok(MemShelf::new(files, case.most, case.reads.to_vec(alloc)?))
}

/// The output of a case.
fn output_of(alloc: Global, case: &Case<'_>) -> Result<MemSink, NoMemory>
    requires { 0 < case.now.most }
{
    MemSink::new(alloc, case.most, 1000, case.writes.to_vec(alloc)?)
}

/// Whether no limit is beyond that of the program without `--large`.
fn is_within(limits: &Limits) -> bool
    ensures { IsTrue result → CanBeKept limits.now × (limits.now.pairs < 2 ^ 32) }
{
    let standard = Limits::STANDARD;
    limits.bytes <= standard.bytes
        && limits.key_bytes <= standard.key_bytes
        && limits.triples <= standard.triples
        && limits.pairs <= standard.pairs
}

/// The limits of a case's run; none where one is beyond that of the program.
fn limits_of(case: &Case<'_>) -> Option<ProgramLimits>
    ensures { IfSome result AreProgramLimits }
{
    let standard = ProgramLimits::STANDARD;
    let plain = case.limits;
    if !is_within(&plain) {
        return None;
    }
    match case.large {
        Some(large) if is_within(&large) => Some(ProgramLimits { plain, large }),
        Some(_) => None,
        None => Some(ProgramLimits { plain, ..standard }),
    }
}

/// The status of a case's run over these devices; none where a limit is beyond that of the program.
fn status_over<R: AllocGlobal + Threads + Wait + Sync + Abort>(
    rt: &R,
    case: &Case<'_>,
    shelf: &mut MemShelf,
    out: &mut MemSink,
    err: &mut MemSink,
) -> Option<u8> {
    let limits = limits_of(case)?;
    let alloc = rt.alloc();
    let words = words_of(alloc, case.words).expect(rt, ENOUGH);
    Some(run_gated(rt, alloc, &words, shelf, out, err, &limits, &OpenGate))
}

/// What a run left.
#[derive(PartialEq, Eq, Drop)]
pub struct Left {
    pub status: u8,
    pub out: Vec<u8>,
    pub err: Vec<u8>,
}

/// What a run left that ended with this status, where it ended with one.
fn left_at<R: AllocGlobal + Abort>(
    rt: &R,
    status: Option<u8>,
    out: &[u8],
    err: &[u8],
) -> Option<Left> {
    Some(Left {
        status: status?,
        out: out.to_vec(rt.alloc()).expect(rt, ENOUGH),
        err: err.to_vec(rt.alloc()).expect(rt, ENOUGH),
    })
}

/// What the run of a case leaves; none where a limit is beyond that of the program.
pub fn left_by<R: AllocGlobal + Threads + Wait + Sync + Abort>(
    rt: &R,
    case: &Case<'_>,
) -> Option<Left> {
    if case.most == 0 {
        return None;
    }
    let alloc = rt.alloc();
    let mut shelf = shelf_of(alloc, case).expect(rt, ENOUGH);
    let mut out = output_of(alloc, case).expect(rt, ENOUGH);
    let mut err = MemSink::new(alloc, 1000, 1000, Vec::new(alloc)).expect(rt, ENOUGH);
    let status = status_over(rt, case, &mut shelf, &mut out, &mut err);
    left_at(rt, status, out.bytes(), err.bytes())
}

/// Whether the run leaves what it must.
pub fn holds<R: AllocGlobal + Threads + Wait + Sync + Abort>(rt: &R, case: &Case<'_>) -> bool {
    match left_by(rt, case) {
        Some(left) => {
            left.status == case.status
                && left.out.as_slice() == case.out
                && left.err.as_slice() == case.err.as_bytes()
        }
        None => false,
    }
}

/// Graphs with keys, and what is printed.
static ANSWERED: [(&[u8], &[u8], &str); 9] = [
    (ALBUMS, ALBUM_KEY, "<urn:al1> <urn:al2>\n"),
    (b"", ALBUM_KEY, ""),
    (ALBUMS, b"", ""),
    (ALBUMS, ONE_VALUE, ""),
    (TWO_TYPES, ONE_VALUE, "<urn:f> <urn:g>\n"),
    (TWO_TYPES, TWO_VALUES, ""),
    (TWO_TYPES, TYPE_AS_VALUE, ""),
    (ORDERED, ONE_VALUE, "<urn:a:1> <urn:a> <urn:b>\n"),
    (
        TWO_CLASSES,
        ONE_VALUE,
        "<urn:a:1> <urn:a>\n<urn:b> <urn:c>\n",
    ),
];

fn answered() -> &'static [(&'static [u8], &'static [u8], &'static str)] {
    &ANSWERED
}

#[test]
fn matches_print_their_classes(rt: HostRuntime) {
    for (row, (graph, keys, out)) in answered().iter().enumerate() {
        let case = Case {
            graph,
            keys,
            out: out.as_bytes(),
            ..good()
        };
        assert!(rt; holds(&rt, &case), "row {row}");
    }
    assert!(rt; holds(&rt, &Case { most: 1, ..good() }));
}

/// Limits, and how they refuse the albums.
static LIMITED: [(Limits, &str); 4] = [
    (
        Limits {
            bytes: 10,
            ..Limits::STANDARD
        },
        "graph:1: file too long\n",
    ),
    (
        Limits {
            triples: 5,
            ..Limits::STANDARD
        },
        "graph:6: too many triples\n",
    ),
    (
        Limits {
            key_bytes: 10,
            ..Limits::STANDARD
        },
        "keys:1: file too long\n",
    ),
    (
        Limits {
            pairs: 0,
            ..Limits::STANDARD
        },
        "pairs: more than 0\n",
    ),
];

fn limited() -> &'static [(Limits, &'static str)] {
    &LIMITED
}

#[test]
fn limits_refuse_what_is_beyond_them(rt: HostRuntime) {
    for (row, (limits, err)) in limited().iter().enumerate() {
        let case = Case {
            limits: *limits,
            status: 2,
            out: b"",
            err,
            ..good()
        };
        assert!(rt; holds(&rt, &case), "row {row}");
    }
    let enough = Limits {
        pairs: 1,
        ..Limits::STANDARD
    };
    let case = Case {
        limits: enough,
        ..good()
    };
    assert!(rt; holds(&rt, &case));
}

/// A run that can't read a file.
pub fn unread<'a>(reads: &'a [u64], err: &'a str) -> Case<'a> {
    Case {
        reads,
        status: 3,
        out: b"",
        err,
        ..good()
    }
}

#[test]
fn failures_name_their_file(rt: HostRuntime) {
    for call in 1u64..7 {
        let err = if call <= 3 {
            "graph: read failed\n"
        } else {
            "keys: read failed\n"
        };
        assert!(rt; holds(&rt, &unread(&[call], err)), "call {call}");
    }
    let last = Case {
        reads: &[7],
        ..good()
    };
    assert!(rt; holds(&rt, &last));
    let missing = Case {
        words: &["match", "none", "k"],
        ..unread(&[], "graph: read failed\n")
    };
    assert!(rt; holds(&rt, &missing));
}

/// Whether a run leaves what it must of which this call of a write fails, and each takes so many bytes at the most.
fn leaves_a_front<R: AllocGlobal + Threads + Wait + Sync + Abort>(
    rt: &R,
    call: u64,
    most: usize,
) -> bool {
    let writes = [call];
    let case = Case {
        writes: &writes,
        most,
        ..good()
    };
    let taken = (call.saturating_sub(1) as usize).saturating_mul(most);
    if taken >= case.out.len() {
        return holds(rt, &case);
    }
    let failed = Case {
        status: 4,
        out: &case.out[..taken],
        err: "output: write failed\n",
        ..case
    };
    holds(rt, &failed)
}

#[test]
fn failed_writes_leave_a_front(rt: HostRuntime) {
    for most in [1usize, 5, 64] {
        for call in 1u64..21 {
            assert!(rt;
                leaves_a_front(&rt, call, most),
                "call {call} of {most} bytes"
            );
        }
    }
}

/// A demo, over a shelf that fails at its first call.
const DEMO: Case<'static> = Case {
    words: &["demo", "1"],
    reads: &[1],
    out: b"triples 6 pairs 1 classes 1 members 2\n",
    ..GOOD
};

/// A demo that limits refuse.
const REFUSED_DEMO: Case<'static> = Case {
    words: &["demo", "2"],
    status: 2,
    out: b"",
    ..DEMO
};

/// Demos, and what they print or how they are refused.
static DEMOS: [Case<'static>; 4] = [
    DEMO,
    Case {
        words: &["demo", "1000"],
        out: b"triples 6000 pairs 1000 classes 1000 members 2000\n",
        ..DEMO
    },
    Case {
        limits: Limits {
            triples: 6,
            ..Limits::STANDARD
        },
        err: "graph:7: too many triples\n",
        ..REFUSED_DEMO
    },
    Case {
        limits: Limits {
            pairs: 1,
            ..Limits::STANDARD
        },
        err: "pairs: more than 1\n",
        ..REFUSED_DEMO
    },
];

fn demos() -> &'static [Case<'static>] {
    &DEMOS
}

#[test]
fn demos_print_their_counts(rt: HostRuntime) {
    for (row, case) in demos().iter().enumerate() {
        assert!(rt; holds(&rt, case), "row {row}");
    }
}

/// The status of a match of the albums over a shelf that does not fail.
fn status_of_albums<R: AllocGlobal + Threads + Wait + Sync + Abort>(
    rt: &R,
    out: &mut SureSink,
    err: &mut SureSink,
) -> u8 {
    let alloc = rt.alloc();
    let words = words_of(alloc, good().words).expect(rt, ENOUGH);
    let files = files_of(alloc, albums(), album_key(), b"").expect(rt, ENOUGH);
    let mut shelf = SureShelf::new(files);
    run(rt, alloc, &words, &mut shelf, out, err)
}

#[test]
fn albums_match_over_devices_that_do_not_fail(rt: HostRuntime) {
    let mut out = SureSink::new(rt.alloc(), 100).expect(&rt, ENOUGH);
    let mut err = SureSink::new(rt.alloc(), 100).expect(&rt, ENOUGH);
    let status = status_of_albums(&rt, &mut out, &mut err);
    assert_eq!(rt; status, 0);
    assert_eq!(rt; out.bytes(), b"<urn:al1> <urn:al2>\n".as_slice());
    assert!(rt; err.bytes().is_empty());
}
