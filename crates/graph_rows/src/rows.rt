//! The triples of a graph in numbers, and the names that the numbers stand for.

ghost use Rattle.std.specs.Prelude.{◌≡◌, ◌<◌, ◌+◌, ◌*◌, ◌^◌, [], ◌++◌, length, OnOk, List};
ghost use Rattle.gk_base.specs.declared.term.Triple.{Triple as AnyTriple};
ghost use Rattle.graph_rows.specs.Rows.{StandFor};
ghost use Rattle.graph_rows.specs.Threes.{in_threes};

use gk_base::NoMemory;
use std::alloc::Global;
use std::thread::Threads;
use term_list::Triples;
use term_table::Names;

/// A graph has about one name for so many of its bytes. It is rather too few: room for too many names costs little, and where
/// it is a little short all marks are moved once more.
const BYTES_A_NAME: u64 = 128;

/// Room is made for so many names at most before they come, whatever the size of the file is said to be: a guess of the shelf
/// must not cost more than this.
const MOST_EXPECTED: u64 = 1 << 22;

/// Triples in numbers, each a row of subject, predicate and object, in their order and with repeats. A number stands for the
/// name at its place. Triples may come a few at a time, and only a term that is no name yet is kept.
#[derive(Drop)]
pub struct Rows {
    /// The distinct terms of the triples, in the order in which they first come.
    pub names: Names,
    /// A row for each triple.
    pub rows: Vec<[u32; 3]>,
}

/// Appends these numbers as rows, three a row.
fn push_rows(rows: &mut Vec<[u32; 3]>, numbers: &[u32]) -> Result<(), NoMemory>
    ensures { OnOk result (rows.new.items ≡ rows.old.items ++ in_threes numbers.now) }
{
    let mut at = 0;
    while numbers.len() - at >= 3 {
        rows.push([numbers[at], numbers[at + 1], numbers[at + 2]])?;
        at += 3;
    }
    Ok(())
}

impl Rows {
    /// No triples, whose names will be looked up by hashes that begin with this seed, if there is one. It takes no memory.
    pub(crate) fn new(alloc: Global, seed: Option<u64>) -> Rows
        ensures { StandFor result [] }
    {
        Rows {
            names: match seed {
                Some(seed) => Names::with_seed(alloc, seed),
                None => Names::new(alloc),
            },
            rows: Vec::new(alloc),
        }
    }

    /// Makes room for about as many names as a graph of so many bytes has, before they come.
    pub(crate) fn expect(&mut self, bytes: u64)
        ensures { self.new ≡ self.old }
    {
        self.names
            .expect((bytes / BYTES_A_NAME).min(MOST_EXPECTED) as u32);
    }

    /// Numbers these triples, behind those that came before. It leaves the list empty. `threads` says how many threads may look
    /// their terms up, the caller's among them; the numbers are the same.
    pub(crate) fn add<R: Threads + Sync>(
        &mut self,
        rt: &R,
        threads: u32,
        triples: &mut Triples,
    ) -> Result<(), NoMemory>
        requires { length self.old.names + 3 * length triples.old < 2 ^ 32 }
        ensures empty { OnOk result (triples.new ≡ []) }
        ensures stand { OnOk result ((before : List AnyTriple) → StandFor self.old before → StandFor self.new (before ++ triples.old)) }
    {
        let numbers = self
            .names
            .intern_all_in_threads(rt, threads, triples.terms())?;
        push_rows(&mut self.rows, &numbers)?;
        triples.clear();
        Ok(())
    }
}
