//! A graph in numbers: what it is built from, and the look-ups in it.

ghost use Rattle.std.specs.Prelude.{◌≡◌, ◌<◌, ◌≤◌, ◌^◌, [], ◌∷◌, List, ◌↔◌, ℕ, All, Contains, IfOk, IsTrue, length, slice_index};
ghost use Rattle.std.specs.Option.{ForSome};
ghost use Rattle.std.specs.Ordering.{nat_cmp};
ghost use Rattle.std.specs.Cmp.Lexicographic.{slice_cmp};
ghost use Rattle.std.specs.List.Sorted.{IsStrictlyIncreasing, IsStrictlySortedBy};
ghost use Rattle.chase_laws.specs.Graph.{NumberedGraph, IsGraph, IsFolding, HasRow, HasType, IsLiteral, IsEntity};
ghost use Rattle.chase_laws.specs.Valuation.{FitsSlot};
ghost use Rattle.typed_graph.specs.Table.{TableHas};
ghost use Rattle.typed_graph.specs.Types.{AreTypes, IsTrueOf};

use crate::Index;
use crate::ascending::holds;
use crate::orders::{SortedRows, both_orders, index_forward};
use crate::rows::{sorted, turn};
use crate::types::TypesOf;
use chase_laws::Slot;
use gk_base::NoMemory;
use std::alloc::Global;
use std::marker::Model;
use std::thread::Threads;

/// A graph whose names are the numbers below `names()`, with its rows in order and two indexes of them. Contracts see
/// it as the rows, the literals' flags, the number of `rdf:type` where that is a name, and what each name is alike to.
/// Each look-up answers for every number: one that is no name has empty lists and the answer false.
#[derive(Drop)]
pub struct Graph {
    rows: Vec<[u32; 3]>,
    literal: Vec<bool>,
    rdf_type: Option<u32>,
    alike: Vec<u32>,
    /// The rows as subject, predicate, object.
    forward: Index,
    /// The rows as object, predicate, subject.
    backward: Index,
    /// What is kept of each name's types.
    types: Vec<TypesOf>,
}

impl Model for Graph {
    ghost use Rattle.chase_laws.specs.Graph.{NumberedGraph};

    ghost Value = { NumberedGraph };

    ghost use Rattle.typed_graph.specs.Indexed.{indexed_graph, IsIndexed};

    ghost view = { indexed_graph };

    ghost invariant = { IsIndexed };
}

/// Below so many rows a thread costs more than it saves.
const FEW: usize = 4096;

/// The graph of rows in both orders.
fn assembled(
    sorted: SortedRows,
    backward: Index,
    literal: Vec<bool>,
    rdf_type: Option<u32>,
    alike: Vec<u32>,
) -> Graph
    requires ascending { IsStrictlySortedBy (slice_cmp nat_cmp) sorted.rows.items }
    requires three { All (λ row. length row ≡ 3) sorted.rows.items }
    requires forward { (n p c : ℕ) → TableHas sorted.forward n p c ↔ Contains sorted.rows.items (n ∷ p ∷ c ∷ []) }
    requires backward { (n p c : ℕ) → TableHas backward n p c ↔ Contains sorted.rows.items (c ∷ p ∷ n ∷ []) }
    requires types { AreTypes sorted.forward rdf_type (length literal.items) sorted.types.items }
    requires named { All (λ row. All (λ n. n < length literal.items) row) sorted.rows.items }
    requires type_named { ForSome rdf_type (λ p. p < length literal.items) }
    requires folding { IsFolding (record { rows = sorted.rows.items; literal = literal.items; rdf_type = rdf_type; alike = alike.items }) }
    requires few { length literal.items < 2 ^ 32 }
    ensures rows { result.rows ≡ sorted.rows.items }
    ensures literal { result.literal ≡ literal.items }
    ensures rdf_type { result.rdf_type ≡ rdf_type }
    ensures alike { result.alike ≡ alike.items }
{
    let SortedRows {
        rows,
        forward,
        types,
    } = sorted;
    Graph {
        rows,
        literal,
        rdf_type,
        alike,
        forward,
        backward,
        types,
    }
}

impl Graph {
    /// Sorts the rows and builds the indexes. `rows` may come in any order and with repeats; `names` is how many names
    /// there are, `literal` has a flag for each, `rdf_type` is the number of `rdf:type` where that is a name, and
    /// `alike` says what each name is alike to. Fails only for want of memory.
    pub fn build(
        alloc: Global,
        rows: Vec<[u32; 3]>,
        names: u32,
        literal: Vec<bool>,
        rdf_type: Option<u32>,
        alike: Vec<u32>,
    ) -> Result<Graph, NoMemory>
        requires named { All (λ row. All (λ n. n < names) row) rows.items }
        requires flags { length literal.items ≡ names }
        requires type_named { ForSome rdf_type (λ p. p < names) }
        requires folding { IsFolding (record { rows = rows.items; literal = literal.items; rdf_type = rdf_type; alike = alike.items }) }
        ensures rows { IfOk result (λ g. (row : List ℕ) → Contains g.rows row ↔ Contains rows.items row) }
        ensures ascending { IfOk result (λ g. IsStrictlySortedBy (slice_cmp nat_cmp) g.rows) }
        ensures literal { IfOk result (λ g. g.literal ≡ literal.items) }
        ensures rdf_type { IfOk result (λ g. g.rdf_type ≡ rdf_type) }
        ensures alike { IfOk result (λ g. g.alike ≡ alike.items) }
    {
        let forward = index_forward(alloc, sorted(rows), names, rdf_type)?;
        let backward = Index::build(alloc, turn(alloc, &forward.rows)?, names)?;
        Ok(assembled(forward, backward, literal, rdf_type, alike))
    }

    /// Does what `build` does by so many threads, the caller's among them. With 2 or more, one order of the rows is made in a
    /// new thread and each is sorted in several, unless there are few rows; where none can be started, the caller's makes
    /// both. The graph is the same.
    pub fn build_in_threads<R: Threads + Sync>(
        rt: &R,
        alloc: Global,
        threads: u32,
        rows: Vec<[u32; 3]>,
        names: u32,
        literal: Vec<bool>,
        rdf_type: Option<u32>,
        alike: Vec<u32>,
    ) -> Result<Graph, NoMemory>
        requires named { All (λ row. All (λ n. n < names) row) rows.items }
        requires flags { length literal.items ≡ names }
        requires type_named { ForSome rdf_type (λ p. p < names) }
        requires folding { IsFolding (record { rows = rows.items; literal = literal.items; rdf_type = rdf_type; alike = alike.items }) }
        ensures rows { IfOk result (λ g. (row : List ℕ) → Contains g.rows row ↔ Contains rows.items row) }
        ensures ascending { IfOk result (λ g. IsStrictlySortedBy (slice_cmp nat_cmp) g.rows) }
        ensures literal { IfOk result (λ g. g.literal ≡ literal.items) }
        ensures rdf_type { IfOk result (λ g. g.rdf_type ≡ rdf_type) }
        ensures alike { IfOk result (λ g. g.alike ≡ alike.items) }
    {
        if threads < 2 || rows.len() < FEW {
            return Graph::build(alloc, rows, names, literal, rdf_type, alike);
        }
        let (sorted, backward) = both_orders(rt, alloc, rows, names, rdf_type)?;
        Ok(assembled(sorted, backward, literal, rdf_type, alike))
    }

    /// The rows, ascending without repeats: by subject, then predicate, then object.
    pub fn rows(&self) -> &[[u32; 3]]
        ensures rows { result.now ≡ self.now.rows }
        ensures ascending { IsStrictlySortedBy (slice_cmp nat_cmp) self.now.rows }
        ensures three { All (λ row. length row ≡ 3) self.now.rows }
    {
        &self.rows
    }

    /// How many names there are. The names are the numbers below.
    pub fn names(&self) -> u32
        ensures names { result ≡ length self.now.literal }
        ensures few { length self.now.literal < 2 ^ 32 }
        ensures graph { IsGraph self.now }
        ensures folding { IsFolding self.now }
        ensures type_named { ForSome self.now.rdf_type (λ p. p < length self.now.literal) }
    {
        self.literal.len() as u32
    }

    /// The objects of the rows with subject `n` and predicate `p`, ascending without repeats.
    pub fn outgoing(&self, n: u32, p: u32) -> &[u32]
        ensures ascending { IsStrictlyIncreasing result.now }
        ensures exact { (o : ℕ) → Contains result.now o ↔ HasRow self.now n p o }
        ensures named { All (λ m. m < length self.now.literal) result.now }
    {
        self.forward.find(n, p)
    }

    /// The subjects of the rows with object `n` and predicate `p`, ascending without repeats.
    pub fn incoming(&self, n: u32, p: u32) -> &[u32]
        ensures ascending { IsStrictlyIncreasing result.now }
        ensures exact { (s : ℕ) → Contains result.now s ↔ HasRow self.now s p n }
        ensures named { All (λ m. m < length self.now.literal) result.now }
    {
        self.backward.find(n, p)
    }

    /// What has the type `t`, ascending without repeats.
    pub fn with_type(&self, t: u32) -> &[u32]
        ensures ascending { IsStrictlyIncreasing result.now }
        ensures exact { (n : ℕ) → Contains result.now n ↔ HasType self.now n t }
        ensures named { All (λ m. m < length self.now.literal) result.now }
    {
        match self.rdf_type {
            Some(p) => self.incoming(t, p),
            None => &[],
        }
    }

    /// Whether the row is in the graph.
    pub fn has(&self, s: u32, p: u32, o: u32) -> bool
        ensures { IsTrue result ↔ HasRow self.now s p o }
    {
        if self.forward.count(s) <= self.backward.count(o) {
            holds(self.outgoing(s, p), o)
        } else {
            holds(self.incoming(o, p), s)
        }
    }

    /// What is kept of the types of `n`.
    fn types_of(&self, n: u32) -> TypesOf
        ensures { IsTrueOf result (λ t. HasType self.now n t) }
    {
        let at = n as usize;
        if at < self.types.len() {
            self.types[at]
        } else {
            TypesOf::Untyped
        }
    }

    /// Whether the rows have `t` as a type of `n`.
    fn has_type_row(&self, n: u32, t: u32) -> bool
        ensures { IsTrue result ↔ HasType self.now n t }
    {
        match self.rdf_type {
            Some(p) => self.has(n, p, t),
            None => false,
        }
    }

    /// Whether `t` is a type of `n`: one look where `n` has at most one type.
    pub fn has_type(&self, n: u32, t: u32) -> bool
        ensures { IsTrue result ↔ HasType self.now n t }
    {
        match self.types_of(n) {
            TypesOf::Untyped => false,
            TypesOf::One(only) => only == t,
            TypesOf::Several => self.has_type_row(n, t),
        }
    }

    /// Whether `n` may stand at a slot: by its type, its kind or, at a constant, by what it is.
    pub fn fits_slot(&self, slot: Slot, n: u32) -> bool
        ensures { IsTrue result ↔ FitsSlot self.now slot n }
    {
        match slot {
            Slot::Entity(t) | Slot::Any(t) => self.has_type(n, t) && !self.is_literal(n),
            Slot::Value | Slot::Folded => self.is_literal(n),
            Slot::Fixed(c) => n == c,
        }
    }

    /// Whether `n` is a literal.
    pub fn is_literal(&self, n: u32) -> bool
        ensures { IsTrue result ↔ IsLiteral self.now n }
    {
        let at = n as usize;
        at < self.literal.len() && self.literal[at]
    }

    /// Whether `n` is an entity: no literal, and the subject or the object of a row.
    pub fn is_entity(&self, n: u32) -> bool
        ensures { IsTrue result ↔ IsEntity self.now n }
    {
        if self.is_literal(n) {
            return false;
        }
        if self.forward.begins(n) {
            return true;
        }
        self.backward.begins(n)
    }

    /// The number of the name that `n` is alike to, which is not above `n`.
    pub fn alike(&self, n: u32) -> u32
        requires { n < length self.now.literal }
        ensures alike { result ≡ slice_index self.now.alike n }
        ensures not_above { result ≤ n }
    {
        self.alike[n as usize]
    }
}
