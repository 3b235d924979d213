//! A book: the labels, members and sizes of classes, the journal, and the call that enters an identification.

ghost use Rattle.std.specs.Prelude.{◌≡◌, ◌<◌, ◌≤◌, ◌↔◌, ◌++◌, [], ◌∷◌, ◌+◌, ◌-◌, ◌*◌, ℕ, Some, length, slice_index, slice_get, IfOk, IfSome, IsNone, IsTrue};
ghost use Rattle.list_pool.specs.Pool.{joined_lists};
ghost use Rattle.chase_laws.specs.Joined.{Joined};
ghost use Rattle.class_book.specs.Classes.{class_of, EndsAreNodes, IsClass, IsLabelled, relabelled, going, staying, changed_count, size_of};

use crate::choice::stay_and_go;
use crate::fresh::{numbers, ones, singles};
use crate::merge::merge;
use chase_laws::Entry;
use chase_laws::laws::law_joined;
use gk_base::NoMemory;
use list_pool::Pool;
use std::alloc::Global;
use std::marker::Model;

/// Nodes with numbers from 0 in classes, and the journal of the identifications that made the classes. Contracts see
/// a label for each node, a list of members for each label, the journal, and how many identifications there may be.
#[derive(Drop)]
pub struct Book {
    labels: Vec<u32>,
    sizes: Vec<u32>,
    members: Pool,
    journal: Vec<Entry>,
}

impl Model for Book {
    ghost use Rattle.std.specs.Prelude.{vec_capacity};
    ghost use Rattle.class_book.specs.Classes.{Classes};
    ghost use Rattle.class_book.specs.Roster.{IsBook};

    ghost Value = { Classes };

    ghost view = { λ b. record { labels = b.labels.items; members = b.members.lists; journal = b.journal.items; room = vec_capacity b.journal } };

    ghost invariant = { λ b. IsBook b.labels.items b.sizes.items b.members.lists b.journal.items (vec_capacity b.journal) };
}

impl Book {
    /// A book of the nodes below `n`, each alone with its own number as label, and a journal with room for `room`
    /// identifications. No other call takes memory.
    pub fn new(alloc: Global, n: u32, room: u32) -> Result<Book, NoMemory>
        ensures count { IfOk result (λ b. length b.labels ≡ n) }
        ensures own { IfOk result (λ b. (k : ℕ) → k < n → slice_index b.labels k ≡ k) }
        ensures alone { IfOk result (λ b. (k : ℕ) → k < n → class_of b k ≡ k ∷ []) }
        ensures empty { IfOk result (λ b. b.journal ≡ []) }
        ensures room { IfOk result (λ b. b.room ≡ room) }
    {
        let labels = numbers(alloc, n)?;
        let sizes = ones(alloc, n)?;
        let members = singles(alloc, n)?;
        let journal = Vec::with_capacity(alloc, room as usize)?;
        Ok(Book {
            labels,
            sizes,
            members,
            journal,
        })
    }

    /// The label of a node's class: a member of the class.
    #[inline]
    pub fn label(&self, a: u32) -> u32
        requires { a < length self.now.labels }
        ensures label { result ≡ slice_index self.now.labels a }
        ensures in_range { result < length self.now.labels }
        ensures joined { Joined self.now.journal a result }

        // What holds of every book: labels are equal exactly where the journal joins.
        ensures labelled { IsLabelled self.now.labels self.now.journal }
    {
        self.labels[a as usize]
    }

    /// Whether two nodes are in one class, which is where the journal joins them.
    #[inline]
    pub fn same(&self, a: u32, b: u32) -> bool
        requires a { a < length self.now.labels }
        requires b { b < length self.now.labels }
        ensures { IsTrue result ↔ Joined self.now.journal a b }
    {
        self.labels[a as usize] == self.labels[b as usize]
    }

    /// How many members a node's class has.
    #[inline]
    pub fn size(&self, a: u32) -> u32
        requires { a < length self.now.labels }
        ensures size { result ≡ size_of self.now.labels (slice_index self.now.labels a) }
        ensures members { result ≡ length (class_of self.now a) }
    {
        self.sizes[self.labels[a as usize] as usize]
    }

    /// The identifications in the order in which they were entered.
    #[inline]
    pub fn journal(&self) -> &[Entry]
        ensures journal { result.now ≡ self.now.journal }

        // What holds of every book: the ends of its identifications are nodes.
        ensures ends { EndsAreNodes self.now.labels self.now.journal }
    {
        &self.journal
    }

    /// The first of the members of a node's class, from which `next_member` walks on: over each member once.
    #[inline]
    pub fn first_member(&self, a: u32) -> u32
        requires { a < length self.now.labels }
        ensures first { slice_get (class_of self.now a) 0 ≡ Some result }
        ensures in_range { result < length self.now.labels }
        ensures same_class { class_of self.now result ≡ class_of self.now a }
        ensures class { IsClass self.now.labels self.now.journal a (class_of self.now a) }
    {
        self.members.first(self.labels[a as usize]).unwrap()
    }

    /// The member that follows one in its class, and none exactly at the last.
    #[inline]
    pub fn next_member(&self, m: u32) -> Option<u32>
        requires { m < length self.now.labels }
        ensures next { (i : ℕ) → slice_get (class_of self.now m) i ≡ Some m → result ≡ slice_get (class_of self.now m) (i + 1) }
        ensures last { let members = class_of self.now m in IsNone result ↔ (slice_get members (length members - 1) ≡ Some m) }
        ensures in_range { IfSome result (λ n. n < length self.now.labels) }
        ensures same_class { IfSome result (λ n. class_of self.now n ≡ class_of self.now m) }
    {
        self.members.next(self.labels[m as usize], m)
    }

    /// Appends the identification of two nodes that are not the same to the journal, makes one class of theirs, and
    /// answers the identification's place in the journal. The larger class keeps its label, at a tie the smaller label
    /// stays. The members of the other class are relabelled and put to the end of the list of members.
    pub fn enter(&mut self, entry: Entry) -> u32
        requires a { entry.a < length self.old.labels }
        requires b { entry.b < length self.old.labels }
        requires apart { ¬ (Joined self.old.journal entry.a entry.b) }
        requires room { length self.old.journal < self.old.room }
        ensures place { result ≡ length self.old.journal }
        ensures journal { self.new.journal ≡ self.old.journal ++ entry ∷ [] }
        ensures room { self.new.room ≡ self.old.room }
        ensures count { length self.new.labels ≡ length self.old.labels }

        // What goes and what stays, of the labels of the two nodes.
        ensures labels { let x = slice_index self.old.labels entry.a in let y = slice_index self.old.labels entry.b in
            self.new.labels ≡ relabelled self.old.labels (going self.old.labels x y) (staying self.old.labels x y) }
        ensures members { let x = slice_index self.old.labels entry.a in let y = slice_index self.old.labels entry.b in
            self.new.members ≡ joined_lists self.old.members (staying self.old.labels x y) (going self.old.labels x y) }

        // At most half of the new class is relabelled.
        ensures half { let x = slice_index self.old.labels entry.a in let y = slice_index self.old.labels entry.b in
            2 * changed_count self.old.labels self.new.labels ≤ size_of self.new.labels (staying self.old.labels x y) }
        ensures labelled { IsLabelled self.new.labels self.new.journal }
    {
        law_joined();
        let place = self.journal.len() as u32;
        let first = self.labels[entry.a as usize];
        let second = self.labels[entry.b as usize];
        let (to, from) = stay_and_go(&self.sizes, first, second);
        merge(
            &mut self.labels,
            &mut self.sizes,
            &mut self.members,
            to,
            from,
        );
        self.journal.push_reserved(entry);
        place
    }

    /// The labels and the journal. It takes no memory.
    pub fn into_parts(self) -> (Vec<u32>, Vec<Entry>)
        ensures labels { result.0.items ≡ self.labels }
        ensures journal { result.1.items ≡ self.journal }
        ensures labelled { IsLabelled self.labels self.journal }
        ensures ends { EndsAreNodes self.labels self.journal }
    {
        let Book {
            labels,
            journal,
            ..
        } = self;
        (labels, journal)
    }
}
