//! A board made over a book.

ghost use Rattle.std.specs.Prelude.{◌≡◌, ◌<◌, ◌≤◌, [], All, IfOk, length, vec_len, vec_capacity};
ghost use Rattle.label_board.specs.Rule.{IsSeatAt, MayShow, words_of};

use crate::handles::{Board, Scribe, Watcher};
use crate::knowledge::About;
use crate::steps::{Place, Words, another};
use atomic_table::Table;
use class_book::Book;
use gk_base::NoMemory;
use std::alloc::Global;
use std::snapshot::Snapshot;

/// How many entries there are, and behind it the label of each name.
fn first_words(alloc: Global, book: &Book, names: u32) -> Result<Vec<u64>, NoMemory>
    requires { names ≡ length book.now.labels }
    ensures words { IfOk result (λ v. v.items ≡ words_of book.now.journal book.now.labels) }
    ensures labels { IfOk result (λ v. MayShow names book.now.journal book.now.labels) }
{
    let mut words = Vec::with_capacity(alloc, names as usize + 1)?;
    words.push_reserved(book.journal().len() as u64);
    for name in 0..names {
        words.push_reserved(book.label(name) as u64);
    }
    Ok(words)
}

/// So many watchers, which have read nothing, and stand as even as the seat that they are split from.
fn hand_out(words: &Words, seat: &mut Place, count: u32, watchers: &mut Vec<Watcher>)
    requires words { IsSeatAt seat.old.table_id words.now.table_id words.now.key.names }
    requires nothing { seat.old.me.0.read ≡ [] }
    requires room { (vec_len watchers.old ≡ 0) × (count ≤ vec_capacity watchers.old) }
    ensures kept { (seat.new.table_id ≡ seat.old.table_id) × (seat.new.me ≡ seat.old.me) }
    ensures count { length watchers.new.items ≡ count }
    ensures each { All (λ w. (w.board ≡ seat.old.table_id) × (w.since ≡ seat.old.me.0.since) × (w.read ≡ [])) watchers.new.items }
{
    for number in 0..count {
        let seat = another(words, seat);
        watchers.push_reserved(Watcher { number, seat });
    }
}

impl Board {
    /// A board over the names of a book, with its scribe and so many watchers. The word of each name holds its label in the
    /// book, the book's journal is what was posted, and no watcher has read anything; all stand even. No other call takes memory.
    pub fn new(
        alloc: Global,
        book: &Book,
        names: u32,
        watchers: u32,
    ) -> Result<(Board, Scribe, Vec<Watcher>), NoMemory>
        requires names { names ≡ length book.now.labels }
        requires watchers { 0 < watchers }
        ensures names { IfOk result (λ r. r.0.names ≡ names) }
        ensures scribe { IfOk result (λ r. r.1.board ≡ r.0.id) }
        ensures posted { IfOk result (λ r. r.1.posted ≡ book.now.journal) }
        ensures shown { IfOk result (λ r. r.1.shown ≡ book.now.labels) }
        ensures watchers { IfOk result (λ r. length r.2.items ≡ watchers) }
        ensures read { IfOk result (λ r. All (λ w. (w.board ≡ r.0.id) × (w.since ≡ book.now.journal) × (w.read ≡ [])) r.2.items) }
    {
        let words = first_words(alloc, book, names)?;
        let mut handles = Vec::with_capacity(alloc, watchers as usize)?;
        let about = About {
            book: Snapshot::of(book),
            names,
        };
        let (table, mut seat) = Table::of_words(alloc, words.as_slice(), &about)?;
        hand_out(&table.shared, &mut seat, watchers, &mut handles);
        Ok((Board { table, names }, Scribe { seat }, handles))
    }
}
