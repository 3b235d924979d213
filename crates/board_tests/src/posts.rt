//! Entries that are posted, for the tests.

ghost use Rattle.std.specs.Prelude.{◌≡◌, ◌<◌, ◌+◌, [], length};

use chase_laws::{Entry, Places};
use class_book::Book;
use label_board::{Board, Scribe};
use std::process::Abort;

/// An identification of two names.
fn entry(a: u32, b: u32) -> Entry
    ensures a { result.a ≡ a }
    ensures b { result.b ≡ b }
{
    Entry {
        a,
        b,
        key: 0,
        left: Places::empty(),
        right: Places::empty(),
    }
}

/// Enters an identification of two names that are not the same, and posts it. The board shows the book's labels before and
/// after.
pub fn enter(rt: &impl Abort, book: &mut Book, board: &Board, scribe: &mut Scribe, a: u32, b: u32)
    requires scribe { (scribe.old.board ≡ board.now.id) × (scribe.old.posted ≡ book.old.journal) × (scribe.old.shown ≡ book.old.labels) }
    requires names { length book.old.labels ≡ board.now.names }
    requires room { length book.old.journal < book.old.room }
    requires range { (a < board.now.names) × (b < board.now.names) }
    ensures scribe { (scribe.new.board ≡ scribe.old.board) × (scribe.new.posted ≡ book.new.journal) × (scribe.new.shown ≡ book.new.labels) }
    ensures names { length book.new.labels ≡ length book.old.labels }
    ensures room { book.new.room ≡ book.old.room }
    ensures length { length book.new.journal ≡ length book.old.journal + 1 }
{
    assert!(rt; book.label(a) != book.label(b));
    book.enter(entry(a, b));
    board.post(scribe, book);
}

/// Joins 0 with 1, 1 with 2, and so on up to `count`, and posts each entry.
pub fn enter_all(book: &mut Book, board: &Board, scribe: &mut Scribe, count: u32)
    requires scribe { (scribe.old.board ≡ board.now.id) × (scribe.old.posted ≡ book.old.journal) }
    requires names { length book.old.labels ≡ board.now.names }
    requires room { (book.old.journal ≡ []) × (book.old.room ≡ count) × (count < board.now.names) }
{
    for i in 0..count {
        if !book.same(i, i + 1) {
            book.enter(entry(i, i + 1));
            board.post(scribe, book);
        }
    }
}
