//! One entry more is posted.

ghost use Rattle.std.specs.Prelude.{◌≡◌, ◌<◌, ◌++◌, [], ◌∷◌, true, length};
ghost use Rattle.chase_laws.specs.declared.entry.Entry.{Entry};
ghost use Rattle.class_book.specs.Classes.{Classes, IsLabelled};
ghost use Rattle.label_board.specs.Seen.{HasEntered, ShowsClass};
ghost use Rattle.label_board.specs.Rule.{IsSeatAt, between_posts, with_shown};

use crate::handles::{Board, Scribe};
use crate::steps::{Place, Words, count_up, load_count, write_label};
use class_book::Book;

/// Writes the label of each member of a name's class.
fn write_class(words: &Words, scribe: &mut Place, book: &Book, name: u32)
    requires words { IsSeatAt scribe.old.table_id words.now.table_id words.now.key.names }
    requires names { length book.now.labels ≡ words.now.key.names }
    requires name { name < length book.now.labels }
    requires scribe { (scribe.old.me.0.writes ≡ true) × (scribe.old.me.0.posted ≡ book.now.journal) }
    requires posting { length scribe.old.me.0.since < length scribe.old.me.0.posted }
    ensures table { scribe.new.table_id ≡ scribe.old.table_id }
    ensures kept { scribe.new.me ≡ (with_shown scribe.old.me.0 scribe.new.me.0.shown, scribe.old.me.1) }
    ensures shown { ShowsClass scribe.old.me.0.shown book.now name scribe.new.me.0.shown }
{
    let mut member = Some(book.first_member(name));
    for done in 0..book.size(name) {
        if let Some(of_class) = member {
            write_label(words, scribe, of_class, book.label(of_class));
            member = book.next_member(of_class);
        }
    }
}

/// Posts the last entry of a book by the scribe's seat. Labels change only after the entry is counted up and before the last
/// load, with which the post ends: no watcher stands even meanwhile with all that was posted.
fn post_last(words: &Words, scribe: &mut Place, book: &Book)
    requires words { IsSeatAt scribe.old.table_id words.now.table_id words.now.key.names }
    requires names { length book.now.labels ≡ words.now.key.names }
    requires scribe { (scribe.old.me.0.writes ≡ true) × (scribe.old.me.0 ≡ between_posts scribe.old.me.0) }
    requires more { (e : Entry) × (book.now.journal ≡ scribe.old.me.0.posted ++ e ∷ []) }
    ensures table { scribe.new.table_id ≡ scribe.old.table_id }
    ensures scribe { (scribe.new.me.0.writes ≡ true) × (scribe.new.me.0 ≡ between_posts scribe.new.me.0) }
    ensures posted { scribe.new.me.0.posted ≡ book.now.journal }
    ensures shown { (e : Entry) → book.now.journal ≡ scribe.old.me.0.posted ++ e ∷ [] → ShowsClass scribe.old.me.0.shown book.now e.a scribe.new.me.0.shown }
{
    let journal = book.journal();
    let place = journal.len() - 1;
    let entry = journal[place];
    count_up(words, scribe, place as u64, &entry);
    write_class(words, scribe, book, entry.a);
    load_count(words, scribe);
}

impl Board {
    /// Posts the last entry of a book: counts it up, then writes the labels of the class that it made. The book has to be
    /// over the board's names, and its journal has to be what was posted and one entry more. Afterwards the members of that
    /// class are shown with their labels of the book, and all other names as before.
    pub fn post(&self, scribe: &mut Scribe, book: &Book)
        requires board { scribe.old.board ≡ self.now.id }
        requires names { length book.now.labels ≡ self.now.names }
        requires more { (e : Entry) × (book.now.journal ≡ scribe.old.posted ++ e ∷ []) }
        ensures board { scribe.new.board ≡ scribe.old.board }
        ensures posted { scribe.new.posted ≡ book.now.journal }
        ensures shown { (e : Entry) → book.now.journal ≡ scribe.old.posted ++ e ∷ [] → ShowsClass scribe.old.shown book.now e.a scribe.new.shown }

        // Where the board showed the labels of the book as it was before the entry, it shows them as they are.
        ensures labels { (before : Classes) (e : Entry) → IsLabelled before.labels before.journal → HasEntered before e book.now →
            scribe.old.posted ≡ before.journal → scribe.old.shown ≡ before.labels → scribe.new.shown ≡ book.now.labels }
    {
        post_last(&self.table.shared, &mut scribe.seat, book);
    }
}
