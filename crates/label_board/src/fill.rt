//! A view is filled from the board.

ghost use Rattle.std.specs.Prelude.{◌≡◌, ◌<◌, ◌≤◌, ◌+◌, All, length, min};
ghost use Rattle.std.specs.List.Sorted.{IsStrictlyIncreasing};
ghost use Rattle.paired_search.specs.Held.{Ascends};
ghost use Rattle.paired_search.specs.Both.{NamesBoth};
ghost use Rattle.label_board.specs.Rule.{IsSeatAt};

use crate::handles::{Board, Watcher};
use crate::steps::{Place, Words, glance, load_label};
use paired_search::{View, least_from, past};

/// Reads the labels of the names of two ascending lists, ascending and each once.
fn read_both(words: &Words, watcher: &mut Place, left: &[u32], right: &[u32], view: &mut View)
    requires words { IsSeatAt watcher.old.table_id words.now.table_id words.now.key.names }
    requires left { IsStrictlyIncreasing left.now × All (λ n. n < words.now.key.names) left.now }
    requires right { IsStrictlyIncreasing right.now × All (λ n. n < words.now.key.names) right.now }
    requires room { min (length left.now + length right.now) words.now.key.names ≤ view.old.room }
    ensures table { watcher.new.table_id ≡ watcher.old.table_id }
    ensures names { NamesBoth left.now right.now view.new.pairs }
    ensures since { watcher.new.me.0.since ≡ watcher.old.me.0.since }
    ensures read { watcher.new.me.0.read ≡ view.new.pairs }
    ensures room { view.new.room ≡ view.old.room }
{
    view.clear();
    glance(words, watcher);
    let mut i = 0;
    let mut j = 0;
    while i < left.len() || j < right.len() {
        let name = least_from(left, i, right, j);
        view.push(name, load_label(words, watcher, name));
        i = past(left, i, name);
        j = past(right, j, name);
    }
}

impl Board {
    /// Fills a view with the names of two ascending lists, ascending and each once, each with the label that its word
    /// held when it was loaded. Afterwards what the watcher has read is the view's list, and nothing that it read before.
    /// The view has to have room for the names.
    pub fn fill(&self, watcher: &mut Watcher, left: &[u32], right: &[u32], view: &mut View)
        requires board { watcher.old.board ≡ self.now.id }
        requires left { IsStrictlyIncreasing left.now × All (λ n. n < self.now.names) left.now }
        requires right { IsStrictlyIncreasing right.now × All (λ n. n < self.now.names) right.now }
        requires room { min (length left.now + length right.now) self.now.names ≤ view.old.room }
        ensures board { watcher.new.board ≡ watcher.old.board }
        ensures names { NamesBoth left.now right.now view.new.pairs }
        ensures ascends { Ascends view.new.pairs }
        ensures since { watcher.new.since ≡ watcher.old.since }
        ensures read { watcher.new.read ≡ view.new.pairs }
        ensures room { view.new.room ≡ view.old.room }
    {
        read_both(&self.table.shared, &mut watcher.seat, left, right, view);
        // What holds of every view: its names ascend.
        view.len();
    }
}
