//! What is the same by the present labels.

ghost use Rattle.std.specs.Prelude.{◌≡◌, length, slice_get};
ghost use Rattle.chase_core.specs.Present.{same_by_labels};

use class_book::Book;
use paired_search::Sameness;
use std::marker::Model;

/// The labels of a book as a search reads them where no one else enters anything meanwhile: two names are the same where
/// their labels are equal. Contracts see the labels.
#[derive(Drop)]
pub struct PresentLabels<'a> {
    book: &'a Book,
    /// How many names have a label.
    names: u32,
}

impl<'a> Model for PresentLabels<'a> {
    ghost use Rattle.std.specs.Prelude.{List, ℕ, ◌≡◌, length};

    ghost Value = { List ℕ };

    ghost view = { λ p. p.book.now.labels };

    ghost invariant = { λ p. p.names ≡ length p.book.now.labels };
}

impl<'a> PresentLabels<'a> {
    /// The labels of a book with so many names.
    pub fn new(book: &'a Book, names: u32) -> PresentLabels<'a>
        requires { names ≡ length book.now.labels }
        ensures { result ≡ book.now.labels }
    {
        PresentLabels { book, names }
    }

    /// The label of a name; None exactly where the number is no name's.
    fn label(&self, name: u32) -> Option<u32>
        ensures { result ≡ slice_get self.now name }
    {
        if name < self.names {
            Some(self.book.label(name))
        } else {
            None
        }
    }
}

impl<'a> Sameness for PresentLabels<'a> {
    ghost are_same = { same_by_labels };

    fn same(&self, m: u32, n: u32) -> bool {
        if m == n {
            return true;
        }
        match (self.label(m), self.label(n)) {
            (Some(k), Some(l)) => k == l,
            _ => false,
        }
    }
}
