//! A book of classes.

ghost use Rattle.std.specs.Prelude.{◌≡◌, ◌<◌, length};

use crate::ENOUGH;
use chase_laws::{Entry, Places};
use class_book::Book;
use gk_base::NoMemory;
use std::alloc::Global;
use std::process::Abort;

/// An identification of two nodes.
fn entry(a: u32, b: u32) -> Entry
    ensures a { result.a ≡ a }
    ensures b { result.b ≡ b }
{
    Entry {
        a,
        b,
        key: 0,
        left: Places::empty(),
        right: Places::empty(),
    }
}

/// The labels of a book of four nodes.
fn labels_of(book: &Book) -> [u32; 4]
    requires { length book.now.labels ≡ 4 }
{
    [book.label(0), book.label(1), book.label(2), book.label(3)]
}

/// The first four members of a node's class.
fn members_of(alloc: Global, book: &Book, node: u32) -> Result<Vec<u32>, NoMemory>
    requires { node < length book.now.labels }
{
    let mut members = Vec::new(alloc);
    let mut member = Some(book.first_member(node));
    for _ in 0..4 {
        if let Some(number) = member {
            members.push(number)?;
            member = book.next_member(number);
        }
    }
    Ok(members)
}

/// Enters identifications in a book of four nodes, and compares the place of each and the labels after it.
fn enter_each(rt: &impl Abort, book: &mut Book, steps: &[((u32, u32), u32, [u32; 4])])
    requires count { length book.old.labels ≡ 4 }
    requires room { book.old.room ≡ 3 }
    ensures { length book.new.labels ≡ 4 }
{
    for &((a, b), place, labels) in steps {
        assert!(rt; a < 4 && b < 4 && !book.same(a, b) && book.journal().len() < 3);
        assert_eq!(rt; book.enter(entry(a, b)), place, "{a} and {b}");
        assert_eq!(rt; labels_of(book), labels, "{a} and {b}");
    }
}

/// A book of four nodes, each alone, with room for three identifications.
fn four_alone(rt: &impl Abort, alloc: Global) -> Book
    ensures count { length result.labels ≡ 4 }
    ensures room { result.room ≡ 3 }
{
    Book::new(alloc, 4, 3).expect(rt, ENOUGH)
}

#[test]
fn the_larger_class_keeps_its_label(rt: HostRuntime) {
    let mut grown = four_alone(&rt, rt.alloc());
    let steps = [((0, 1), 0, [0, 0, 2, 3]), ((1, 2), 1, [0, 0, 0, 3])];
    enter_each(&rt, &mut grown, &steps);
    assert_eq!(rt; grown.size(2), 3);
    assert!(rt; !grown.same(0, 3));
}

#[test]
fn at_a_tie_the_smaller_label_stays(rt: HostRuntime) {
    let alloc = rt.alloc();
    let mut tied = four_alone(&rt, alloc);
    let steps = [
        ((0, 1), 0, [0, 0, 2, 3]),
        ((2, 3), 1, [0, 0, 2, 2]),
        ((3, 0), 2, [0, 0, 0, 0]),
    ];
    enter_each(&rt, &mut tied, &steps);
    assert_eq!(rt; tied.size(3), 4);
    assert_eq!(rt;
        members_of(alloc, &tied, 3).expect(&rt, ENOUGH).as_slice(),
        [0, 1, 2, 3].as_slice()
    );
}

#[test]
fn the_larger_class_keeps_a_larger_label(rt: HostRuntime) {
    let mut later = four_alone(&rt, rt.alloc());
    let steps = [((2, 3), 0, [0, 1, 2, 2]), ((0, 3), 1, [2, 1, 2, 2])];
    enter_each(&rt, &mut later, &steps);
    let (labels, journal) = later.into_parts();
    assert_eq!(rt; labels.as_slice(), [2, 1, 2, 2].as_slice());
    assert_eq!(rt; journal.len(), 2);
}
