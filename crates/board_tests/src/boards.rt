//! What boards show, to one thread and while another posts.

ghost use Rattle.std.specs.Prelude.{◌≡◌, ◌<◌, ◌≤◌, [], All, IfOk, length};
ghost use Rattle.std.specs.List.Sorted.{IsStrictlyIncreasing};
ghost use Rattle.label_board.specs.Seen.{AllShown};

use crate::posts::{enter, enter_all};
use class_book::Book;
use gk_base::NoMemory;
use label_board::{Board, Scribe, Watcher};
use paired_search::View;
use std::alloc::Global;
use std::process::Abort;
use std::test::Fail;
use std::thread;
use std::thread::Threads;

/// Fills the view with the names 0, 1 and 2, and compares the labels.
fn expect_labels(
    rt: &impl Abort,
    board: &Board,
    watcher: &mut Watcher,
    view: &mut View,
    labels: [u32; 3],
)
    requires board { (watcher.old.board ≡ board.now.id) × (board.now.names ≡ 4) }
    requires room { view.old.room ≡ 4 }
    ensures board { watcher.new.board ≡ watcher.old.board }
    ensures room { view.new.room ≡ 4 }
{
    board.fill(watcher, &[0, 1], &[2], view);
    assert_eq!(rt; view.len(), 3);
    for place in 0..3 {
        assert_eq!(rt; view.at(place), (place, labels[place as usize]));
    }
}

// The tests below are in parts, each of which is proved by itself: a proof grows much faster than the function.

/// Two entries are posted. After the first one watcher fills the view, and after the second another.
fn post_two(
    rt: &impl Abort,
    board: &Board,
    scribe: &mut Scribe,
    book: &mut Book,
    first: &mut Watcher,
    second: &mut Watcher,
    view: &mut View,
)
    requires scribe { (scribe.old.board ≡ board.now.id) × (scribe.old.posted ≡ book.old.journal) × (scribe.old.shown ≡ book.old.labels) }
    requires book { (length book.old.labels ≡ 4) × (book.old.journal ≡ []) × (book.old.room ≡ 3) }
    requires board { board.now.names ≡ 4 }
    requires watchers { (first.old.board ≡ board.now.id) × (second.old.board ≡ board.now.id) }
    requires room { view.old.room ≡ 4 }
    ensures scribe { scribe.new.board ≡ scribe.old.board }
    ensures book { length book.new.labels ≡ 4 }
    ensures watchers { (first.new.board ≡ first.old.board) × (second.new.board ≡ second.old.board) }
    ensures room { view.new.room ≡ 4 }
{
    enter(rt, book, board, scribe, 0, 1);
    expect_labels(rt, board, first, view, [0, 0, 2]);
    enter(rt, book, board, scribe, 1, 2);
    expect_labels(rt, board, second, view, [0, 0, 0]);
}

/// A board that is made of a book later shows the labels that the book has then.
fn expect_labels_later(
    rt: &impl Abort,
    alloc: Global,
    book: &Book,
    view: &mut View,
) -> Result<(), NoMemory>
    requires book { length book.now.labels ≡ 4 }
    requires room { view.old.room ≡ 4 }
{
    let (later, _, mut watchers) = Board::new(alloc, book, 4, 1)?;
    let mut third = watchers.pop().unwrap();
    expect_labels(rt, &later, &mut third, view, [0, 0, 0]);
    Ok(())
}

/// Two watchers of a board over the book follow two posts, and meet the scribe. A board that is made later stands beside it.
fn follow_two_posts(
    rt: &impl Abort,
    alloc: Global,
    book: &mut Book,
    view: &mut View,
) -> Result<(), NoMemory>
    requires book { (length book.old.labels ≡ 4) × (book.old.journal ≡ []) × (book.old.room ≡ 3) }
    requires room { view.old.room ≡ 4 }
{
    let (board, mut scribe, mut watchers) = Board::new(alloc, book, 4, 2)?;
    assert_eq!(rt; board.names(), 4);
    let mut second = watchers.pop().unwrap();
    let mut first = watchers.pop().unwrap();
    post_two(rt, &board, &mut scribe, book, &mut first, &mut second, view);
    board.meet(&mut first, &mut scribe);
    board.meet(&mut second, &mut scribe);
    expect_labels_later(rt, alloc, book, view)
}

#[test]
fn labels_follow_the_posts(rt: HostRuntime) -> Result<(), Fail> {
    let mut book = Book::new(rt.alloc(), 4, 3)?;
    let mut view = View::new(rt.alloc(), 4)?;
    follow_two_posts(&rt, rt.alloc(), &mut book, &mut view)?;
    Ok(())
}

/// The numbers below `count`.
fn numbers(alloc: Global, count: u32) -> Result<Vec<u32>, NoMemory>
    ensures length { IfOk result (λ v. length v.items ≡ count) }
    ensures ascending { IfOk result (λ v. IsStrictlyIncreasing v.items) }
    ensures below { IfOk result (λ v. All (λ n. n < count) v.items) }
{
    let mut numbers = Vec::with_capacity(alloc, count as usize)?;
    for i in 0..count {
        numbers.push_reserved(i);
    }
    Ok(numbers)
}

/// How many labels of a view are above their name, or above the last label of the name, which is kept in `last`.
fn count_risen(view: &View, last: &mut [u32]) -> u32 {
    let mut risen: u32 = 0;
    for place in 0..view.len() {
        let (name, label) = view.at(place);
        if let Some(before) = last.get_mut(name as usize) {
            if label > name || label > *before {
                risen = risen.saturating_add(1);
            }
            *before = label;
        }
    }
    risen
}

/// Fills a view of all names so many times, and counts the labels that are above their name or rose.
fn fill_all(
    board: &Board,
    watcher: &mut Watcher,
    names: &[u32],
    view: &mut View,
    last: &mut [u32],
    times: u32,
) -> u32
    requires board { watcher.old.board ≡ board.now.id }
    requires names { IsStrictlyIncreasing names.now × All (λ n. n < board.now.names) names.now }
    requires room { length names.now ≤ view.old.room }
{
    let mut risen: u32 = 0;
    for _ in 0..times {
        board.fill(watcher, names, &[], view);
        risen = risen.saturating_add(count_risen(view, last));
    }
    risen
}

/// One thread posts, and another fills a view meanwhile.
fn post_and_fill<R: Threads>(
    rt: &R,
    board: &Board,
    scribe: &mut Scribe,
    book: &mut Book,
    watcher: &mut Watcher,
    names: &[u32],
    view: &mut View,
    last: &mut [u32],
) -> u32
    requires scribe { (scribe.old.board ≡ board.now.id) × (scribe.old.posted ≡ book.old.journal) }
    requires book { (length book.old.labels ≡ board.now.names) × (book.old.journal ≡ []) × (book.old.room ≡ 999) × (999 < board.now.names) }
    requires watcher { watcher.old.board ≡ board.now.id }
    requires names { IsStrictlyIncreasing names.now × All (λ n. n < board.now.names) names.now }
    requires room { length names.now ≤ view.old.room }
{
    let mut risen = 0;
    thread::join_mut(
        rt,
        &mut || enter_all(book, board, scribe, 999),
        &mut || risen = fill_all(board, watcher, names, view, last, 1000),
    );
    risen
}

/// One thread posts, and another fills a view of all names meanwhile, with each name as its last label at first.
fn count_risen_meanwhile<R: Threads>(
    rt: &R,
    alloc: Global,
    board: &Board,
    scribe: &mut Scribe,
    book: &mut Book,
    watcher: &mut Watcher,
) -> Result<u32, NoMemory>
    requires scribe { (scribe.old.board ≡ board.now.id) × (scribe.old.posted ≡ book.old.journal) }
    requires book { (length book.old.labels ≡ board.now.names) × (book.old.journal ≡ []) × (book.old.room ≡ 999) }
    requires board { board.now.names ≡ 1000 }
    requires watcher { watcher.old.board ≡ board.now.id }
{
    let names = numbers(alloc, 1000)?;
    let mut view = View::new(alloc, 1000)?;
    let mut last = numbers(alloc, 1000)?;
    Ok(post_and_fill(
        rt,
        board,
        scribe,
        book,
        watcher,
        names.as_slice(),
        &mut view,
        last.as_mut_slice(),
    ))
}

/// The same on a board over the book, for its only watcher.
fn count_risen_on_a_board<R: Threads>(
    rt: &R,
    alloc: Global,
    book: &mut Book,
) -> Result<u32, NoMemory>
    requires book { (length book.old.labels ≡ 1000) × (book.old.journal ≡ []) × (book.old.room ≡ 999) }
{
    let (board, mut scribe, mut watchers) = Board::new(alloc, book, 1000, 1)?;
    let mut watcher = watchers.pop().unwrap();
    count_risen_meanwhile(rt, alloc, &board, &mut scribe, book, &mut watcher)
}

#[test]
fn labels_fall_while_others_post(rt: HostRuntime) -> Result<(), Fail> {
    let mut book = Book::new(rt.alloc(), 1000, 999)?;
    let risen = count_risen_on_a_board(&rt, rt.alloc(), &mut book)?;
    assert_eq!(rt; risen, 0);
    assert_eq!(rt; book.journal().len(), 999);
    Ok(())
}

/// How many labels of a view are not the book's.
fn count_stale(book: &Book, names: u32, view: &View) -> u32
    requires { length book.now.labels ≡ names }
{
    let mut stale: u32 = 0;
    for place in 0..view.len() {
        let (name, label) = view.at(place);
        if name < names && book.label(name) != label {
            stale = stale.saturating_add(1);
        }
    }
    stale
}

/// A watcher stands even again, fills a view of all names, and meets the scribe: it has read what is shown.
fn read_afresh(
    board: &Board,
    scribe: &mut Scribe,
    watcher: &mut Watcher,
    names: &[u32],
    view: &mut View,
)
    requires scribe { scribe.old.board ≡ board.now.id }
    requires watcher { watcher.old.board ≡ board.now.id }
    requires names { IsStrictlyIncreasing names.now × All (λ n. n < board.now.names) names.now }
    requires room { length names.now ≤ view.old.room }
    ensures scribe { scribe.new ≡ scribe.old }
    ensures board { watcher.new.board ≡ board.now.id }
    ensures shown { AllShown scribe.old.shown view.new.pairs }
    ensures room { view.new.room ≡ view.old.room }
{
    board.renew(scribe, watcher);
    board.fill(watcher, names, &[], view);
    board.meet(watcher, scribe);
}

/// Joins 0 with 1, 1 with 2, and so on, and posts each entry. After a post the view that was filled before has an old label,
/// and one that is read afresh has the book's.
fn post_and_read(
    rt: &impl Abort,
    board: &Board,
    scribe: &mut Scribe,
    book: &mut Book,
    watcher: &mut Watcher,
    names: &[u32],
    view: &mut View,
    count: u32,
)
    requires scribe { (scribe.old.board ≡ board.now.id) × (scribe.old.posted ≡ book.old.journal) × (scribe.old.shown ≡ book.old.labels) }
    requires book { (length book.old.labels ≡ board.now.names) × (book.old.journal ≡ []) × (book.old.room ≡ count) × (count < board.now.names) }
    requires watcher { watcher.old.board ≡ board.now.id }
    requires names { IsStrictlyIncreasing names.now × All (λ n. n < board.now.names) names.now }
    requires room { length names.now ≤ view.old.room }
{
    for name in 0..count {
        enter(rt, book, board, scribe, name, name + 1);
        assert_eq!(rt; count_stale(book, board.names(), view), 1);
        read_afresh(board, scribe, watcher, names, view);
        assert_eq!(rt; count_stale(book, board.names(), view), 0);
    }
}

/// A watcher reads all names, first before any post, and then after each.
fn read_before_and_after(
    rt: &impl Abort,
    alloc: Global,
    board: &Board,
    scribe: &mut Scribe,
    book: &mut Book,
    watcher: &mut Watcher,
) -> Result<(), NoMemory>
    requires scribe { (scribe.old.board ≡ board.now.id) × (scribe.old.posted ≡ book.old.journal) × (scribe.old.shown ≡ book.old.labels) }
    requires book { (length book.old.labels ≡ board.now.names) × (book.old.journal ≡ []) × (book.old.room ≡ 9) }
    requires board { board.now.names ≡ 10 }
    requires watcher { watcher.old.board ≡ board.now.id }
{
    let mut view = View::new(alloc, 10)?;
    let names = numbers(alloc, 10)?;
    let names = names.as_slice();
    board.fill(watcher, names, &[], &mut view);
    assert_eq!(rt; count_stale(book, 10, &view), 0);
    post_and_read(rt, board, scribe, book, watcher, names, &mut view, 9);
    Ok(())
}

/// The same on a board over the book, for its only watcher.
fn read_on_a_board(rt: &impl Abort, alloc: Global, book: &mut Book) -> Result<(), NoMemory>
    requires book { (length book.old.labels ≡ 10) × (book.old.journal ≡ []) × (book.old.room ≡ 9) }
{
    let (board, mut scribe, mut watchers) = Board::new(alloc, book, 10, 1)?;
    let mut watcher = watchers.pop().unwrap();
    read_before_and_after(rt, alloc, &board, &mut scribe, book, &mut watcher)
}

#[test]
fn what_is_read_after_a_renew_is_shown(rt: HostRuntime) -> Result<(), Fail> {
    let mut book = Book::new(rt.alloc(), 10, 9)?;
    read_on_a_board(&rt, rt.alloc(), &mut book)?;
    assert_eq!(rt; book.journal().len(), 9);
    Ok(())
}
