//! Lists of cells.

ghost use Rattle.std.specs.Prelude.{◌≡◌, ◌<◌, [], ◌∷◌, length};

use crate::ENOUGH;
use gk_base::NoMemory;
use list_pool::Pool;
use std::alloc::Global;
use std::process::Abort;

/// The first four cells of a list.
fn front(alloc: Global, pool: &Pool, list: u32) -> Result<Vec<u32>, NoMemory>
    requires { list < length pool.now.lists }
{
    let mut cells = Vec::new(alloc);
    let mut cell = pool.first(list);
    for place in 0..4 {
        if let Some(number) = cell {
            cells.push(number)?;
            cell = pool.next(list, number);
        }
    }
    Ok(cells)
}

/// Asserts which are the first four cells of a list.
fn assert_front(rt: &impl Abort, alloc: Global, pool: &Pool, list: u32, wanted: &[u32])
    requires { list < length pool.now.lists }
{
    assert_eq!(rt;
        front(alloc, pool, list).expect(rt, ENOUGH).as_slice(),
        wanted
    );
}

/// A pool of four cells, of which 2 and 1 stand in the first of two lists, and 3 in the second.
fn two_lists(rt: &impl Abort, alloc: Global) -> Pool
    ensures cells { result.cells ≡ 4 }
    ensures lists { result.lists ≡ (2 ∷ 1 ∷ []) ∷ (3 ∷ []) ∷ [] }
{
    let mut pool = Pool::new(alloc, 4, 2).expect(rt, ENOUGH);
    assert_eq!(rt; pool.spare(), 4);
    pool.push_back(0, 2);
    pool.push_back(0, 1);
    pool.push_back(1, 3);
    pool
}

/// The same, with the second list put to the end of the first.
fn spliced(rt: &impl Abort, alloc: Global) -> Pool
    ensures { result.lists ≡ (2 ∷ 1 ∷ 3 ∷ []) ∷ [] ∷ [] }
{
    let mut pool = two_lists(rt, alloc);
    pool.splice(0, 1);
    pool
}

/// The same without 1.
fn without_one(rt: &impl Abort, alloc: Global) -> Pool
    ensures { length result.lists ≡ 2 }
{
    let mut pool = spliced(rt, alloc);
    pool.remove(0, 1);
    pool
}

#[test]
fn a_cell_that_was_put_into_a_list_is_not_free(rt: HostRuntime) {
    let pool = two_lists(&rt, rt.alloc());
    assert!(rt; pool.is_free(0) && !pool.is_free(3));
}

#[test]
fn a_splice_keeps_the_order_and_leaves_the_second_list_empty(rt: HostRuntime) {
    let pool = spliced(&rt, rt.alloc());
    assert_front(&rt, rt.alloc(), &pool, 0, &[2, 1, 3]);
    assert_front(&rt, rt.alloc(), &pool, 1, &[]);
    assert_eq!(rt; pool.spare(), 1);
}

#[test]
fn a_cell_that_is_taken_out_is_to_spare(rt: HostRuntime) {
    let pool = without_one(&rt, rt.alloc());
    assert_front(&rt, rt.alloc(), &pool, 0, &[2, 3]);
    assert_eq!(rt; pool.spare(), 2);
}

#[test]
fn the_first_cell_is_taken_where_there_is_one(rt: HostRuntime) {
    let mut pool = without_one(&rt, rt.alloc());
    assert_eq!(rt; pool.pop_front(0), Some(2));
    assert_eq!(rt; pool.pop_front(1), None);
    assert_front(&rt, rt.alloc(), &pool, 0, &[3]);
    assert_eq!(rt; pool.spare(), 3);
}
