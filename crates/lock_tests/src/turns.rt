ghost use Rattle.std.specs.Prelude.{◌≡◌, ℕ, ◌<◌, ◌≤◌, ◌^◌, length};
ghost use Rattle.turn_lock.specs.Handles.{AllOut, IsPassOf, IsOut};

use crate::numbers::Numbers;
use crate::threads::{Signs, all_add, both_sides};
use std::process::Abort;
use std::sync::Wait;
use std::sync::atomic::{AtomicU64, Ordering};
use std::test::Fail;
use turn_lock::{Pass, TurnLock};

// One turn that finds these numbers, and may add one.
fn find_and_add<R: Wait + Abort>(
    rt: &R,
    lock: &TurnLock<Numbers>,
    pass: &mut Pass<Numbers>,
    found: &[u32],
    x: Option<u32>,
)
    requires { IsPassOf lock.now pass.old × IsOut pass.old }
    ensures { IsPassOf lock.now pass.new × IsOut pass.new }
{
    let mut turn = lock.enter(rt, pass);
    let numbers = turn.value();
    assert_eq!(rt; numbers.list.as_slice(), found);
    if let Some(x) = x {
        numbers.add(x);
    }
    lock.leave(turn, pass);
}

fn turns_of_two<R: Wait + Abort>(rt: &R, lock: &TurnLock<Numbers>, passes: &mut [Pass<Numbers>])
    requires { (length passes.old ≡ 2) × AllOut lock.now passes.old }
    ensures { AllOut lock.now passes.new }
{
    find_and_add(rt, lock, &mut passes[0], &[], Some(7));
    assert_eq!(rt; lock.glance(&mut passes[0]), 1);
    find_and_add(rt, lock, &mut passes[0], &[7], None);
    assert_eq!(rt; lock.glance(&mut passes[1]), 1);
    find_and_add(rt, lock, &mut passes[1], &[7], Some(9));
}

#[test]
fn a_turn_finds_what_others_left(rt: HostRuntime) -> Result<(), Fail> {
    let numbers = Numbers::new(rt.alloc(), 4)?;
    let Ok((lock, mut passes)) = TurnLock::new(rt.alloc(), numbers, 2) else {
        panic!(rt; "no memory")
    };
    turns_of_two(&rt, &lock, passes.as_mut_slice());
    let numbers = lock.close(passes);
    assert_eq!(rt; numbers.list.as_slice(), [7, 9].as_slice());
    Ok(())
}

fn turn_of_one<R: Wait + Abort>(rt: &R, lock: &TurnLock<Numbers>, passes: &mut [Pass<Numbers>])
    requires { (length passes.old ≡ 2) × AllOut lock.now passes.old }
    ensures { AllOut lock.now passes.new }
{
    find_and_add(rt, lock, &mut passes[1], &[], Some(5));
}

#[test]
fn a_pass_that_never_entered_closes_too(rt: HostRuntime) -> Result<(), Fail> {
    let numbers = Numbers::new(rt.alloc(), 4)?;
    let Ok((lock, mut passes)) = TurnLock::new(rt.alloc(), numbers, 2) else {
        panic!(rt; "no memory")
    };
    turn_of_one(&rt, &lock, passes.as_mut_slice());
    let numbers = lock.close(passes);
    assert_eq!(rt; numbers.list.as_slice(), [5].as_slice());
    Ok(())
}

// Whether each thread's numbers stand in ascending order, and none is left out.
fn are_in_order(list: &[u32], threads: u32) -> bool
    requires { (0 < threads) × (threads ≤ 64) }
{
    let mut next = [0u32; 64];
    for thread in 0..threads {
        next[thread as usize] = thread;
    }
    for x in list {
        let thread = (*x % threads) as usize;
        if next[thread] != *x {
            return false;
        }
        next[thread] = x.wrapping_add(threads);
    }
    list.len() == 1000 * threads as usize
}

#[test]
fn two_threads_add_each_number_once_in_order(rt: HostRuntime) -> Result<(), Fail> {
    let numbers = Numbers::new(rt.alloc(), 2000)?;
    let Ok((lock, mut passes)) = TurnLock::new(rt.alloc(), numbers, 2) else {
        panic!(rt; "no memory")
    };
    all_add(&rt, &lock, passes.as_mut_slice());
    let numbers = lock.close(passes);
    assert!(rt; are_in_order(numbers.list.as_slice(), 2));
    Ok(())
}

#[test]
fn sixty_four_threads_end(rt: HostRuntime) -> Result<(), Fail> {
    let numbers = Numbers::new(rt.alloc(), 64_000)?;
    let Ok((lock, mut passes)) = TurnLock::new(rt.alloc(), numbers, 64) else {
        panic!(rt; "no memory")
    };
    all_add(&rt, &lock, passes.as_mut_slice());
    let numbers = lock.close(passes);
    assert!(rt; are_in_order(numbers.list.as_slice(), 64));
    Ok(())
}

#[test]
fn a_glance_waits_for_nobody(rt: HostRuntime) -> Result<(), Fail> {
    let numbers = Numbers::new(rt.alloc(), 4)?;
    let Ok((lock, mut passes)) = TurnLock::new(rt.alloc(), numbers, 2) else {
        panic!(rt; "no memory")
    };
    let signs = Signs {
        inside: AtomicU64::new(0),
        glanced: AtomicU64::new(0),
        seen: AtomicU64::new(0),
    };
    both_sides(&rt, &lock, passes.as_mut_slice(), &signs);
    assert_eq!(rt; signs.seen.load(Ordering::SeqCst), 1);
    let _numbers = lock.close(passes);
    Ok(())
}
