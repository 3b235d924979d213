//! Turns of many threads.
ghost use Rattle.std.specs.Prelude.{◌≡◌, ℕ, ◌+◌, ◌*◌, ◌<◌, ◌≤◌, ◌^◌, slice_get, Some, length, All};
ghost use Rattle.turn_lock.specs.Handles.{AllOut, IsPassOf, IsOut};

use crate::numbers::Numbers;
use std::sync::Wait;
use std::sync::atomic::{AtomicU64, Ordering};
use std::thread;
use std::thread::Threads;
use turn_lock::{Pass, TurnLock};

// One turn that adds a number.
fn add<R: Wait>(rt: &R, lock: &TurnLock<Numbers>, pass: &mut Pass<Numbers>, x: u32)
    requires { IsPassOf lock.now pass.old × IsOut pass.old }
    ensures { IsPassOf lock.now pass.new × IsOut pass.new }
{
    let mut turn = lock.enter(rt, pass);
    turn.value().add(x);
    lock.leave(turn, pass);
}

// 1,000 turns, which add every `step`th number from `from` on.
fn add_thousand<R: Wait>(
    rt: &R,
    lock: &TurnLock<Numbers>,
    pass: &mut Pass<Numbers>,
    from: u32,
    step: u32,
)
    requires { IsPassOf lock.now pass.old × IsOut pass.old × (from < 64) × (step ≤ 64) }
    ensures { IsPassOf lock.now pass.new × IsOut pass.new }
{
    for k in 0..1000 {
        add(rt, lock, pass, from + step * k);
    }
}

/// Each pass has a thread, which adds 1,000 numbers that leave the thread's number modulo how many there are.
pub fn all_add<R: Threads + Wait + Sync>(
    rt: &R,
    lock: &TurnLock<Numbers>,
    passes: &mut [Pass<Numbers>],
)
    requires count { (0 < length passes.old) × (length passes.old ≤ 64) }
    requires passes { AllOut lock.now passes.old }
    ensures passes { AllOut lock.now passes.new }
{
    let step = passes.len() as u32;
    thread::for_each_mut(
        rt,
        passes,
        64,
        &|i, pass| { add_thousand(rt, lock, pass, i as u32, step) },
    );
}

/// What two threads tell each other.
#[derive(Drop)]
pub struct Signs {
    pub inside: AtomicU64,
    pub glanced: AtomicU64,
    pub seen: AtomicU64,
}

// Thread 0 is inside until it has seen that thread 1 glanced.
fn side<R: Wait>(
    rt: &R,
    lock: &TurnLock<Numbers>,
    number: usize,
    pass: &mut Pass<Numbers>,
    signs: &Signs,
)
    requires { IsPassOf lock.now pass.old × IsOut pass.old }
    ensures { IsPassOf lock.now pass.new × IsOut pass.new }
{
    if number == 0 {
        let turn = lock.enter(rt, pass);
        signs.inside.store(1, Ordering::SeqCst);
        for _ in 0..100_000_000 {
            if signs.glanced.load(Ordering::SeqCst) == 1 {
                signs.seen.store(1, Ordering::SeqCst);
                break;
            }
        }
        lock.leave(turn, pass);
    } else {
        for _ in rt.forever() {
            if signs.inside.load(Ordering::SeqCst) == 1 {
                break;
            }
            thread::yield_now();
        }
        lock.glance(pass);
        signs.glanced.store(1, Ordering::SeqCst);
    }
}

/// Thread 1 glances while thread 0 has the turn.
pub fn both_sides<R: Threads + Wait + Sync>(
    rt: &R,
    lock: &TurnLock<Numbers>,
    passes: &mut [Pass<Numbers>],
    signs: &Signs,
)
    requires { AllOut lock.now passes.old }
    ensures { AllOut lock.now passes.new }
{
    thread::for_each_mut(rt, passes, 2, &|i, pass| side(rt, lock, i, pass, signs));
}
