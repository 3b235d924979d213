//! The door to the turn lock.

use std::hint;
use std::sync::Wait;
use std::sync::atomic::{AtomicU64, Ordering};

/// How often a worker that waits looks before it sleeps.
const LOOKS: u32 = 2000;

/// Nobody is through the door.
const FREE: u64 = 0;

/// Somebody is.
const TAKEN: u64 = 1;

/// Somebody is, and others may sleep until it is free.
const AWAITED: u64 = 2;

/// A door through which one worker at a time goes to its turn, so that it finds the turn lock free. The lock serves in order: a
/// worker that the system has put aside while it is next would hold up all others. Here whoever comes while the door is free goes
/// first. Nothing is proved of it, and nothing rests on it: the lock gives one turn at a time, whoever comes.
#[derive(Drop)]
pub struct Door {
    state: AtomicU64,
}

impl Door {
    /// A door that is free.
    pub fn new() -> Door {
        Door {
            state: AtomicU64::new(FREE),
        }
    }

    /// Takes the door, if it is free.
    fn take(&self, state: u64) -> bool {
        self.state.load(Ordering::SeqCst) == FREE
            && self
                .state
                .compare_exchange(FREE, state, Ordering::SeqCst, Ordering::SeqCst)
                .is_ok()
    }

    /// Waits until the door is free, and takes it.
    pub fn enter<R: Wait>(&self, rt: &R) {
        if self.take(TAKEN) {
            return;
        }
        self.wait(rt);
    }

    // Looks for a while, and then sleeps. One that has slept leaves the sign that others may sleep.
    fn wait<R: Wait>(&self, rt: &R) {
        let mut looks = 0;
        let mut state = TAKEN;
        for _ in rt.forever() {
            if self.take(state) {
                return;
            }
            if looks < LOOKS {
                looks += 1;
                hint::spin_loop();
                continue;
            }
            looks = 0;
            state = AWAITED;
            let _ = self
                .state
                .compare_exchange(TAKEN, AWAITED, Ordering::SeqCst, Ordering::SeqCst);
            self.state.park(rt, AWAITED as u32);
        }
        unreachable!()
    }

    /// Frees the door, and wakes one who sleeps.
    pub fn leave(&self) {
        if self.state.swap(FREE, Ordering::SeqCst) == AWAITED {
            self.state.wake_one();
        }
    }
}
