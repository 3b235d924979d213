//! The line that tells how far a run is.

use crate::Counts;
use std::io::Eprint;
use std::sync::atomic::{AtomicU64, Ordering};
use std::sync::{Mutex, Wait};
use std::time::{Clock, Duration, Instant};

/// How many seconds a run goes on before anything is told.
const QUIET: u64 = 2;

/// How often the line may be written: each second for longer than any run.
const MOST_LINES: u64 = 1 << 40;

/// A line on the error stream that tells what a run has counted so far, until the run ends it.
#[derive(Drop)]
pub struct Line<'a> {
    counts: &'a Counts,
    /// 0 until the run ends the line, and then 1.
    over: AtomicU64,
    /// Whether the line stands on the terminal.
    is_shown: Mutex<bool>,
}

impl<'a> Line<'a> {
    /// A line that is not written yet.
    pub fn new(counts: &'a Counts) -> Line<'a> {
        Line {
            counts,
            over: AtomicU64::new(0),
            is_shown: Mutex::new(false),
        }
    }

    fn is_over(&self) -> bool {
        self.over.load(Ordering::SeqCst) != 0
    }

    /// Writes the line in its own place, unless it was ended.
    fn write<R: Wait + Eprint>(&self, rt: &R, doing: &str, seconds: u64) {
        let (read, searches) = self.counts.so_far();
        let megabytes = read / 1_000_000;
        let mut is_shown = self.is_shown.lock(rt);
        if !self.is_over() {
            *is_shown = true;
            let _ = eprint!(rt;
                "\r\x1b[Kgkey: {doing}, {megabytes} MB read, {searches} searches, {seconds} s"
            );
        }
    }

    /// Writes the line again each second, from the second one on, until it is ended.
    pub fn tell<R: Wait + Clock + Eprint>(&self, rt: &R) {
        let Ok(begun) = Instant::now(rt) else {
            return;
        };
        let (mut read, mut searches) = (0, 0);
        for _ in 0..MOST_LINES {
            self.over.park_timeout(rt, 0, Duration::from_secs(1));
            let Ok(taken) = begun.elapsed(rt) else {
                return;
            };
            if self.is_over() {
                return;
            }
            let (read_now, searches_now) = self.counts.so_far();
            let doing = if searches_now != searches {
                "searching"
            } else if read_now != read {
                "reading"
            } else {
                "working"
            };
            (read, searches) = (read_now, searches_now);
            if taken.as_secs() >= QUIET {
                self.write(rt, doing, taken.as_secs());
            }
        }
    }

    /// Ends the line: it goes from the terminal, and is not written again.
    pub fn end<R: Wait + Eprint>(&self, rt: &R) {
        if self.over.swap(1, Ordering::SeqCst) == 0 {
            self.over.wake_all();
            let mut is_shown = self.is_shown.lock(rt);
            if *is_shown {
                *is_shown = false;
                let _ = eprint!(rt; "\r\x1b[K");
            }
        }
    }
}
