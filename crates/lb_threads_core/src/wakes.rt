//! Wakes threads that wait for a gate, a membership or a cancellation. Waking takes no lock and no memory.

use std::sync::{Condvar, Wait};
use std::time::Duration;

/// How long a sleep lasts at most, in nanoseconds: a second.
pub const LONGEST: u128 = 1_000_000_000;

/// A count of wakes. A thread that sleeps on it names the count that it saw, so that a wake between that look and the sleep isn't lost.
#[derive(Drop)]
pub struct Wakes {
    changed: Condvar,
}

impl Wakes {
    /// Returns a count of no wakes.
    pub const fn new() -> Wakes {
        Wakes {
            changed: Condvar::new(),
        }
    }

    /// Returns how many wakes there were, wrapping.
    pub fn seen(&self) -> u64 {
        self.changed.notifications()
    }

    /// Wakes all threads that sleep.
    pub fn wake(&self) {
        self.changed.notify_all();
    }

    /// Sleeps for so many nanoseconds, a second at most, unless there were more wakes than `seen`.
    ///
    /// It may return earlier.
    pub fn sleep<W: Wait>(&self, rt: &W, seen: u64, nanos: u128) {
        let nanos = nanos.min(LONGEST) as u64;
        self.changed.sleep(rt, seen, Duration::from_nanos(nanos));
    }
}
