//! A bell, on which threads sleep.

use std::sync::{Condvar, Wait};
use std::time::Duration;

/// A bell on which threads sleep. It loses no ring: one between `heard` and `wait` ends that wait at once.
///
/// Read `heard`, then look whether there is something to do, then `wait`; ring after each change that others look for.
#[derive(Drop)]
pub struct Bell {
    rung: Condvar,
}

impl Bell {
    pub const fn new() -> Bell {
        Bell {
            rung: Condvar::new(),
        }
    }

    /// How often it was rung, wrapping.
    pub fn heard(&self) -> u64 {
        self.rung.notifications()
    }

    /// Ends all waits. Where none sleeps it costs no call of the system.
    pub fn ring(&self) {
        self.rung.notify_all();
    }

    /// Ends one of the waits.
    pub fn ring_one(&self) {
        self.rung.notify_one();
    }

    /// Sleeps until it is rung once more than `heard`, and for so long at most; without end where no time is given.
    pub fn wait<R: Wait>(&self, rt: &R, heard: u64, at_most: Option<Duration>) {
        self.rung.sleep(rt, heard, at_most.unwrap_or(Duration::MAX));
    }
}
