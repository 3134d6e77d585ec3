//! Interactive sessions, which ask for little at a time: those that move much let them go first.

use crate::spin::let_others_run;
use nbd_policy::{Expectation, is_forgotten, is_old, yields_behind};
use std::io;
use std::sync::atomic::{AtomicBool, AtomicU64, AtomicUsize, Ordering};
use tag_clock::Moment;

/// When a session of one kind asked last, in nanoseconds, and whether that was lately, more or less: this is what threads look at all
/// the time.
#[derive(Drop)]
struct Expected {
    latest: AtomicU64,
    lately: AtomicBool,
}

impl Expected {
    /// One may ask again.
    fn note(&self, now: Moment) {
        if is_old(self.latest.load(Ordering::SeqCst), now) {
            self.latest.store(now.nanoseconds(), Ordering::SeqCst);
        }
        if !self.lately.load(Ordering::SeqCst) {
            self.lately.store(true, Ordering::SeqCst);
        }
    }

    /// None is expected any more where the last asked long ago.
    fn forget(&self, now: Moment) {
        let latest = self.latest.load(Ordering::SeqCst);
        if self.lately.load(Ordering::SeqCst) && is_forgotten(latest, now) {
            self.lately.store(false, Ordering::SeqCst);
        }
    }
}

/// What the threads of a server know of the interactive sessions, and of those that have few requests at hand.
#[derive(Drop)]
pub struct InteractiveLoad {
    // How many interactive ones ask for the lock.
    asking: AtomicUsize,
    interactive: Expected,
    few: Expected,
    // How many threads look at their sockets before they sleep.
    looking: AtomicUsize,
}

impl InteractiveLoad {
    /// None has asked yet.
    pub fn new() -> InteractiveLoad {
        InteractiveLoad {
            asking: AtomicUsize::new(0),
            interactive: Expected {
                latest: AtomicU64::new(0),
                lately: AtomicBool::new(false),
            },
            few: Expected {
                latest: AtomicU64::new(0),
                lately: AtomicBool::new(false),
            },
            looking: AtomicUsize::new(0),
        }
    }

    /// One asks for the lock, until `end`.
    pub fn begin(&self) {
        self.asking.fetch_add(1, Ordering::SeqCst);
    }

    /// It asks no longer.
    pub fn end(&self) {
        self.asking.fetch_sub(1, Ordering::SeqCst);
    }

    /// Whether one asks for the lock.
    pub fn is_asking(&self) -> bool {
        self.asking.load(Ordering::SeqCst) > 0
    }

    /// A thread looks at its socket, until `end_look`.
    pub fn begin_look(&self) {
        self.looking.fetch_add(1, Ordering::SeqCst);
    }

    /// It looks no longer.
    pub fn end_look(&self) {
        self.looking.fetch_sub(1, Ordering::SeqCst);
    }

    /// How many threads look at their sockets.
    pub fn looking(&self) -> usize {
        self.looking.load(Ordering::SeqCst)
    }

    /// Notes what may be expected of a session that asks now.
    pub fn note(&self, expectation: Expectation, now: Moment) {
        match expectation {
            Expectation::Interactive => self.interactive.note(now),
            Expectation::Few => {
                self.few.note(now);
                self.interactive.forget(now);
            }
            Expectation::Nothing => {
                self.few.forget(now);
                self.interactive.forget(now);
            }
        }
    }

    /// Whether an interactive session asked lately.
    pub fn is_expected(&self) -> bool {
        self.interactive.lately.load(Ordering::SeqCst)
    }

    /// Whether an interactive session asked lately, or one that has few requests at hand.
    pub fn has_few(&self) -> bool {
        self.is_expected() || self.few.lately.load(Ordering::SeqCst)
    }

    /// Lets other threads run where so many bytes were read or written at once, and an interactive session is expected. Beside
    /// clients that move much all processors are busy, and each of their threads would run for milliseconds before that of such a
    /// session gets its turn. Where there is none each rest would only cost time.
    pub fn rest_behind(&self, moved: &io::Result<usize>, many: usize) {
        if let Ok(count) = moved {
            if yields_behind(*count, many) && self.is_expected() {
                let_others_run();
            }
        }
    }
}
