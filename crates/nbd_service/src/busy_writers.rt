//! The writers of connections that have something to do: long replies, or such as the reader left.

use std::sync::atomic::{AtomicUsize, Ordering};

/// How many writers are at work.
#[derive(Drop)]
pub struct BusyWriters {
    count: AtomicUsize,
}

impl BusyWriters {
    /// None is.
    pub fn new() -> BusyWriters {
        BusyWriters {
            count: AtomicUsize::new(0),
        }
    }

    /// One is at work, until `end`.
    pub fn begin(&self) {
        self.count.fetch_add(1, Ordering::SeqCst);
    }

    /// It has nothing to do for now.
    pub fn end(&self) {
        self.count.fetch_sub(1, Ordering::SeqCst);
    }

    /// How many are at work.
    pub fn count(&self) -> usize {
        self.count.load(Ordering::SeqCst)
    }
}
