//! Which worker looks for what comes due, and who is woken for what waits.

use nbd_policy::{LAST_MOMENT_NS, Rest, Waiting, rest_of, wakes_worker};
use std::sync::atomic::{AtomicU64, AtomicUsize, Ordering};
use tag_clock::Moment;

/// When a worker looks for work by itself. Whoever leaves something waiting tells when that is due, and wakes a worker only where none
/// looks by then.
///
/// Nothing that is told is lost. A worker forgets it as it begins to look, and finds it under its hold. Before it sleeps it says until
/// when, and then looks at what was told meanwhile; who tells looks only then whether a worker is awake, and until when one sleeps.
#[derive(Drop)]
pub struct Timekeeper {
    // How many workers don't sleep.
    awake: AtomicUsize,
    // Until when a worker sleeps that keeps the time, in nanoseconds. The last moment that there is where none does.
    kept: AtomicU64,
    // The first moment at which something is due, of those told since a worker began to look, in nanoseconds.
    told: AtomicU64,
}

impl Timekeeper {
    /// There are no workers, and nothing was told.
    pub const fn new() -> Timekeeper {
        Timekeeper {
            awake: AtomicUsize::new(0),
            kept: AtomicU64::new(LAST_MOMENT_NS),
            told: AtomicU64::new(LAST_MOMENT_NS),
        }
    }

    /// A worker begins.
    pub fn begin(&self) {
        self.awake.fetch_add(1, Ordering::SeqCst);
    }

    /// A worker that is awake ends.
    pub fn end(&self) {
        self.awake.fetch_sub(1, Ordering::SeqCst);
    }

    /// A worker looks for work from now on.
    pub fn begin_look(&self) {
        self.told.store(LAST_MOMENT_NS, Ordering::SeqCst);
    }

    /// Something waits, which a writer chooses or not. Whether a worker is to be woken for it.
    pub fn tell(&self, waiting: Waiting, writer_chooses: bool) -> bool {
        if let (Waiting::Until { nanoseconds }, false) = (waiting, writer_chooses) {
            if nanoseconds < self.told.load(Ordering::SeqCst) {
                self.told.fetch_min(nanoseconds, Ordering::SeqCst);
            }
        }
        let looks_at = if self.awake.load(Ordering::SeqCst) > 0 {
            0
        } else {
            self.kept.load(Ordering::SeqCst)
        };
        wakes_worker(waiting, writer_chooses, looks_at)
    }

    /// How a worker sleeps that found something due at a moment, or nothing.
    pub fn rest_until(&self, due: &Option<Moment>) -> Rest {
        let until = nanoseconds_of(due);
        let kept = self.kept.fetch_min(until, Ordering::SeqCst);
        self.awake.fetch_sub(1, Ordering::SeqCst);
        let rest = rest_of(until, kept, self.told.load(Ordering::SeqCst));
        if rest == Rest::No {
            self.end_rest(due);
        }
        rest
    }

    /// A worker that slept, or was about to, and found something due at that moment, is awake.
    pub fn end_rest(&self, due: &Option<Moment>) {
        self.awake.fetch_add(1, Ordering::SeqCst);
        let _ = self.kept.compare_exchange(
            nanoseconds_of(due),
            LAST_MOMENT_NS,
            Ordering::SeqCst,
            Ordering::SeqCst,
        );
    }
}

/// The moment, or the last that there is where nothing is due.
fn nanoseconds_of(due: &Option<Moment>) -> u64 {
    match due {
        Some(due) => due.nanoseconds(),
        None => LAST_MOMENT_NS,
    }
}
