//! What waits to be chosen, and how a worker rests that finds nothing to choose.

/// Whether something waits to be chosen, and for what.
#[derive(Clone, Copy, Debug, PartialEq, Eq, Drop)]
pub enum Waiting {
    /// Nothing waits.
    Nothing,
    /// The first of what waits is due at a moment, in nanoseconds since the server's start.
    Until { nanoseconds: u64 },
    /// It waits for something else than time.
    ForOthers,
}

/// How a worker sleeps that found nothing to do.
#[derive(Clone, Copy, Debug, PartialEq, Eq, Drop)]
pub enum Rest {
    /// It doesn't: something is due sooner than what it found, so it looks once more.
    No,
    /// Until something is due, or until it is woken: it keeps the time.
    UntilDue,
    /// Until it is woken: another keeps the time, or nothing is due.
    UntilWoken,
}
