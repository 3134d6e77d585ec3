//! What an attach and an arrival are answered.

use nbd_wire::Request;
use std::alloc::Allocator;
use thiserror::Error;

/// Why an attach is refused.
#[derive(Clone, Copy, Debug, PartialEq, Eq, Error)]
pub enum AttachRefusal {
    /// The export has made as many steps as it ever may.
    #[error("worn")]
    Worn,
    /// 64 sessions are not gone.
    #[error("sessions full")]
    Full,
}

/// Why no session is opened. All is as it was.
#[derive(Clone, Copy, Debug, PartialEq, Eq, Error)]
pub enum NotAttached {
    #[error("{0}")]
    Refused(AttachRefusal),
    #[error("no memory")]
    NoMemory,
}

/// Why an export keeps its rates.
#[derive(Clone, Copy, Debug, PartialEq, Eq, Error)]
pub enum RetuneRefusal {
    /// The export has made as many steps as it ever may.
    #[error("worn")]
    Worn,
    /// A request of the export waits.
    #[error("waiting")]
    Waiting,
}

/// Why an arrival is refused.
#[derive(Clone, Copy, Debug, PartialEq, Eq, Error)]
pub enum ArriveRefusal {
    /// The session was never attached, has left or is gone.
    #[error("not open")]
    NotOpen,
    /// The export has made as many steps as it ever may.
    #[error("worn")]
    Worn,
    /// As many requests of the session as the window are under way, or replies of it not yet taken.
    #[error("hold")]
    Hold,
}

/// What becomes of a request that isn't refused, if it arrives.
#[derive(Clone, Copy, Debug, PartialEq, Eq, Drop)]
pub enum Admission {
    /// It waits.
    Waits,
    /// Its session is told this error at once: the verdict's, or EIO where as many wait as may.
    Answered(u32),
}

/// A request that was refused before it was looked at, handed back. All is as it was.
#[derive(Drop)]
pub struct NotArrived<A: Allocator> {
    pub refusal: ArriveRefusal,
    pub request: Request<A>,
}

/// What an arrival is answered that isn't refused.
#[derive(Clone, Copy, Debug, PartialEq, Eq, Drop)]
pub enum Arrived {
    /// It waits, with its number and its limit tag in nanoseconds.
    Accepted { number: u64, limit_tag: i128 },
    /// Its session is told this error (NBD protocol, "Error values").
    Answered(u32),
}
