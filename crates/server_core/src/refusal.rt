//! What the calls of a server are refused for. A refusal leaves all as it was.

use nbd_wire::Request;
use std::alloc::Allocator;
use thiserror::Error;

/// Why a call on a session is refused.
#[derive(Clone, Copy, Debug, PartialEq, Eq, Error)]
pub enum SessionRefusal {
    /// There is no such export.
    #[error("no export")]
    NoExport,
    /// The session was never attached, or isn't open any more for what is asked.
    #[error("not open")]
    NotOpen,
}

/// Why no session is opened.
#[derive(Clone, Copy, Debug, PartialEq, Eq, Error)]
pub enum NotAttached {
    /// There is no such export.
    #[error("no export")]
    NoExport,
    /// The export has made as many steps as it ever may.
    #[error("worn")]
    Worn,
    /// 64 sessions of the export are not gone.
    #[error("sessions full")]
    Full,
    #[error("no memory")]
    NoMemory,
}

/// Why an export keeps its rates.
#[derive(Clone, Copy, Debug, PartialEq, Eq, Error)]
pub enum NotRetuned {
    /// There is no such export.
    #[error("no export")]
    NoExport,
    /// The export has made as many steps as it ever may.
    #[error("worn")]
    Worn,
    /// A request of the export waits.
    #[error("waiting")]
    Waiting,
    /// No memory was there for the place in the export's log.
    #[error("no memory")]
    NoMemory,
}

/// Why no tags are told.
#[derive(Clone, Copy, Debug, PartialEq, Eq, Error)]
pub enum NoTags {
    /// There is no such export.
    #[error("no export")]
    NoExport,
    #[error("no memory")]
    NoMemory,
}

/// Why an arrival is refused.
#[derive(Clone, Copy, Debug, PartialEq, Eq, Error)]
pub enum ArriveRefusal {
    /// There is no such export.
    #[error("no export")]
    NoExport,
    /// The session was never attached, has left or is gone.
    #[error("not open")]
    NotOpen,
    /// The export has made as many steps as it ever may.
    #[error("worn")]
    Worn,
    /// As many requests of the session as the window are under way, or replies of it not yet taken.
    #[error("hold")]
    Hold,
    /// No memory was there for its place in the export's log, or for the steps that it can bring.
    #[error("no memory")]
    NoMemory,
}

/// A request that was refused before it was looked at, handed back.
#[derive(Drop)]
pub struct NotArrived<A: Allocator> {
    pub refusal: ArriveRefusal,
    pub request: Request<A>,
}
