//! Why a request doesn't arrive, and why rates stay.

use lone_export::{ArriveRefusal, RetuneRefusal};
use nbd_wire::Request;
use std::alloc::Allocator;
use thiserror::Error;

/// Why a request doesn't arrive.
#[derive(Clone, Copy, Debug, PartialEq, Eq, Error)]
pub enum ArriveFault {
    /// The export refuses it.
    #[error("{0}")]
    Refused(ArriveRefusal),
    /// No memory was there for its place in the log, or for the steps that it can bring.
    #[error("no memory")]
    NoMemory,
}

/// Why an export keeps its rates.
#[derive(Clone, Copy, Debug, PartialEq, Eq, Error)]
pub enum NotRetuned {
    /// The export refuses others.
    #[error("{0}")]
    Refused(RetuneRefusal),
    /// No memory was there for the place in the log.
    #[error("no memory")]
    NoMemory,
}

/// A request that didn't arrive, handed back.
#[derive(Drop)]
pub struct NotArrived<A: Allocator> {
    pub fault: ArriveFault,
    pub request: Request<A>,
}
