//! What the crates of nbdq share: the error of a growth that was refused, and the words that their definitions
//! are written in (`specs/`).
#![tactic(auto)]

mod laws;

pub use laws::{least_of_two, sums_fit};
use std::alloc::{AllocError, AllocFailed};
use thiserror::Error;

/// Memory was refused.
///
/// It is answered only where the allocator refused a growth. Unless a call says otherwise, all is as it was before.
#[derive(Clone, Copy, Debug, PartialEq, Eq, Error)]
#[error("no memory")]
pub struct NoMemory;

impl From<AllocError> for NoMemory {
    fn from(_: AllocError) -> NoMemory {
        NoMemory
    }
}

impl<T: Drop> From<AllocFailed<T>> for NoMemory {
    fn from(_: AllocFailed<T>) -> NoMemory {
        NoMemory
    }
}
