//! What an arrival gets before it enters.

use lone_export::Admission;
use nbd_wire::Request;
use std::alloc::Allocator;

/// The place of a request in its export's log, with what becomes of the request. All that `enter` wants of memory is there.
#[derive(Drop)]
pub struct Place<A: Allocator> {
    pub admission: Admission,
    /// What the log will keep: a second handle to the same payload.
    pub kept: Request<A>,
}
