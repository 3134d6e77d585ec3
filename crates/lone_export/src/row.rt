//! A request as it is kept.

use nbd_wire::Request;
use std::alloc::Allocator;

/// A request with the number of its session.
#[derive(Drop)]
pub(crate) struct Row<A: Allocator> {
    pub(crate) session: u64,
    pub(crate) request: Request<A>,
}
