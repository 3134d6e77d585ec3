//! The latest steps of a base, where they aren't made yet.
use nbd_wire::Request;
use std::alloc::Allocator;
use tag_clock::Moment;

/// A request of a session, as it arrived.
#[derive(Drop)]
pub(crate) struct Arrival<A: Allocator> {
    pub(crate) session: u64,
    pub(crate) moment: Moment,
    pub(crate) request: Request<A>,
}

/// Steps that aren't made yet, none of which changes the bytes. Those of a request come to an export without any other: so they may
/// all be made at once, with the next.
#[derive(Drop)]
pub(crate) enum Deferred<A: Allocator> {
    Nothing,
    /// A request arrived.
    Arrived(Arrival<A>),
    /// It was picked as well.
    Picked(Arrival<A>),
    /// It is a READ, and was performed as well, with memory.
    Read(Arrival<A>),
    /// The READ of this number, which was in service, was performed, with memory.
    Performed(u64),
}
