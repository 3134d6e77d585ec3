//! What a line of a replay asks for.

use server_table::Event;
use std::alloc::Allocator;

/// What a line of a replay asks for.
#[derive(Drop)]
pub enum ReplayLine<A: Allocator> {
    /// An event of the server is made.
    Event(Event<A>),
    /// The tags of what waits at this export are told. It is no event.
    Tags(u32),
}
