//! What a line asks for.

use crate::name::Name;
use std::alloc::Allocator;

/// The rates of an export: requests a second, 0 for no reservation and no limit; and its weight.
#[derive(Clone, Copy, Debug, PartialEq, Eq)]
pub struct Rates {
    pub reservation: u64,
    pub limit: u64,
    pub weight: u64,
}

/// What a line asks for.
#[derive(Drop)]
pub enum Command<A: Allocator> {
    /// A line for the server, and one for each export.
    Stats,
    /// The same figures in the text format that Prometheus reads.
    Metrics,
    /// Other rates for an export, from then on.
    Retune { export: Name<A>, rates: Rates },
    /// A line for each session.
    Sessions,
    /// The end of a session of an export.
    DropSession { export: Name<A>, session: u64 },
    /// No more connections, and the end once no session is left.
    Stop,
    /// The end of all sessions, and then of the server.
    StopNow,
}
