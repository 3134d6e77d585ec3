//! The tags of one export's requests, after mClock: moments, intervals, and the clocks that give the tags.
//!
//! Moments and tags are nanoseconds. Nothing here takes memory.
#![tactic(auto)]

mod clocks;
mod moment;
mod tuning;

pub use clocks::{LimitClock, ShareClock, limit_tags_unrolled};
pub use moment::{Clock, Moment};
pub use tuning::Tuning;

/// The tags of a request, in nanoseconds (mClock, tag assignment).
///
/// From `r` on, which is there where the export has a reservation, the request goes before any that is chosen by weight.
/// Before `l` it isn't served by weight. Among those within their limits the least `p` goes first.
#[derive(Clone, Copy, Debug, PartialEq, Eq, Drop)]
pub struct Tags {
    pub r: Option<i128>,
    pub l: i128,
    pub p: i128,
}

/// The rule by which a request was chosen (mClock, the two phases of a dispatch).
#[derive(Clone, Copy, Debug, PartialEq, Eq, Drop)]
pub enum Phase {
    /// Its R tag was due.
    Reservation,
    /// No R tag was due, its L tag was, and its P tag was the least.
    Weight,
}
