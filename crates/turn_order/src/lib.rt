//! Whose turn it is among exports that have something at hand: weighted fair queueing, with reservations and limits.
//!
//! Each export is a flow with a virtual time, which a turn moves on by what it costs over the export's weight. A turn is
//! had by whom a reservation is due, or else by who isn't ahead of the others by more than a slack; who is ahead waits. An
//! export that has nothing at hand, wasn't seen lately or is past its limit is waited for by nobody. Who keeps the limits says when
//! one is past its own.
//!
//! An export that had to wait is stopped, and goes on once it is ahead by little.
//!
//! Moments are nanoseconds, costs are in units: one for each 16 KiB begun, and one at least. After `new` nothing takes memory.
#![tactic(auto)]

mod contenders;
mod cost;
mod flow;
mod laws;
mod order;

pub use cost::cost_of;
pub use laws::{
    given_by_weight, late_goes_first, left_alone, little_is_owed, none_is_stuck, step_of_weight,
};
pub use order::TurnOrder;

/// The virtual time of one unit at weight 1. At another weight it is the whole part of this over the weight.
pub const SCALE: u64 = 1 << 60;

/// By how many units of the contender of the greatest weight another may be ahead.
pub const SLACK: u64 = 8_192;

/// By how many units of that contender one that was stopped may be ahead to go on.
pub const RESUME: u64 = 4_096;

/// By how many units of its own an export may be ahead at least.
pub const OWN_SLACK: u64 = 8;

/// For how many nanoseconds an export that was seen is waited for.
pub const SEEN: u64 = 5_000_000;

/// How many nanoseconds of a reservation are made up for.
pub const MADE_UP: u64 = 5_000_000;

/// By how many nanoseconds a reservation is late that goes before all else.
pub const LATE: u64 = 1_000_000;

/// How many nanoseconds a turn is waited for before one asks again.
pub const PATIENCE: u64 = 1_000_000;

/// What an export may have.
#[derive(Clone, Copy, Debug, PartialEq, Eq)]
pub struct Rates {
    /// Units a second that it is to have; 0 for none.
    pub reservation: u32,
    /// Requests a second that it may have; 0 for any. The order of turns doesn't count them.
    pub limit: u32,
    /// Its part, against the weights of the others. 0 counts as 1.
    pub weight: u32,
}

/// Whether a session goes on.
#[derive(Clone, Copy, Debug, PartialEq, Eq)]
pub enum Turn {
    /// The export's turn has come, and is charged.
    Go,
    /// Others come first: the session waits until it is woken, and so many nanoseconds at most.
    Wait { nanoseconds: u64 },
}
