//! What the threads of a server measure, as values: how long requests waited, and how often and how long the server was held.
//!
//! Noting takes no memory and a time that doesn't grow.
#![tactic(auto)]

mod holds;
mod laws;
mod waits;

pub use holds::HoldCount;
pub use laws::last_second;
pub use waits::{LatestWaits, WaitQuantiles};
