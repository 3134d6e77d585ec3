//! Workers, which choose requests and perform them, and the gates that they pass in between.
#![tactic(auto)]

mod bell;
mod sleeper;
mod worker;

pub use bell::Bell;
pub use sleeper::{Sleeper, until};
pub use worker::{Gate, work};
