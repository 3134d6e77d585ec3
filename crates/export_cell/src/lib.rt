//! One export kept twice: as it is, and as it was before its latest steps, with the log of these.
#![tactic(auto)]

mod base;
mod cell;
mod deferred;
mod outdated;
mod place;
mod refusal;
mod work;

pub use base::Base;
pub use cell::ExportCell;
pub use outdated::Outdated;
pub use place::Place;
pub use refusal::{ArriveFault, NotArrived, NotRetuned};
pub use work::{allowance_of, work_of};
