//! The steps of one export that are kept, oldest first, and how lists of them get their room.
#![tactic(auto)]

mod group;
mod log;
mod rest;
mod room;

pub use group::Group;
pub use log::Log;
pub use rest::Rest;
pub use room::{payload_of, widen};
