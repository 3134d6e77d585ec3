//! The configuration file: TOML, read as a table, and refused for the first case that fits.
#![tactic(auto)]

mod entries;
mod reading;
mod refusals;

pub use reading::read_config;
pub use refusals::{FileError, FileRefusal, Place, Reason};
