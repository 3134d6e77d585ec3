//! The language of the control socket: the commands that its lines spell, the texts of its answers, and the figures that they tell.
//! docs/FORMATS.md has it byte for byte.
//!
//! Nothing here reads, writes or waits: a line comes as bytes, and an answer goes behind a text.
#![tactic(auto)]

mod answers;
mod command;
mod figures;
mod laws;
mod metrics;
mod name;
mod quoting;
mod reading;
mod refusal;
mod sessions;
mod stats;
mod verbs;

pub use answers::{Answer, write_answer};
pub use command::{Command, Rates};
pub use laws::told_names;
pub use metrics::write_metrics;
pub use name::Name;
pub use reading::{MAX_LINE, read_command};
pub use refusal::{CommandError, Refused};
pub use sessions::{SessionLine, write_sessions};
pub use stats::{ExportStats, ServerStats, write_stats};
