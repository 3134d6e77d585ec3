//! The commands of nbdq without their threads: the words that it is called with, which command they run, the check of a
//! configuration, and what the shell is told. `read_command_line` has no contract, since the words come from the system; what it
//! makes of them is `asked_job`.
#![tactic(auto)]

mod checking;
mod command_line;
mod crew;
mod dispatch;
mod outcome;
mod tasks;
mod warnings;

pub use checking::{check_text, read_offer};
pub use command_line::{ControlTask, Job, ServeTask, Task, asked_job, read_command_line};
pub use crew::{Crew, Sessions};
pub use dispatch::{Commands, run_asked};
pub use outcome::{Ending, Outcome, end_of_refusal, status, status_of_end, text, text_of_end};
pub use tasks::run_buffered;
pub use warnings::write_warnings;
