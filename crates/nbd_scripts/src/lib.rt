//! Scripts: reading them, and what `talk` and `replay` write of them. docs/FORMATS.md has their layout.
#![tactic(auto)]

mod answers;
mod body;
mod conversation;
mod events;
mod fault;
mod head;
mod lines;
mod numbers;
mod outcome;
mod reading;
mod refused;
mod replay_line;
mod replaying;
mod settings;
mod tags;
mod verbs;
mod writing;

pub use conversation::talk_script;
pub use outcome::Outcome;
pub use reading::read_whole;
pub use replaying::replay_script;
pub use writing::tell_text;
