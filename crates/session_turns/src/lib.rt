//! The turns of a session of the threaded server: what its client sent is handed in, and its replies are taken and written.
//! `specs/SessionTurns.antt` says what a turn does.
#![tactic(auto)]

mod door;
mod held_turns;
mod laws;
mod ready_reply;
mod reply_writer;
mod taking;
mod turns;

pub use door::Door;
pub use held_turns::{hand_in, offer_held, read_ready};
pub use laws::replies_in_order;
pub use ready_reply::{REPLY_HEAD_BYTES, ReadyReply};
pub use reply_writer::ReplyWriter;
pub use taking::{Stop, take_one, take_replies, take_reply};
pub use turns::{Arrival, Turn, WriteTurn, offer, read_turn, write_turn};
