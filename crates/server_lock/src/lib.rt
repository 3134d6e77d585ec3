//! A server under a lock, and the passes of those who act on it: each turn is one event of the server.
//!
//! A `Booked` is a server with the book of a ledger (`std::sync::ledger`), whose total is the server's count of steps. Each
//! actor has a `Pass`, one part of that ledger, which counts the steps that its own turns made. No pass can be copied, and
//! only turns change a `Booked`; so what `settle` adds up is what was counted, whoever made which turn.
//!
//! Beside the server a `Booked` has a `Tally`, in which the turns count by their traces what each export did. Of that no contract of a
//! turn speaks.
#![tactic(auto)]

mod counts;
mod shared;
mod tally;
mod trace;
mod turns;

pub use counts::ExportCounts;
pub use shared::Shared;
pub use tally::{ExportTally, Tally};
pub use trace::{AnswerTrace, EventTrace, Trace};
pub use turns::{
    Booked, Pass, settle, turn_arrive, turn_attach, turn_dispatch, turn_gone, turn_leave,
    turn_perform, turn_retune, turn_take,
};
