//! What the threads of one connection share: the session with its outlet (`SessionLink`), where its bytes come from (`Feed`, `ReadAhead`),
//! and what of it is under way. `rules` has what the threads decide by values, with contracts, as parts of `Feed` and of `Discards` have;
//! numbers and the other rules are nbd_policy's. The rest has no contract and is tested instead, since it reads and writes sockets, takes
//! locks and wakes threads.
#![tactic(auto)]

mod discards;
mod early_writer;
mod feed;
mod outlet;
mod port;
mod read_ahead;
mod ready_replies;
pub mod rules;
mod session_link;
mod under_way;

pub use discards::Discards;
pub use feed::Feed;
pub use outlet::{FlushOutcome, Outlet};
pub use read_ahead::ReadAhead;
pub use ready_replies::ReadyReplies;
pub use session_link::SessionLink;
pub use under_way::{Admitted, BytesUnderWay};
