//! All exports of a server behind one type: each call is one step of the table of all exports.
#![tactic(auto)]

mod event;
mod member;
mod refusal;
mod runs;
mod server;
mod session;
mod tagging;
mod ticket;
mod way;

pub use refusal::{ArriveRefusal, NoTags, NotArrived, NotAttached, NotRetuned, SessionRefusal};
pub use runs::run;
pub use server::Server;
pub use session::SessionId;
pub use ticket::{Chosen, Ticket};
