//! The bytes of requests, replies and options (NBD protocol, "Message format", newstyle negotiation and transmission
//! with simple replies). `specs/Grammar.antt` says how each is spelled.
#![tactic(auto)]

mod appending;
mod begun;
mod fault;
mod feeding;
mod fields;
mod laws;
mod options;
mod pieces;
pub mod protocol;
mod replies;
mod requests;

pub use begun::{BegunWrite, begin_write};
pub use fault::{FeedFault, WireFault};
pub use feeding::Decoder;
pub use laws::{one_head, one_option, one_option_head, one_option_reply, one_reply, one_request};
pub use options::{read_option_head, write_option_head, write_option_reply};
pub use replies::{Reply, write_reply, write_reply_head};
pub use requests::{MAX_PAYLOAD, Request, RequestHead, read_head, write_head};
