//! Requests out of a reader, whose bytes may come in pieces of any size, and replies into a writer. `specs/Frames.antt` says which request
//! comes next and how the reading ends, `specs/Streams.antt` what a counted reader or writer did.
#![tactic(auto)]

mod buffered;
mod counted;
mod ending;
mod exact_io;
mod frames;
mod intake;
mod long_write;
mod pieces;
mod replies;

pub use buffered::{Buffered, append_front};
pub use counted::Counted;
pub use ending::{Ending, Frame, is_disc};
pub use exact_io::{Filled, WriteFailed, fill, put};
pub use frames::{FrameReader, Frames};
pub use replies::put_reply;
