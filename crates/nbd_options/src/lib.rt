//! The haggling of one client over options, without any reading or writing (NBD protocol, "Fixed newstyle negotiation").
//! `specs/Haggled.antt` says what is said to a list of options, and how haggling ends.
#![tactic(auto)]

mod answers;
mod attach;
mod haggle;
mod laws;
mod protocol;
mod saying;
mod shape;
mod table;

pub use answers::{Next, OptionReply};
pub use attach::{Always, Attach, Attached};
pub use haggle::{Haggle, HeadFault};
pub use laws::options_in_turn;
pub use saying::{HaggleEnd, greeting, name_reply, no_zeroes, said};
pub use table::ExportTable;
