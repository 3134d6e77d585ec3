//! One connection of a server: its handshake, a thread that reads requests and hands them in, one that writes replies, and one
//! that reads its bytes ahead. `WriteTimes` has contracts; what else the threads decide by values is nbd_policy's, and `rules` of
//! nbd_link. The rest, `enter` and `serve`, has no contract and is tested instead, since it reads and writes sockets, takes locks
//! and wakes threads.
#![tactic(auto)]

mod batch;
mod connection;
mod handshake;
mod heap_room;
mod hold_clock;
mod preparing;
mod reader;
mod write_times;
mod writer;

pub use connection::{Entered, enter, serve};
