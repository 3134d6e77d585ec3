//! What the threads of a server know of each other and of its connections, beside the server itself: whose turn it is, who asks for
//! little, which worker keeps the time, the rates in force, the open connections with their figures, spare pages, clocks, and how a
//! thread looks for what it waits for. The rates in force and a read that doesn't wait have contracts. The rest has none and is tested
//! instead, since it takes locks, wakes threads, looks at sockets and reads flags that others write. Numbers and rules over values are
//! nbd_policy's.
#![tactic(auto)]

mod connections;
mod descriptors;
mod interactive;
mod keepalive;
mod retunes;
mod running_clock;
mod spare_store;
mod spin;
mod spin_read;
mod timekeeper;
mod turn_seat;
mod turns;

pub use connections::{Connection, Connections, SessionFigures, Traffic};
pub use descriptors::room_for_connections;
pub use interactive::InteractiveLoad;
pub use keepalive::keep_alive;
pub use retunes::{RatesInForce, RetuneGate, Retunes};
pub use running_clock::RunningClock;
pub use spare_store::SpareStore;
pub use spin::SpinLadder;
pub use spin_read::{SpinRead, has_input};
pub use timekeeper::Timekeeper;
pub use turn_seat::TurnSeat;
pub use turns::Turns;
