//! The server as its threads share it: `Service` (its lock, and who goes first to it) and what is done around a hold. The faults, the
//! outcome of a retune, WRITEs that ended sessions left, how long it is known who asked for a request and what follows from an
//! export's counts have contracts. The rest has none and is tested instead, since it takes locks and wakes threads: `Service`, the
//! bells, the writers at work, the passes, the wake-ups, where the figures of exports come from, the workers' gate and the retunes;
//! and prefetching, which changes nothing. Numbers and rules over values are nbd_policy's, what needs no server is nbd_threads'.
#![tactic(auto)]

mod askers;
mod bells;
mod busy_writers;
mod fault;
mod figures;
mod left_writes;
mod passes;
mod prefetching;
mod retuning;
mod service;
mod wakeups;
mod worker_gate;

pub use askers::Askers;
pub use bells::Bells;
pub use busy_writers::BusyWriters;
pub use fault::ServeFault;
pub use figures::{ExportFigures, tally_of};
pub use left_writes::LeftWrites;
pub use passes::PassPool;
pub use prefetching::prefetch;
pub use retuning::RetuneOutcome;
pub use service::{Disks, LongWrite, Service};
pub use wakeups::{Asked, Wakeups};
pub use worker_gate::WorkerGate;
