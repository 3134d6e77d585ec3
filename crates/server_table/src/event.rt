//! The events of a server, and their answers.

use nbd_commands::Rates;
use nbd_wire::{Reply, Request};
use std::alloc::Allocator;
use tag_clock::{Moment, Phase};

/// An event of the whole server. Exports are named by their place in the configuration, from 0; sessions and requests
/// by their numbers in their export.
#[derive(Drop)]
pub enum Event<A: Allocator> {
    /// A new session of an export.
    Attach {
        export: u32,
    },
    /// A request of a session arrives at a moment, which need not be later than the moments of others.
    Arrive {
        export: u32,
        session: u64,
        moment: Moment,
        request: Request<A>,
    },
    /// One of all the requests that wait is to be taken into service (mClock, request scheduling).
    Dispatch {
        moment: Moment,
    },
    /// A request in service is done, and its reply goes to its session.
    Perform {
        export: u32,
        number: u64,
    },
    /// The oldest reply of a session is taken.
    Take {
        export: u32,
        session: u64,
    },
    /// Nothing more arrives on a session.
    Leave {
        export: u32,
        session: u64,
    },
    /// A session is dropped with its replies; its requests are still served.
    Gone {
        export: u32,
        session: u64,
    },
    /// The rates of an export are others from now on.
    Retune {
        export: u32,
        rates: Rates,
    },
}

/// What an event of the whole server answers.
#[derive(Drop)]
pub enum Answer<A: Allocator> {
    /// The number of a new session of that export.
    Session(u64),
    /// A request waits, with its number and its limit tag in nanoseconds.
    Accepted {
        number: u64,
        limit_tag: i128,
    },
    /// A request was refused with this error, which its session is told (NBD protocol, "Error values").
    Answered(u32),
    /// This request is in service now, chosen by this phase.
    Picked {
        export: u32,
        number: u64,
        phase: Phase,
    },
    /// Nothing is due, or as many requests are in service as may be.
    Nothing,
    /// A request was done, or told that no memory was there for it.
    Performed {
        memory: bool,
    },
    /// The oldest reply of the session.
    Reply(Reply<A>),
    /// No reply is there, and one may still come.
    Empty,
    /// The session has left and got all its replies.
    End,
    /// The session has left.
    Left,
    /// The session is gone.
    Dropped,
    /// There is no such export.
    NoExport,
    /// The session isn't there, or not any more.
    NotOpen,
    /// The export has made as many steps as it ever may.
    Worn,
    /// As many sessions of the export are there as may be.
    Full,
    /// So many requests of the session are under way, or replies not yet taken, that it has to wait.
    Hold,
    /// The request isn't in service.
    NotOut,
    /// The rates of the export are others.
    Retuned,
    /// A request of the export waits.
    Waiting,
    /// Memory was refused, and nothing changed.
    NoMemory,
}
