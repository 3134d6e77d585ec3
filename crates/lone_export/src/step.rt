//! The steps of one export, and their answers.

use nbd_commands::Rates;
use nbd_wire::{Reply, Request};
use std::alloc::Allocator;
use tag_clock::Moment;

/// A step of one export alone. Sessions and requests are named by their numbers in it.
#[derive(Drop)]
pub enum Step<A: Allocator> {
    /// A new session.
    Attach,
    /// A request of a session arrives at a moment, which need not be later than the moments of others.
    Arrive {
        session: u64,
        moment: Moment,
        request: Request<A>,
    },
    /// The first request that waits is taken into service.
    Pick,
    /// A request in service is done, and its reply goes to its session.
    ///
    /// `memory` tells whether memory was there for it.
    Perform {
        number: u64,
        memory: bool,
    },
    /// The oldest reply of a session is taken.
    Take {
        session: u64,
    },
    /// Nothing more arrives on a session.
    Leave {
        session: u64,
    },
    /// A session is dropped with its replies; its requests are still served.
    Gone {
        session: u64,
    },
    /// The rates are others from now on.
    Retune {
        rates: Rates,
    },
}

/// What a step of one export alone answers.
#[derive(Drop)]
pub enum StepAnswer<A: Allocator> {
    /// The number of a new session.
    Session(u64),
    /// A request waits, with its number and its limit tag in nanoseconds.
    Accepted { number: u64, limit_tag: i128 },
    /// A request was refused with this error, which its session is told (NBD protocol, "Error values").
    Answered(u32),
    /// The number of the request that is in service now.
    Picked(u64),
    /// No request waited.
    Nothing,
    /// A request was done, or told that no memory was there for it.
    Performed { memory: bool },
    /// The oldest reply of the session.
    Reply(Reply<A>),
    /// No reply is there, and one may still come.
    Empty,
    /// The session has left and got all its replies.
    End,
    /// The session has left.
    Left,
    /// The session is gone.
    Dropped,
    /// The session isn't there, or not any more.
    NotOpen,
    /// The export has made as many steps as it ever may.
    Worn,
    /// As many sessions are there as may be.
    Full,
    /// So many requests of the session are under way, or replies not yet taken, that it has to wait.
    Hold,
    /// The request isn't in service.
    NotOut,
    /// The rates are others.
    Retuned,
    /// A request of the export waits.
    Waiting,
}
