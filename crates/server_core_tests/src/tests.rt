use eligibility::{Eligibility, Heaped, Listed};
use export_store::Paged;
use nbd_commands::{Config, ExportList, ExportSettings};
use nbd_wire::protocol::{FLUSH, READ};
use nbd_wire::{Reply, Request, RequestHead};
use payload::Payload;
use refusing::Refusing;
use server_core::*;
use std::alloc::{Allocator, Global};
use tag_clock::Moment;

mod due;
mod filling;
mod growths;
mod journals;
mod memory;
mod retunes;
mod tickets;

type Tried<E> = Server<Paged<Global>, E>;

type Memory<'a> = &'a Refusing<Global>;

// The first session of the first export.
const FIRST: SessionId = SessionId {
    export: 0,
    number: 0,
};

fn at(nanoseconds: u64) -> Moment {
    Moment::new(nanoseconds).unwrap_or(Moment::zero())
}

// Of an export of 4 bytes, by its reservation, limit, weight, depth and window.
fn settings(name: &'static [u8], rates: &[u64; 5]) -> ExportSettings<'static> {
    let mut settings = ExportSettings::new(name, 4);
    settings.reservation = rates[0];
    settings.limit = rates[1];
    settings.weight = rates[2];
    settings.depth = rates[3];
    settings.window = rates[4];
    settings
}

fn config_of(alloc: Global, exports: &[[u64; 5]], inflight: u64) -> Option<Config<Global>> {
    let mut list = ExportList::new(alloc);
    for (name, rates) in [b"a", b"b"].iter().zip(exports) {
        if list.add(&settings(name.as_slice(), rates)).is_err() {
            return None;
        }
    }
    Config::new(list, inflight).ok()
}

fn server_of<E: Eligibility<Alloc = Global>>(
    alloc: Global,
    exports: &[[u64; 5]],
    inflight: u64,
) -> Option<Tried<E>> {
    let Some(config) = config_of(alloc, exports, inflight) else {
        return None;
    };
    Server::new(alloc, &config).ok()
}

// A READ of 4 bytes.
fn read_of<A: Allocator>(cookie: u64) -> Request<A> {
    let head = RequestHead {
        flags: 0,
        kind: READ,
        cookie,
        offset: 0,
        length: 4,
    };
    Request::new(head, Payload::new())
}
