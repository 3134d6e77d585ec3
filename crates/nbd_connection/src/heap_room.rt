//! Room for what a session's WRITEs bring, in the C library's store of the reader's thread.

use nbd_policy::{ROOM_BYTES, makes_room};
use std::alloc::Global;

/// How much of its room a session took. glibc has the kernel open new memory block by block, and all threads of the process wait for
/// that; where a large block was given back it is open already. Nothing is kept and no page is used by it.
#[derive(Drop)]
pub struct HeapRoom {
    taken: u64,
}

impl HeapRoom {
    /// Of a session that sent no WRITE yet.
    pub fn new() -> HeapRoom {
        HeapRoom { taken: 0 }
    }

    /// WRITEs brought so many bytes more.
    pub fn note(&mut self, alloc: Global, bytes: u64) {
        self.taken = self.taken.saturating_add(bytes);
        if makes_room(self.taken) {
            self.taken = 0;
            // Where there is none, the next request that needs memory finds out.
            drop(Vec::<u8>::with_capacity(alloc, ROOM_BYTES));
        }
    }
}
