//! Memory of pages that sessions pass on to others.

use nbd_base::NoMemory;
use nbd_policy::{MOST_SPARES, is_uneven, spares_wanted};
use payload::Spares;
use std::alloc::Global;
use std::sync::{Mutex, Wait};

/// Memory of pages that nobody shows any more, and that belongs to no session.
#[derive(Drop)]
pub struct SpareStore {
    spares: Mutex<Spares<Global>>,
}

impl SpareStore {
    /// None yet.
    pub fn new(alloc: Global) -> Result<SpareStore, NoMemory> {
        let spares = Spares::with_places(alloc, MOST_SPARES)?;
        Ok(SpareStore {
            spares: Mutex::new(spares),
        })
    }

    /// A session whose WRITEs just brought so many bytes passes on spare pages where it has many, and takes some where it has few.
    pub fn level<R: Wait>(&self, rt: &R, own: &mut Spares<Global>, brought: u64) {
        let wanted = spares_wanted(brought);
        if is_uneven(own.len(), wanted) {
            own.level(&mut *self.spares.lock(rt), wanted);
        }
    }

    /// A session passes on all of its spare pages, as far as there are places.
    pub fn take_all<R: Wait>(&self, rt: &R, own: &mut Spares<Global>) {
        own.level(&mut *self.spares.lock(rt), 0);
    }
}
