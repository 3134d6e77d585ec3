//! What the next requests of a session read or change is touched before they are handed in. It mostly is in no cache, and a processor
//! waits for several such places at once, but for one after another where each is met in a request's own work.

use crate::service::Disks;
use export_cell::ExportCell;
use export_store::Paged;
use lone_export::Step;
use nbd_wire::protocol::{READ, WRITE};
use nbd_wire::{Request, RequestHead};
use payload::PAGE;
use std::alloc::Global;
use std::sync::ledger::Ledger;

/// Touches the place of the first page of each WRITE among the next requests, so many at most, and likewise what the oldest steps of
/// the log are to change in the base; or of each READ, and the count of that page's owners.
/// Tells how many of the pages are held, more or less: what is told matters only in that it stands on all that was touched.
/// Where another request comes next, or none is ready, it touches nothing: what that changes is in no such place.
pub fn prefetch<L: Ledger>(
    disks: &Disks<L>,
    export: u32,
    ready: &[Request<Global>],
    most: usize,
) -> u64 {
    match (ready.last(), disks.server().journal(export)) {
        (Some(next), Some(cell)) if next.head().kind == WRITE => {
            touch_all(cell, ready, most).wrapping_add(touch_base(cell, most))
        }
        (Some(next), Some(cell)) if next.head().kind == READ => touch_all(cell, ready, most),
        _ => 0,
    }
}

fn touch_all(cell: &ExportCell<Paged<Global>>, ready: &[Request<Global>], most: usize) -> u64 {
    let image = cell.live().image();
    let mut touched = 0u64;
    for request in ready.iter().rev().take(most) {
        touched = touched.wrapping_add(touch(image, request));
    }
    touched
}

/// Where steps are queued for the base, those of the log aren't the next that go into it: then it touches nothing.
fn touch_base(cell: &ExportCell<Paged<Global>>, most: usize) -> u64 {
    let Some(base) = cell.base().image() else {
        return 0;
    };
    let mut touched = 0u64;
    for group in cell.entries().groups().iter().take(most) {
        if let Step::Arrive { request, .. } = &group.step {
            touched = touched.wrapping_add(touch(base, request));
        }
    }
    touched
}

/// Whether the first page of a WRITE is held, or that of a READ is stored alone.
fn touch(image: &Paged<Global>, request: &Request<Global>) -> u64 {
    let RequestHead { kind, offset, .. } = request.head();
    match kind {
        WRITE => image.holds(offset as usize / PAGE) as u64,
        READ => image.has_alone(offset as usize / PAGE) as u64,
        _ => 0,
    }
}
