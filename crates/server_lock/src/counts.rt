//! What is counted of an export.
ghost use Rattle.std.specs.Prelude.{◌≡◌};
ghost use Rattle.server_lock.specs.Tally.{no_counts, raised, with_choice, with_data, with_error, with_performed};

use nbd_wire::RequestHead;
use nbd_wire::protocol::{READ, WRITE};
use tag_clock::Phase;

/// What is counted of an export. Each count stops at its greatest value.
#[derive(Clone, Copy, Debug, PartialEq, Eq, Drop)]
pub struct ExportCounts {
    /// Requests that were chosen by reservation.
    pub by_reservation: u64,
    /// Requests that were chosen by weight.
    pub by_weight: u64,
    /// Requests that were performed.
    pub performed: u64,
    /// Requests that were answered with an error, at their arrival or for want of memory.
    pub errors: u64,
    /// Bytes that READs asked for which were accepted.
    pub read_bytes: u64,
    /// Bytes that WRITEs carried which were accepted.
    pub written_bytes: u64,
}

impl ExportCounts {
    /// Nothing.
    pub const NOTHING: ExportCounts = ExportCounts {
        by_reservation: 0,
        by_weight: 0,
        performed: 0,
        errors: 0,
        read_bytes: 0,
        written_bytes: 0,
    };

    /// A request with this head was accepted.
    pub fn count_data(&mut self, head: RequestHead)
        ensures { self.new ≡ with_data self.old head }
    {
        let bytes = u64::from(head.length);
        match head.kind {
            READ => self.read_bytes = raised(self.read_bytes, bytes),
            WRITE => self.written_bytes = raised(self.written_bytes, bytes),
            _ => {}
        }
    }

    /// One was chosen.
    pub fn count_choice(&mut self, phase: Phase)
        ensures { self.new ≡ with_choice self.old phase }
    {
        match phase {
            Phase::Reservation => self.by_reservation = raised(self.by_reservation, 1),
            Phase::Weight => self.by_weight = raised(self.by_weight, 1),
        }
    }

    /// One was answered with an error.
    pub fn count_error(&mut self)
        ensures { self.new ≡ with_error self.old }
    {
        self.errors = raised(self.errors, 1);
    }

    /// One was performed; where no memory was there for it, it is answered with an error.
    pub fn count_performed(&mut self, memory: bool)
        ensures { self.new ≡ with_performed self.old memory }
    {
        self.performed = raised(self.performed, 1);
        if !memory {
            self.count_error();
        }
    }
}

fn raised(count: u64, more: u64) -> u64
    ensures { result ≡ raised count more }
{
    count.saturating_add(more)
}
