//! What is counted of each export beside the server, by what the turns made.
ghost use Rattle.std.specs.Prelude.{◌≡◌, ◌%◌, ◌<◌, ◌++◌, ◌∷◌, [], length, map, option_map, replicate, slice_get, IfOk, OnErr};
ghost use Rattle.std.specs.Int.{IsPowerOfTwo, IsNextPowerOfTwo};
ghost use Rattle.nbd_measures.specs.Holds.{no_holds, noted};
ghost use Rattle.server_lock.specs.Tally.{arrived, chosen, no_counts, performed, refused, with_known};

use crate::counts::ExportCounts;
use nbd_base::NoMemory;
use nbd_measures::{HoldCount, LatestWaits, WaitQuantiles};
use nbd_wire::RequestHead;
use std::alloc::Allocator;
use std::marker::Model;
use tag_clock::{Moment, Phase};

/// What is known of an export beside the server.
#[derive(Drop)]
pub struct ExportTally<A: Allocator> {
    counts: ExportCounts,
    // The moments at which its latest requests arrived, each found by the last bits of the request's number.
    arrivals: Vec<u64, A>,
    waits: LatestWaits<A>,
}

impl<A: Allocator> Model for ExportTally<A> {
    ghost use Rattle.std.specs.Prelude.{length};
    ghost use Rattle.std.specs.Int.{IsPowerOfTwo};
    ghost use Rattle.server_lock.specs.Tally.{Known};

    ghost Value = { Known };

    ghost view = { λ t.
        record { counts = t.counts; arrivals = t.arrivals.items; waits = t.waits } };

    ghost invariant = { λ t. IsPowerOfTwo (length t.arrivals.items) };
}

impl<A: Allocator + Copy> ExportTally<A> {
    /// Of an export of which so many requests may wait or be in service. Room is kept for the next power of two.
    pub fn new(alloc: A, requests: usize) -> Result<ExportTally<A>, NoMemory>
        ensures counts { IfOk result (λ tally. tally.counts ≡ no_counts) }
        ensures room { IfOk result (λ tally. IsNextPowerOfTwo requests (length tally.arrivals)) }
        ensures arrivals { IfOk result (λ tally.
            tally.arrivals ≡ replicate (length tally.arrivals) 0) }
        ensures waits { IfOk result (λ tally. tally.waits ≡ []) }
    {
        let Some(room) = requests.checked_next_power_of_two() else {
            return Err(NoMemory);
        };
        Ok(ExportTally {
            counts: ExportCounts::NOTHING,
            arrivals: Vec::from_elem(alloc, 0u64, room)?,
            waits: LatestWaits::new(alloc)?,
        })
    }

    pub fn counts(&self) -> ExportCounts
        ensures { result ≡ self.now.counts }
    {
        let counts = self.counts;
        counts
    }

    /// How long the latest requests waited that were chosen.
    pub fn waits(&self) -> &LatestWaits<A>
        ensures { result.now ≡ self.now.waits }
    {
        &self.waits
    }

    /// A request with this number and head arrived at a moment, and was accepted.
    fn note_arrival(&mut self, number: u64, moment: Moment, head: RequestHead)
        ensures { self.new ≡ arrived self.old number moment head }
    {
        self.counts.count_data(head);
        let at = place(number, self.arrivals.len());
        self.arrivals[at] = moment.nanoseconds();
    }

    /// It was chosen at a moment.
    fn note_choice(&mut self, number: u64, moment: Moment, phase: Phase)
        ensures { self.new ≡ chosen self.old number moment phase }
    {
        self.counts.count_choice(phase);
        let arrival = self.arrivals[place(number, self.arrivals.len())];
        self.waits
            .note(moment.nanoseconds().saturating_sub(arrival));
    }

    fn note_error(&mut self)
        ensures { self.new ≡ refused self.old }
    {
        self.counts.count_error();
    }

    fn note_performed(&mut self, memory: bool)
        ensures { self.new ≡ performed self.old memory }
    {
        self.counts.count_performed(memory);
    }
}

/// A number's place among so many, by its last bits.
fn place(number: u64, room: usize) -> usize
    requires { IsPowerOfTwo room }
    ensures place { result ≡ number % room }
    ensures within { result < room }
{
    (number & (room as u64 - 1)) as usize
}

/// What is counted beside a server. Counting takes no memory.
#[derive(Drop)]
pub struct Tally<A: Allocator> {
    exports: Vec<ExportTally<A>, A>,
    holds: HoldCount,
}

impl<A: Allocator> Model for Tally<A> {
    ghost use Rattle.server_lock.specs.Tally.{Tallied};

    ghost Value = { Tallied };

    ghost view = { λ t. record { exports = t.exports.items; holds = t.holds } };
}

impl<A: Allocator + Copy> Tally<A> {
    /// Of no exports: nothing is counted but holds.
    pub fn new(alloc: A) -> Tally<A>
        ensures exports { result.exports ≡ [] }
        ensures holds { result.holds ≡ no_holds }
    {
        Tally {
            exports: Vec::new(alloc),
            holds: HoldCount::new(),
        }
    }

    /// One more export, the next by number.
    pub fn add(&mut self, export: ExportTally<A>) -> Result<(), NoMemory>
        ensures { IfOk result (λ _.
            self.new ≡ record self.old { exports = self.old.exports ++ export ∷ [] }) }
    {
        self.exports.push(export)?;
        Ok(())
    }

    pub fn export(&self, export: u32) -> Option<&ExportTally<A>>
        ensures { option_map (λ tally. tally.now) result ≡ slice_get self.now.exports export }
    {
        self.exports.get(export as usize)
    }

    /// How often the server was held, as far as it was noted.
    pub fn holds(&self) -> HoldCount
        ensures { result ≡ self.now.holds }
    {
        let holds = self.holds;
        holds
    }

    /// A hold of so many nanoseconds ends now.
    pub fn note_hold(&mut self, now: Moment, length: u64)
        ensures { self.new ≡ record self.old { holds = noted self.old.holds now length } }
    {
        self.holds.note(now, length);
    }

    /// A request with this number and head arrived at a moment, and was accepted by an export.
    pub fn note_arrival(&mut self, export: u32, number: u64, moment: Moment, head: RequestHead)
        ensures { self.new ≡ with_known self.old export
            (option_map (λ known. arrived known number moment head)
            (slice_get self.old.exports export)) }
    {
        if let Some(tally) = self.exports.get_mut(export as usize) {
            tally.note_arrival(number, moment, head);
        }
    }

    /// A request was answered with an error as it arrived.
    pub fn note_error(&mut self, export: u32)
        ensures { self.new ≡ with_known self.old export
            (option_map (λ known. refused known) (slice_get self.old.exports export)) }
    {
        if let Some(tally) = self.exports.get_mut(export as usize) {
            tally.note_error();
        }
    }

    /// The request with this number was chosen at a moment.
    pub fn note_choice(&mut self, export: u32, number: u64, moment: Moment, phase: Phase)
        ensures { self.new ≡ with_known self.old export
            (option_map (λ known. chosen known number moment phase)
            (slice_get self.old.exports export)) }
    {
        if let Some(tally) = self.exports.get_mut(export as usize) {
            tally.note_choice(number, moment, phase);
        }
    }

    /// A request was performed; where no memory was there for it, it is answered with an error.
    pub fn note_performed(&mut self, export: u32, memory: bool)
        ensures { self.new ≡ with_known self.old export
            (option_map (λ known. performed known memory) (slice_get self.old.exports export)) }
    {
        if let Some(tally) = self.exports.get_mut(export as usize) {
            tally.note_performed(memory);
        }
    }
}
