//! What the threads of a server share.

use crate::bells::Bells;
use crate::busy_writers::BusyWriters;
use crate::figures::tally_of;
use crate::left_writes::LeftWrites;
use crate::passes::PassPool;
use eligibility::Heaped;
use export_store::Paged;
use nbd_base::NoMemory;
use nbd_commands::Config;
use nbd_options::ExportTable;
use nbd_policy::{KEPT_BLOCK_BYTES, LongReaders, is_alone, still_defers};
use nbd_threads::{
    Connections, InteractiveLoad, Retunes, RunningClock, SpareStore, SpinLadder, Turns,
};
use server_core::SessionId;
use server_lock::{Booked, Pass, Shared};
use std::alloc::Global;
use std::sync::atomic::{AtomicBool, AtomicU64, Ordering};
use std::sync::ledger::Ledger;
use std::sync::{Mutex, MutexGuard, Wait};
use std::thread::{Threads, available_parallelism};
use std::time;
use std::time::Instant;
use tag_clock::{Clock, Moment};

/// A server of disks in pages, as who has the lock sees it.
pub type Disks<L> = Booked<L, Paged<Global>, Heaped<Global>>;

/// The latest long WRITE.
#[derive(Clone, Copy, Debug, PartialEq, Eq, Drop)]
pub struct LongWrite {
    session: SessionId,
    at: Moment,
    // When another session sent its latest before it.
    other: Option<Moment>,
}

impl LongWrite {
    /// When another session sent its latest.
    fn by_another_than(&self, session: SessionId) -> Option<Moment> {
        if self.session == session {
            self.other
        } else {
            Some(self.at)
        }
    }
}

/// A server of disks in pages, and all that its threads share besides.
#[derive(Drop)]
pub struct Service<L: Ledger> {
    pub alloc: Global,
    pub shared: Shared<L, Paged<Global>, Heaped<Global>>,
    pub passes: PassPool<L>,
    pub bells: Bells,
    /// What clients are told of the exports.
    pub table: ExportTable<Global>,
    /// None where the system's clock couldn't be read.
    pub start: Option<Instant>,
    /// Whether a listener failed, so that no more connections are accepted.
    pub closed: AtomicBool,
    /// Whether the end was asked for: then none is accepted either.
    pub stopping: AtomicBool,
    pub connections: Connections,
    /// Whether a thread has the lock, more or less. Who looks for the lock reads this, which disturbs nobody; each try of the lock
    /// itself takes a part of the server out of the cache of the processor that has it.
    pub taken: AtomicBool,
    /// The interactive sessions.
    pub interactive: InteractiveLoad,
    /// Whose turn it is.
    pub turns: Turns,
    /// The rates in force, and whether others are asked for.
    pub retunes: Retunes,
    /// How many bytes of each export's WRITEs wait.
    pub waiting_writes: Vec<AtomicU64>,
    /// What of these ended sessions left.
    pub left_writes: Vec<Mutex<LeftWrites>>,
    pub latest_long: Mutex<Option<LongWrite>>,
    /// How many sessions read long data.
    pub readers: Mutex<LongReaders>,
    /// Memory of pages that sessions pass on to others.
    pub spares: SpareStore,
    /// The writers that are at work.
    pub writers: BusyWriters,
    /// How many processors there are, or one where that can't be told.
    pub processors: usize,
}

/// What waits of each export's WRITEs, and what ended sessions left of them: nothing.
fn no_writes(
    alloc: Global,
    config: &Config<Global>,
) -> Result<(Vec<AtomicU64>, Vec<Mutex<LeftWrites>>), NoMemory> {
    let mut waiting = Vec::new(alloc);
    let mut left = Vec::new(alloc);
    for _ in config.exports() {
        waiting.push(AtomicU64::new(0))?;
        left.push(Mutex::new(LeftWrites::NONE))?;
    }
    Ok((waiting, left))
}

impl<L: Ledger> Service<L> {
    /// What the threads of this server share. Its time begins now. The table is what clients are told of the exports.
    pub fn new<R: Wait + Threads + time::Clock>(
        rt: &R,
        alloc: Global,
        config: &Config<Global>,
        table: ExportTable<Global>,
        shared: Shared<L, Paged<Global>, Heaped<Global>>,
        passes: PassPool<L>,
    ) -> Result<Service<L>, NoMemory> {
        let (waiting_writes, left_writes) = no_writes(alloc, config)?;
        let tally = tally_of(alloc, config)?;
        shared.hold(rt).set_tally(tally);
        // The C library gives no block of this size back to the system from now on, which would cost more than the copies.
        drop(Vec::<u8>::with_capacity(alloc, KEPT_BLOCK_BYTES)?);
        Ok(Service {
            alloc,
            shared,
            passes,
            bells: Bells::new(alloc, config)?,
            table,
            start: Instant::now(rt).ok(),
            closed: AtomicBool::new(false),
            stopping: AtomicBool::new(false),
            connections: Connections::new(alloc),
            taken: AtomicBool::new(false),
            interactive: InteractiveLoad::new(),
            turns: Turns::new(alloc, config)?,
            retunes: Retunes::new(alloc, config)?,
            waiting_writes,
            left_writes,
            latest_long: Mutex::new(None),
            readers: Mutex::new(LongReaders::NOBODY),
            spares: SpareStore::new(alloc)?,
            writers: BusyWriters::new(),
            processors: available_parallelism(rt).map_or(1, |count| count.get()),
        })
    }

    pub fn clock<'a, R: time::Clock>(&self, rt: &'a R) -> RunningClock<'a, R> {
        RunningClock::since(rt, self.start)
    }

    /// Takes the lock, until `let_go`. A bulk session lets interactive ones go first, for a while.
    pub fn hold<R: Wait + time::Clock>(&self, rt: &R, is_bulk: bool) -> MutexGuard<'_, Disks<L>> {
        if is_bulk {
            return self.look_or_wait(rt, true);
        }
        self.interactive.begin();
        let held = self.look_or_wait(rt, false);
        self.interactive.end();
        held
    }

    /// Gives the lock back, and notes the hold, which began at a moment.
    pub fn let_go<R: time::Clock>(
        &self,
        rt: &R,
        mut held: MutexGuard<'_, Disks<L>>,
        began: Moment,
    ) {
        let now = self.clock(rt).now();
        held.note_hold(now, now.nanoseconds().saturating_sub(began.nanoseconds()));
        self.taken.store(false, Ordering::SeqCst);
        drop(held);
    }

    /// Takes the lock, however long that takes.
    fn look_or_wait<R: Wait + time::Clock>(
        &self,
        rt: &R,
        is_bulk: bool,
    ) -> MutexGuard<'_, Disks<L>> {
        let held = match self.look_long(rt, is_bulk) {
            Some(held) => held,
            None => self.shared.hold(rt),
        };
        self.taken.store(true, Ordering::SeqCst);
        held
    }

    /// The server, where the lock is free at one of many looks. A bulk session lets interactive ones go first, for a while from
    /// when it found one that asks.
    fn look_long<R: Wait + time::Clock>(
        &self,
        rt: &R,
        is_bulk: bool,
    ) -> Option<MutexGuard<'_, Disks<L>>> {
        let ladder = SpinLadder::LOCK;
        let mut defers = is_bulk;
        let mut began: Option<Moment> = None;
        for look in 0..ladder.looks {
            let held = self.look(defers);
            if held.is_some() {
                return held;
            }
            if ladder.rest_behind(look) && defers && self.interactive.is_asking() {
                let now = self.clock(rt).now();
                let since = *began.get_or_insert(now);
                defers = still_defers(now.nanoseconds().saturating_sub(since.nanoseconds()));
            }
        }
        None
    }

    /// The server, where the lock is free now. A bulk session doesn't take it while an interactive one asks for it.
    fn look(&self, is_bulk: bool) -> Option<MutexGuard<'_, Disks<L>>> {
        let yields = is_bulk && self.interactive.is_asking();
        if yields || self.taken.load(Ordering::SeqCst) {
            return None;
        }
        self.shared.try_hold()
    }

    /// Notes that a session sends a long READ in a span, in which it counts already or not. Tells how many sessions do so.
    pub fn note_long_read<R: Wait>(&self, rt: &R, span: u64, counts: bool) -> u64 {
        let mut readers = self.readers.lock(rt);
        *readers = readers.with(span, counts);
        readers.count()
    }

    /// Notes that a session sends a long WRITE. Tells whether no other did so lately.
    pub fn note_long_write<R: Wait>(&self, rt: &R, session: SessionId, now: Moment) -> bool {
        let mut latest = self.latest_long.lock(rt);
        let other = match &*latest {
            Some(last) => last.by_another_than(session),
            None => None,
        };
        let alone = is_alone(&other, now);
        *latest = Some(LongWrite {
            session,
            at: now,
            other,
        });
        alone
    }

    /// A session of an export ended, and so many bytes of its WRITEs may wait still: they count until none does. Where their figures
    /// can't be had for want of memory, they count no longer.
    pub fn leave_writes<R: Wait>(&self, rt: &R, export: u32, bytes: u64) {
        let (Some(left), true) = (self.left_writes.get(export as usize), bytes > 0) else {
            return;
        };
        match self.export_figures(rt, export) {
            Ok(Some(figures)) => {
                let mut left = left.lock(rt);
                *left = left.with(bytes, figures.chosen(), figures.waiting);
            }
            _ => self.forget_writes(export, bytes),
        }
        self.look_at_left_writes(rt, export);
    }

    /// What ended sessions of an export left counts no longer where none of it waits.
    pub fn look_at_left_writes<R: Wait>(&self, rt: &R, export: u32) {
        let Some(left) = self.left_writes.get(export as usize) else {
            return;
        };
        let mut left = left.lock(rt);
        if left.bytes == 0 {
            return;
        }
        if let Ok(Some(figures)) = self.export_figures(rt, export) {
            if left.are_chosen(figures.chosen()) {
                self.forget_writes(export, left.bytes);
                *left = LeftWrites::NONE;
            }
        }
    }

    /// So many bytes of an export's WRITEs don't count as waiting any more.
    fn forget_writes(&self, export: u32, bytes: u64) {
        if let Some(waiting) = self.waiting_writes.get(export as usize) {
            waiting.fetch_sub(bytes, Ordering::SeqCst);
        }
    }

    /// Drops the session. Where it is gone already, all stays.
    pub fn give_up<R: Wait>(&self, rt: &R, session: SessionId, pass: &mut Pass<L>) {
        let _ = self.shared.turn_gone(rt, pass, session);
    }
}
