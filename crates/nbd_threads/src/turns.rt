//! Whose turn it is among exports whose clients ask for much: the order of turns behind a lock, and the bells of those that wait.

use crate::retunes::configured_rates;
use nbd_base::NoMemory;
use nbd_commands::Config;
use nbd_policy::{BUSY_NS, LINGER_NS, MOST_EXPORTS};
use nbd_workers::Bell;
use std::alloc::Global;
use std::sync::atomic::{AtomicBool, AtomicU32, AtomicU64, Ordering};
use std::sync::{Mutex, Wait};
use std::time::Duration;
use tag_clock::{Clock, Moment};
use turn_order::{Rates, Turn, TurnOrder};

/// The order of turns, and who waits for one.
#[derive(Drop)]
pub struct Turns {
    order: Mutex<TurnOrder<Global>>,
    // The exports that asked lately, a bit for each, and when each asked last, in nanoseconds.
    busy: AtomicU64,
    asked: Vec<AtomicU64>,
    bells: Vec<Bell>,
    // How many sessions wait.
    waiting: AtomicU64,
    // How many sessions of each export have nothing at hand any more while the order still counts them, and whether there are such.
    left: Vec<AtomicU32>,
    some_left: AtomicBool,
}

/// The bit of an export, by its number.
fn bit_of(export: usize) -> u64 {
    1u64 << (export % MOST_EXPORTS) as u32
}

impl Turns {
    /// Of the exports of a configuration.
    pub fn new(alloc: Global, config: &Config<Global>) -> Result<Turns, NoMemory> {
        Turns::of(alloc, configured_rates(alloc, config)?.as_slice())
    }

    /// Of exports with these rates, 64 at most.
    pub fn of(alloc: Global, rates: &[Rates]) -> Result<Turns, NoMemory> {
        // A configuration has no more exports.
        if rates.len() > MOST_EXPORTS {
            return Err(NoMemory);
        }
        let mut asked = Vec::new(alloc);
        let mut bells = Vec::new(alloc);
        let mut left = Vec::new(alloc);
        for _ in rates {
            asked.push(AtomicU64::new(0))?;
            bells.push(Bell::new())?;
            left.push(AtomicU32::new(0))?;
        }
        Ok(Turns {
            order: Mutex::new(TurnOrder::new(alloc, rates)?),
            busy: AtomicU64::new(0),
            asked,
            bells,
            waiting: AtomicU64::new(0),
            left,
            some_left: AtomicBool::new(false),
        })
    }

    /// Whether no other export asked lately. The export itself counts from now on.
    pub fn is_alone(&self, export: u32) -> bool {
        let bit = bit_of(export as usize);
        let busy = self.busy.load(Ordering::SeqCst);
        if busy & bit == 0 {
            self.busy.fetch_or(bit, Ordering::SeqCst);
        }
        busy & !bit == 0
    }

    /// Waits for the export's turn with requests of this cost, in units. A session that `enters` counts from now on as one that has
    /// something at hand, as this flag of it says then.
    pub fn wait_for_turn<R: Wait, C: Clock>(
        &self,
        rt: &R,
        export: u32,
        cost: u32,
        enters: Option<&AtomicBool>,
        clock: &C,
    ) {
        let Some(bell) = self.bells.get(export as usize) else {
            return;
        };
        let mut enters = enters;
        for _ in rt.forever() {
            let heard = bell.heard();
            let now = clock.now();
            self.note_asked(export, now);
            let Some(nanoseconds) = self.ask(rt, export, cost, enters, now) else {
                return;
            };
            enters = None;
            bell.wait(rt, heard, Some(Duration::from_nanos(nanoseconds)));
            self.order.lock(rt).end_wait(export);
            self.waiting.fetch_sub(1, Ordering::SeqCst);
        }
    }

    /// Asks once. Where the turn has come it wakes others whose turn has come too, else it tells how long to wait.
    fn ask<R: Wait>(
        &self,
        rt: &R,
        export: u32,
        cost: u32,
        enters: Option<&AtomicBool>,
        now: Moment,
    ) -> Option<u64> {
        let mut order = self.order.lock(rt);
        self.note_left(&mut *order);
        if let Some(at_hand) = enters {
            order.enter(export, now);
            // Behind that, so that whoever finds it set and leaves, leaves what was entered.
            at_hand.store(true, Ordering::SeqCst);
        }
        match order.ask(export, now, cost) {
            Turn::Go => {
                let wakes = self.to_wake(&*order, now);
                drop(order);
                self.ring(wakes);
                None
            }
            Turn::Wait { nanoseconds } => {
                order.begin_wait(export);
                self.waiting.fetch_add(1, Ordering::SeqCst);
                Some(nanoseconds)
            }
        }
    }

    /// A session has nothing at hand any more. Where its client sends much, its export counts for a little longer.
    pub fn leave<R: Wait>(&self, rt: &R, export: u32, now: Moment, lingers: bool) {
        let mut order = self.order.lock(rt);
        self.note_left(&mut *order);
        order.leave(export);
        if lingers {
            let until = now.nanoseconds().saturating_add(LINGER_NS);
            order.linger(export, Moment::new(until).unwrap_or(now));
        }
        let wakes = self.to_wake(&*order, now);
        drop(order);
        self.ring(wakes);
    }

    /// A session has nothing at hand any more, as whoever has the order next finds. It takes no lock.
    pub fn leave_later(&self, export: u32) {
        if let Some(left) = self.left.get(export as usize) {
            left.fetch_add(1, Ordering::SeqCst);
            self.some_left.store(true, Ordering::SeqCst);
        }
    }

    /// The order doesn't count those any more that left later.
    fn note_left(&self, order: &mut TurnOrder<Global>) {
        if !self.some_left.load(Ordering::SeqCst) {
            return;
        }
        self.some_left.store(false, Ordering::SeqCst);
        let mut export = 0u32;
        for left in &self.left {
            for _ in 0..left.swap(0, Ordering::SeqCst) {
                order.leave(export);
            }
            export = export.saturating_add(1);
        }
    }

    /// The export is past its limit until a moment, so others don't wait for it. Wakes those whose turn has come by that.
    pub fn limit<R: Wait>(&self, rt: &R, export: u32, until: Moment, now: Moment) {
        let mut order = self.order.lock(rt);
        order.limit(export, until);
        let wakes = self.to_wake(&*order, now);
        drop(order);
        self.ring(wakes);
    }

    /// The export has other rates from now on. Wakes those whose turn has come by that.
    pub fn retune<R: Wait>(&self, rt: &R, export: u32, rates: Rates, now: Moment) {
        let mut order = self.order.lock(rt);
        order.retune(export, rates);
        let wakes = self.to_wake(&*order, now);
        drop(order);
        self.ring(wakes);
    }

    /// The exports that wait and whose turn has come, a bit for each.
    fn to_wake(&self, order: &TurnOrder<Global>, now: Moment) -> u64 {
        let mut wakes = 0u64;
        if self.waiting.load(Ordering::SeqCst) == 0 {
            return wakes;
        }
        let mut from = 0u32;
        for _ in 0..MOST_EXPORTS {
            let Some(export) = order.next_to_wake(from, now) else {
                break;
            };
            wakes = wakes | bit_of(export as usize);
            from = export.saturating_add(1);
        }
        wakes
    }

    fn ring(&self, wakes: u64) {
        if wakes == 0 {
            return;
        }
        for (export, bell) in self.bells.iter().enumerate() {
            if wakes & bit_of(export) != 0 {
                bell.ring();
            }
        }
    }

    /// The export asks. Others that didn't for a while don't count any more.
    fn note_asked(&self, export: u32, now: Moment) {
        let now = now.nanoseconds();
        if let Some(asked) = self.asked.get(export as usize) {
            asked.store(now, Ordering::SeqCst);
        }
        let busy = self.busy.load(Ordering::SeqCst);
        for (at, asked) in self.asked.iter().enumerate() {
            let bit = bit_of(at);
            if busy & bit != 0 && now.saturating_sub(asked.load(Ordering::SeqCst)) > BUSY_NS {
                self.busy.fetch_and(!bit, Ordering::SeqCst);
            }
        }
    }
}
