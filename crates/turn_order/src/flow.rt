//! One export: what it may have, what it had, and what it has at hand.
ghost use Rattle.std.specs.Prelude.{◌≡◌, ◌*◌};
ghost use Rattle.turn_order.specs.Flows.{later_by, interval_of, flow_of, contends_at, due_at, late_at, one_more, wait_of, reserved_after, tuned};
ghost use Rattle.turn_order.specs.Contenders.{slack_of, resume_of, goes_on, credit_of, turn_of, time_after, charged};

use crate::contenders::Contenders;
use crate::{LATE, MADE_UP, OWN_SLACK, PATIENCE, RESUME, Rates, SCALE, SEEN, SLACK, Turn};

/// A second, in nanoseconds.
const SECOND: u64 = 1_000_000_000;

/// What is known of an export. Moments are in nanoseconds.
#[derive(Clone, Copy, Debug, PartialEq, Eq)]
pub struct Flow {
    /// How far its virtual time goes by one unit.
    pub step: u64,
    /// Nanoseconds between two units of its reservation; 0 where it has none.
    pub reservation_interval: u64,
    pub virtual_time: u128,
    /// When its reservation is due next.
    pub reserved_at: u128,
    /// When it isn't past its limit any more.
    pub limited_until: u128,
    /// When one of its sessions asked or came last.
    pub seen: u128,
    /// How many of its sessions have something at hand, and how many wait.
    pub sessions: u32,
    pub waiting: u32,
    /// Until when it counts as having something at hand in any case.
    pub lingers_until: u128,
    /// Whether it was told to wait, and didn't go on by weight since.
    pub stopped: bool,
}

/// A time that goes on by an interval for each unit, up to the last one that there is.
fn go_on(time: u128, cost: u32, interval: u64) -> u128
    ensures { result ≡ later_by time cost interval }
{
    let more = u128::from(cost) * u128::from(interval);
    if more <= u128::MAX - time {
        time + more
    } else {
        u128::MAX
    }
}

/// One more, up to the greatest number.
pub fn add_one(count: u32) -> u32
    ensures { result ≡ one_more count }
{
    if count < u32::MAX { count + 1 } else { count }
}

/// How many nanoseconds lie between two units at so many a second.
fn interval(rate: u32) -> u64
    ensures { result ≡ interval_of rate }
{
    if rate == 0 {
        0
    } else {
        SECOND / u64::from(rate)
    }
}

impl Flow {
    /// Of an export that had nothing so far.
    pub fn new(rates: Rates) -> Flow
        ensures { result ≡ flow_of rates }
    {
        Flow {
            step: SCALE / u64::from(rates.weight.max(1)),
            reservation_interval: interval(rates.reservation),
            virtual_time: 0,
            reserved_at: 0,
            limited_until: 0,
            seen: 0,
            sessions: 0,
            waiting: 0,
            lingers_until: 0,
            stopped: false,
        }
    }

    /// At other rates from now on: its reservation begins anew, it isn't past its limit, and isn't ahead of the clock by more than a
    /// slack of its own units.
    pub fn tuned(&self, rates: Rates, clock: u128) -> Flow
        ensures { result ≡ tuned rates clock self.now }
    {
        let fresh = Flow::new(rates);
        let most = clock.saturating_add(u128::from(SLACK) * u128::from(fresh.step));
        Flow {
            step: fresh.step,
            reservation_interval: fresh.reservation_interval,
            virtual_time: self.virtual_time.min(most),
            reserved_at: fresh.reserved_at,
            limited_until: fresh.limited_until,
            ..*self
        }
    }

    /// Whether others wait for it: it has something at hand, isn't past its limit, and was seen lately.
    pub fn contends(&self, now: u128) -> bool
        ensures { result ≡ contends_at now self.now }
    {
        (self.sessions > 0 || now < self.lingers_until)
            && self.limited_until <= now
            && now.saturating_sub(self.seen) <= u128::from(SEEN)
    }

    /// Whether it has a reservation that is due.
    fn is_due(&self, now: u128) -> bool
        ensures { result ≡ due_at now self.now }
    {
        self.reservation_interval > 0 && now >= self.reserved_at
    }

    /// Whether it has a reservation that was due some time ago.
    pub fn is_late(&self, now: u128) -> bool
        ensures { result ≡ late_at now self.now }
    {
        self.reservation_interval > 0 && self.reserved_at <= now.saturating_sub(u128::from(LATE))
    }

    /// How far it may be ahead of the first of the contenders.
    fn slack(&self, all: &Contenders) -> u128
        ensures { result ≡ slack_of all.now self.now }
    {
        let heaviest = u128::from(SLACK) * u128::from(all.step);
        heaviest.max(u128::from(OWN_SLACK) * u128::from(self.step))
    }

    /// How far it may be ahead to go on where it was stopped.
    fn resume(&self, all: &Contenders) -> u128
        ensures { result ≡ resume_of all.now self.now }
    {
        let heaviest = u128::from(RESUME) * u128::from(all.step);
        heaviest.max(u128::from(OWN_SLACK) * u128::from(self.step))
    }

    /// How far it may be behind where it comes back: a slack where it was seen lately.
    pub fn credit(&self, all: &Contenders, now: u128) -> u128
        ensures { result ≡ credit_of now all.now self.now }
    {
        if now.saturating_sub(self.seen) <= u128::from(SEEN) {
            self.slack(all)
        } else {
            0
        }
    }

    /// Whether it goes on.
    pub fn may_go(&self, all: &Contenders, now: u128) -> bool
        ensures { result ≡ goes_on now all.now self.now }
    {
        if self.is_late(now) {
            return true;
        }
        if all.late {
            return false;
        }
        if self.is_due(now) {
            return true;
        }
        let ahead = self.virtual_time.saturating_sub(all.first);
        if self.stopped {
            ahead <= self.resume(all)
        } else {
            ahead <= self.slack(all)
        }
    }

    /// How long it waits before it asks again: until its reservation is due, or for a while.
    fn wait(&self, now: u128) -> u64
        ensures { result ≡ wait_of now self.now }
    {
        let patience = u128::from(PATIENCE);
        if self.reservation_interval > 0 && now < self.reserved_at {
            (self.reserved_at - now).min(patience) as u64
        } else {
            PATIENCE
        }
    }

    /// Whether it goes on, or for how long it waits.
    pub fn turn(&self, all: &Contenders, now: u128) -> Turn
        ensures { result ≡ turn_of now all.now self.now }
    {
        if self.may_go(all, now) {
            Turn::Go
        } else {
            Turn::Wait {
                nanoseconds: self.wait(now),
            }
        }
    }

    /// Its virtual time after a turn. One by reservation takes it no further ahead than the slack.
    fn time_after(&self, all: &Contenders, now: u128, cost: u32) -> u128
        ensures { result ≡ time_after now cost all.now self.now }
    {
        let full = go_on(self.virtual_time, cost, self.step);
        if self.is_due(now) {
            let most = all.first.saturating_add(self.slack(all));
            self.virtual_time.max(full.min(most))
        } else {
            full
        }
    }

    /// When its reservation is due after a turn. One by weight leaves it.
    fn reserved_after(&self, now: u128, cost: u32) -> u128
        ensures { result ≡ reserved_after now cost self.now }
    {
        if self.is_due(now) {
            let from = self
                .reserved_at
                .max(now.saturating_sub(u128::from(MADE_UP)));
            go_on(from, cost, self.reservation_interval)
        } else {
            self.reserved_at
        }
    }

    /// After a turn.
    pub fn charged(&self, all: &Contenders, now: u128, cost: u32) -> Flow
        ensures { result ≡ charged now cost all.now self.now }
    {
        Flow {
            virtual_time: self.time_after(all, now, cost),
            reserved_at: self.reserved_after(now, cost),
            stopped: self.stopped && self.is_due(now),
            ..*self
        }
    }
}
