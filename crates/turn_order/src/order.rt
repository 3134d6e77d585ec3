//! The flows of all exports.
ghost use Rattle.std.specs.Prelude.{◌≡◌, ◌<◌, ◌^◌, ◌&&◌, nat_le, length, map, slice_get, IfOk};
ghost use Rattle.turn_order.specs.Flows.{flow_of};
ghost use Rattle.turn_order.specs.Orders.{placed, back, entered, left, lingering, limited, retuned, wait_begun, wait_ended, answer, asked, turned, answered, first_waking, wakes};

use crate::contenders::gather;
use crate::flow::{Flow, add_one};
use crate::{Rates, Turn};
use nbd_base::NoMemory;
use std::alloc::Allocator;
use std::marker::Model;
use tag_clock::Moment;

/// Whose turn it is. An export that isn't there has its turn always, and changes nothing.
#[derive(Debug, Drop)]
pub struct TurnOrder<A: Allocator> {
    flows: Vec<Flow, A>,
    // The greatest virtual time that the first of the contenders had at a turn.
    clock: u128,
}

impl<A: Allocator> Model for TurnOrder<A> {
    ghost use Rattle.std.specs.Prelude.{◌<◌, ◌^◌, length};
    ghost use Rattle.turn_order.specs.Orders.{Order};

    ghost Value = { Order };

    ghost view = { λ o. record { flows = o.flows.items; clock = o.clock } };

    ghost invariant = { λ o. length o.flows.items < 2 ^ 32 };
}

impl<A: Allocator> TurnOrder<A> {
    /// Of so many exports, by number. None has anything at hand.
    pub fn new(alloc: A, rates: &[Rates]) -> Result<TurnOrder<A>, NoMemory>
        requires { length rates.now < 2 ^ 32 }
        ensures flows { IfOk result (λ order. order.flows ≡ map flow_of rates.now) }
        ensures clock { IfOk result (λ order. order.clock ≡ 0) }
    {
        let mut flows = Vec::new(alloc);
        for rates in rates {
            flows.push(Flow::new(*rates))?;
        }
        Ok(TurnOrder { flows, clock: 0 })
    }

    /// A session of the export has something at hand from now on.
    pub fn enter(&mut self, export: u32, now: Moment)
        ensures { self.new ≡ entered export now self.old }
    {
        let Some(flow) = self.flow(export) else {
            return;
        };
        let back = self.back(flow, u128::from(now.nanoseconds()));
        self.put(
            export,
            Flow {
                sessions: add_one(flow.sessions),
                ..back
            },
        );
    }

    /// A session of the export has nothing at hand any more.
    pub fn leave(&mut self, export: u32)
        ensures { self.new ≡ left export self.old }
    {
        let Some(flow) = self.flow(export) else {
            return;
        };
        self.put(
            export,
            Flow {
                sessions: flow.sessions.saturating_sub(1),
                ..flow
            },
        );
    }

    /// The export counts as having something at hand until a moment in any case.
    pub fn linger(&mut self, export: u32, until: Moment)
        ensures { self.new ≡ lingering export until self.old }
    {
        let Some(flow) = self.flow(export) else {
            return;
        };
        let until = u128::from(until.nanoseconds());
        self.put(
            export,
            Flow {
                lingers_until: flow.lingers_until.max(until),
                ..flow
            },
        );
    }

    /// The export is past its limit until a moment: nobody waits for it meanwhile.
    pub fn limit(&mut self, export: u32, until: Moment)
        ensures { self.new ≡ limited export until self.old }
    {
        let Some(flow) = self.flow(export) else {
            return;
        };
        let until = u128::from(until.nanoseconds());
        self.put(
            export,
            Flow {
                limited_until: flow.limited_until.max(until),
                ..flow
            },
        );
    }

    /// The export has other rates from now on. What its sessions have at hand stays, and so does its virtual time up to a slack.
    pub fn retune(&mut self, export: u32, rates: Rates)
        ensures { self.new ≡ retuned export rates self.old }
    {
        let Some(flow) = self.flow(export) else {
            return;
        };
        self.put(export, flow.tuned(rates, self.clock));
    }

    /// A session of the export waits for its turn from now on.
    pub fn begin_wait(&mut self, export: u32)
        ensures { self.new ≡ wait_begun export self.old }
    {
        let Some(flow) = self.flow(export) else {
            return;
        };
        self.put(
            export,
            Flow {
                waiting: add_one(flow.waiting),
                ..flow
            },
        );
    }

    /// A session of the export doesn't wait any more.
    pub fn end_wait(&mut self, export: u32)
        ensures { self.new ≡ wait_ended export self.old }
    {
        let Some(flow) = self.flow(export) else {
            return;
        };
        self.put(
            export,
            Flow {
                waiting: flow.waiting.saturating_sub(1),
                ..flow
            },
        );
    }

    /// Asks for a turn of so many units: where it has come the export is charged, and else a session is to wait.
    pub fn ask(&mut self, export: u32, now: Moment, cost: u32) -> Turn
        ensures answer { result ≡ answer export now self.old }
        ensures order { self.new ≡ asked export now cost self.old }
    {
        let Some(flow) = self.flow(export) else {
            return Turn::Go;
        };
        let now = u128::from(now.nanoseconds());
        let back = self.back(flow, now);
        self.put(export, back);
        self.take(export, back, now, cost)
    }

    /// The first export, from a number on, where a session waits and the turn has come.
    pub fn next_to_wake(&self, from: u32, now: Moment) -> Option<u32>
        ensures { result ≡ first_waking now self.now.flows from 0 self.now.flows }
    {
        let now = u128::from(now.nanoseconds());
        for (export, flow) in self.flows.iter().enumerate() {
            if self.is_next(export as u32, from, flow, now) {
                return Some(export as u32);
            }
        }
        None
    }

    fn wakes(&self, flow: &Flow, now: u128) -> bool
        ensures { result ≡ wakes now self.now.flows flow.now }
    {
        flow.waiting > 0 && flow.may_go(&gather(&self.flows, flow, now), now)
    }

    fn is_next(&self, export: u32, from: u32, flow: &Flow, now: u128) -> bool
        ensures { result ≡ (nat_le from export && wakes now self.now.flows flow.now) }
    {
        from <= export && self.wakes(flow, now)
    }

    fn flow(&self, export: u32) -> Option<Flow>
        ensures { result ≡ slice_get self.now.flows export }
    {
        self.flows.get(export as usize).copied()
    }

    fn put(&mut self, export: u32, flow: Flow)
        ensures { self.new ≡ placed export flow self.old }
    {
        let at = export as usize;
        if at < self.flows.len() {
            self.flows[at] = flow;
        }
    }

    /// The flow as it is seen: one that comes back isn't behind the clock by more than its credit.
    fn back(&self, flow: Flow, now: u128) -> Flow
        ensures { result ≡ back now self.now flow }
    {
        let virtual_time = if flow.contends(now) {
            flow.virtual_time
        } else {
            let all = gather(&self.flows, &flow, now);
            let least = self.clock.saturating_sub(flow.credit(&all, now));
            flow.virtual_time.max(least)
        };
        Flow {
            virtual_time,
            seen: now,
            ..flow
        }
    }

    /// Charges the flow where its turn has come.
    fn take(&mut self, export: u32, flow: Flow, now: u128, cost: u32) -> Turn
        ensures answer { result ≡ answered now flow self.old }
        ensures order { self.new ≡ turned export now cost flow self.old }
    {
        let all = gather(&self.flows, &flow, now);
        let turn = flow.turn(&all, now);
        if turn == Turn::Go {
            self.put(export, flow.charged(&all, now, cost));
            self.clock = self.clock.max(all.first);
        } else {
            self.put(
                export,
                Flow {
                    stopped: true,
                    ..flow
                },
            );
        }
        turn
    }
}
