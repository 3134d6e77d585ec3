use nbd_base::NoMemory;
use std::alloc::{Allocator, Global};
use tag_clock::Moment;
use turn_order::*;

mod by_hand;
mod many;

// A call of a turn order, moments in microseconds, and what it is to answer.
#[derive(Clone, Copy)]
enum Call {
    // An export asks for so many units, and its turn has come.
    Goes(u32, u32, u32),
    // Its turn hasn't come, and it waits for a millisecond at most.
    Waits(u32, u32, u32),
    // It waits for so many nanoseconds at most.
    WaitsFor(u32, u32, u32, u64),
    Enter(u32, u32),
    Leave(u32),
    Linger(u32, u32),
    // It is past its limit until a moment.
    Limit(u32, u32),
    Retune(u32, Rates),
    BeginWait(u32),
    EndWait(u32),
    // From a number on, the next one to wake.
    Wakes(u32, u32, Option<u32>),
}

fn rates(reservation: u32, limit: u32, weight: u32) -> Rates {
    Rates {
        reservation,
        limit,
        weight,
    }
}

fn at(microseconds: u32) -> Option<Moment> {
    Moment::new(u64::from(microseconds) * 1_000)
}

fn two_of<A: Allocator>(alloc: A, first: Rates, second: Rates) -> Result<TurnOrder<A>, NoMemory> {
    TurnOrder::new(alloc, &[first, second])
}

fn is_answered<A: Allocator>(
    order: &mut TurnOrder<A>,
    export: u32,
    now: u32,
    cost: u32,
    turn: Turn,
) -> bool {
    let Some(now) = at(now) else {
        return false;
    };
    order.ask(export, now, cost) == turn
}

fn enters<A: Allocator>(order: &mut TurnOrder<A>, export: u32, now: u32) -> bool {
    let Some(now) = at(now) else {
        return false;
    };
    order.enter(export, now);
    true
}

fn lingers<A: Allocator>(order: &mut TurnOrder<A>, export: u32, until: u32) -> bool {
    let Some(until) = at(until) else {
        return false;
    };
    order.linger(export, until);
    true
}

fn limits<A: Allocator>(order: &mut TurnOrder<A>, export: u32, until: u32) -> bool {
    let Some(until) = at(until) else {
        return false;
    };
    order.limit(export, until);
    true
}

fn wakes<A: Allocator>(order: &TurnOrder<A>, from: u32, now: u32, next: Option<u32>) -> bool {
    let Some(now) = at(now) else {
        return false;
    };
    order.next_to_wake(from, now) == next
}

// Whether a call answers what it is to.
fn is_so<A: Allocator>(order: &mut TurnOrder<A>, call: &Call) -> bool {
    match *call {
        Call::Goes(export, now, cost) => is_answered(order, export, now, cost, Turn::Go),
        Call::Waits(export, now, cost) => {
            let turn = Turn::Wait {
                nanoseconds: 1_000_000,
            };
            is_answered(order, export, now, cost, turn)
        }
        Call::WaitsFor(export, now, cost, nanoseconds) => {
            is_answered(order, export, now, cost, Turn::Wait { nanoseconds })
        }
        Call::Enter(export, now) => enters(order, export, now),
        Call::Leave(export) => {
            order.leave(export);
            true
        }
        Call::Linger(export, until) => lingers(order, export, until),
        Call::Limit(export, until) => limits(order, export, until),
        Call::Retune(export, rates) => {
            order.retune(export, rates);
            true
        }
        Call::BeginWait(export) => {
            order.begin_wait(export);
            true
        }
        Call::EndWait(export) => {
            order.end_wait(export);
            true
        }
        Call::Wakes(from, now, next) => wakes(order, from, now, next),
    }
}

// The first call that answers otherwise, counted from 1, in an order of two exports; 0 where all answer so.
fn first_wrong(alloc: Global, first: Rates, second: Rates, calls: &[Call]) -> usize {
    let Ok(mut order) = two_of(alloc, first, second) else {
        return usize::MAX;
    };
    for (place, call) in calls.iter().enumerate() {
        if !is_so(&mut order, call) {
            return place.saturating_add(1);
        }
    }
    0
}
