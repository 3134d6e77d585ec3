//! A retune is refused for the first of its reasons. One that found no memory changed nothing, and may be made again.

use super::journals::{Kept, arrives, attaches, counts, is_as_it_was, is_served, is_within, made};
use super::*;
use nbd_commands::Rates;
use server_table::{Answer, Event};

// Whether there is no export 2, and a request of export 0 waits. Nothing is asked for then, although memory is refused.
fn keeps_its_rates(memory: Memory, server: &mut Kept, rates: Rates) -> bool {
    let before = counts(server, 0);
    memory.arm(1);
    let refused = server.retune(2, rates) == Err(NotRetuned::NoExport)
        && server.retune(0, rates) == Err(NotRetuned::Waiting);
    let same = refused && memory.is_armed() && counts(server, 0) == before;
    memory.arm(0);
    same
}

// The same behind so many retunes, with which the log may be as full as it is long.
fn keeps_them_behind(memory: Memory, rounds: u64) -> bool {
    let (Some(mut server), Ok(rates)) = (made(memory), Rates::new(0, 4, 1)) else {
        return false;
    };
    are_made(&mut server, rounds)
        && attaches(&mut server, 0)
        && arrives(&mut server)
        && keeps_its_rates(memory, &mut server, rates)
}

#[test]
fn a_retune_is_refused_in_order(rt: HostRuntime) {
    for rounds in 0..20u64 {
        let memory = Refusing::new(rt.alloc(), 0);
        assert!(rt; keeps_them_behind(&memory, rounds), "behind {rounds}");
    }
}

// Whether export 1, of which nothing waits, finds no memory for its first step, and then some.
fn changes_again(memory: Memory, server: &mut Kept, rates: Rates) -> bool {
    memory.arm(1);
    let refused = matches!(
        server.event(Event::Retune { export: 1, rates }),
        Answer::NoMemory
    );
    let same = refused && !memory.is_armed() && counts(server, 1) == Some((0, 0, 0));
    same && matches!(
        server.event(Event::Retune { export: 1, rates }),
        Answer::Retuned
    )
}

#[test]
fn a_retune_finds_memory_again(rt: HostRuntime) {
    let memory = Refusing::new(rt.alloc(), 0);
    let mut server = made(&memory).expect(&rt, "a server");
    let rates = Rates::new(0, 4, 1).expect(&rt, "in range");
    assert!(rt; attaches(&mut server, 0) && arrives(&mut server));
    assert!(rt; changes_again(&memory, &mut server, rates));
    assert!(rt; server.steps() == 3);
}

// Whether a retune that found no memory changed nothing but the base, which is no further then than after the next one.
fn retunes_again(server: &mut Kept, before: (u64, u64, u64), rates: Rates) -> bool {
    let Some((_, _, base)) = counts(server, 0) else {
        return false;
    };
    is_as_it_was(server, before) && server.retune(0, rates) == Ok(()) && is_within(server, base)
}

// Whether the rates of export 0 are others, at the second time where the first found no memory.
fn retunes(server: &mut Kept, rates: Rates) -> bool {
    let Some(before) = counts(server, 0) else {
        return false;
    };
    match server.retune(0, rates) {
        Ok(()) => true,
        Err(NotRetuned::NoMemory) => retunes_again(server, before, rates),
        Err(_) => false,
    }
}

// Whether so many retunes of export 0 are made.
fn are_made(server: &mut Kept, rounds: u64) -> bool {
    let Ok(rates) = Rates::new(0, 4, 1) else {
        return false;
    };
    for _ in 0..rounds {
        if !retunes(server, rates) {
            return false;
        }
    }
    true
}

fn log_grows(memory: Memory, nth: u64) -> bool {
    let Some(mut server) = made(memory) else {
        return false;
    };
    memory.arm(nth);
    are_made(&mut server, 20) && counts(&server, 0) == Some((20, 20, 0))
}

// From the first retune on, while the log grows.
#[test]
fn each_growth_of_a_log_is_refused_in_turn(rt: HostRuntime) {
    let mut refused = 0u64;
    for nth in 1..1000u64 {
        let memory = Refusing::new(rt.alloc(), 0);
        assert!(rt; log_grows(&memory, nth), "at {nth}");
        if memory.is_armed() {
            break;
        }
        refused = nth;
    }
    assert!(rt; refused >= 2);
}

fn base_grows(memory: Memory, nth: u64) -> bool {
    let Some(mut server) = made(memory) else {
        return false;
    };
    if !is_served(&mut server, 0, 1024) {
        return false;
    }
    memory.arm(nth);
    are_made(&mut server, 12) && counts(&server, 0) == Some((4109, 4096, 13))
}

// Where the log is full, the steps that go into the base may want memory.
#[test]
fn each_growth_of_a_base_is_refused_in_turn(rt: HostRuntime) {
    let mut refused = 0u64;
    for nth in 1..1000u64 {
        let memory = Refusing::new(rt.alloc(), 0);
        assert!(rt; base_grows(&memory, nth), "at {nth}");
        if memory.is_armed() {
            break;
        }
        refused = nth;
    }
    assert!(rt; refused >= 2);
}
