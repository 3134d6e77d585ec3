//! The journals of a server's exports: what they hold, and that an export for which no memory was there is as it was.

use super::*;
use export_cell::Outdated;

pub type Kept<'a> = Server<Paged<Memory<'a>>, Heaped<Memory<'a>>>;

// Two exports; two requests of a session may be under way.
fn configured<'a>(memory: Memory<'a>) -> Option<Config<Memory<'a>>> {
    let mut list = ExportList::new(memory);
    for name in [b"a", b"b"] {
        if list
            .add(&settings(name.as_slice(), &[0, 0, 1, 2, 2]))
            .is_err()
        {
            return None;
        }
    }
    Config::new(list, 4).ok()
}

pub fn made<'a>(memory: Memory<'a>) -> Option<Kept<'a>> {
    let Some(config) = configured(memory) else {
        return None;
    };
    Server::new(memory, &config).ok()
}

// How many steps an export counted, how many its log has, and how many its base has made.
pub fn counts(server: &Kept, export: u32) -> Option<(u64, u64, u64)> {
    let Some(cell) = server.journal(export) else {
        return None;
    };
    cell.laws();
    Some((cell.steps(), cell.kept(), cell.base().steps()))
}

// Whether the export has counted as many steps as before, and has them in its base and its log.
pub fn is_as_it_was(server: &Kept, before: (u64, u64, u64)) -> bool {
    let Some((steps, kept, base)) = counts(server, 0) else {
        return false;
    };
    steps == before.0 && steps.checked_sub(base) == Some(kept) && before.2 <= base
}

// Whether the base went no further than this.
pub fn is_within(server: &Kept, base: u64) -> bool {
    match counts(server, 0) {
        Some(now) => base <= now.2,
        None => false,
    }
}

// Whether an attach that found no memory changed nothing but the base, and the next one opens a session of this number.
fn attaches_again(server: &mut Kept, before: (u64, u64, u64), number: u64) -> bool {
    let Some((_, _, base)) = counts(server, 0) else {
        return false;
    };
    is_as_it_was(server, before)
        && server.attach(0) == Ok(SessionId { export: 0, number })
        && is_within(server, base)
}

// Whether a session of export 0 is opened under this number, at the second time where the first found no memory.
pub fn attaches(server: &mut Kept, number: u64) -> bool {
    let Some(before) = counts(server, 0) else {
        return false;
    };
    match server.attach(0) {
        Ok(session) => session.number == number,
        Err(NotAttached::NoMemory) => attaches_again(server, before, number),
        Err(_) => false,
    }
}

// Whether an arrival that found no memory changed nothing but the base, and the same request then waits.
fn arrives_again<'a>(
    server: &mut Kept<'a>,
    before: (u64, u64, u64),
    request: Request<Memory<'a>>,
) -> bool {
    let Some((_, _, base)) = counts(server, 0) else {
        return false;
    };
    is_as_it_was(server, before)
        && server.waiting() == 0
        && request.head().cookie == 7
        && server.arrive(FIRST, at(0), request).is_ok()
        && is_within(server, base)
}

// Whether a READ of session 0 of export 0 waits, at the second time where the first found no memory.
pub fn arrives(server: &mut Kept) -> bool {
    let Some(before) = counts(server, 0) else {
        return false;
    };
    match server.arrive(FIRST, at(0), read_of(7)) {
        Ok(_) => true,
        Err(NotArrived { refusal, request }) => {
            refusal == ArriveRefusal::NoMemory && arrives_again(server, before, request)
        }
    }
}

// Whether a READ of session 0 arrives, is performed, and its reply taken.
fn serves_one(server: &mut Kept) -> bool {
    if !arrives(server) {
        return false;
    }
    let Some(chosen) = server.dispatch(at(0)) else {
        return false;
    };
    server.perform(chosen.ticket).is_some() && server.take_reply(FIRST).is_ok()
}

// Whether this session is opened, and so many READs of session 0 are served.
pub fn is_served(server: &mut Kept, session: u64, rounds: u64) -> bool {
    if !attaches(server, session) {
        return false;
    }
    for _ in 0..rounds {
        if !serves_one(server) {
            return false;
        }
    }
    true
}

// The oldest steps go into the base, and other exports keep theirs.
#[test]
fn each_export_keeps_its_journal(rt: HostRuntime) {
    let memory = Refusing::new(rt.alloc(), 0);
    let mut server = made(&memory).expect(&rt, "a server");
    assert!(rt; counts(&server, 0) == Some((0, 0, 0)) && counts(&server, 2).is_none());
    assert!(rt; server.attach(1).is_ok());
    assert!(rt; is_served(&mut server, 0, 1024));
    assert!(rt; counts(&server, 0) == Some((4097, 4097, 0)));
    assert!(rt; is_served(&mut server, 1, 6));
    assert!(rt; counts(&server, 0) == Some((4122, 4099, 23)));
    assert!(rt; counts(&server, 1) == Some((1, 1, 0)));
    assert!(rt; server.steps() == 4123);
}

fn log_grows(memory: Memory, nth: u64) -> bool {
    let Some(mut server) = made(memory) else {
        return false;
    };
    memory.arm(nth);
    is_served(&mut server, 0, 100) && counts(&server, 0) == Some((401, 401, 0))
}

// From the opening on, while the log grows.
#[test]
fn each_growth_of_a_log_is_refused_in_turn(rt: HostRuntime) {
    let mut refused = 0u64;
    for nth in 1..1000u64 {
        let memory = Refusing::new(rt.alloc(), 0);
        assert!(rt; log_grows(&memory, nth), "at {nth}");
        if memory.is_armed() {
            break;
        }
        refused = nth;
    }
    assert!(rt; refused >= 6);
}

fn base_grows(memory: Memory, nth: u64) -> bool {
    let Some(mut server) = made(memory) else {
        return false;
    };
    if !is_served(&mut server, 0, 1024) {
        return false;
    }
    memory.arm(nth);
    is_served(&mut server, 1, 6) && counts(&server, 0) == Some((4122, 4099, 23))
}

// Where the log is full, the steps that go into the base may want memory too.
#[test]
fn each_growth_of_a_base_is_refused_in_turn(rt: HostRuntime) {
    let mut refused = 0u64;
    for nth in 1..1000u64 {
        let memory = Refusing::new(rt.alloc(), 0);
        assert!(rt; base_grows(&memory, nth), "at {nth}");
        if memory.is_armed() {
            break;
        }
        refused = nth;
    }
    assert!(rt; refused >= 3);
}

// Of an export that is there, and of one that isn't.
fn sweeps<'a>(memory: Memory<'a>, server: &mut Kept<'a>) -> bool {
    let Ok(mut outdated) = Outdated::with_room(memory, 4) else {
        return false;
    };
    server.sweep(0, &mut outdated);
    server.sweep(2, &mut outdated);
    server.catch_up(0, usize::MAX);
    server.catch_up(2, 1);
    true
}

#[test]
fn a_sweep_is_no_step(rt: HostRuntime) {
    let memory = Refusing::new(rt.alloc(), 0);
    let mut server = made(&memory).expect(&rt, "a server");
    assert!(rt; attaches(&mut server, 0));
    assert!(rt; sweeps(&memory, &mut server));
    assert!(rt; counts(&server, 0) == Some((1, 1, 0)));
}
