//! When a dispatch chooses next. A limit of 10 a second is an interval of 100,000,000 nanoseconds, a reservation of 4 one of
//! 250,000,000.

use super::*;

// Whether so many reads arrive at the first moment.
fn are_sent<E: Eligibility<Alloc = Global>>(server: &mut Tried<E>, count: u64) -> bool {
    for _ in 0..count {
        if server.arrive(FIRST, at(0), read_of(0)).is_err() {
            return false;
        }
    }
    true
}

fn due_of<E: Eligibility<Alloc = Global>>(server: &Tried<E>) -> Option<u64> {
    match server.next_due() {
        Some(due) => Some(due.nanoseconds()),
        None => None,
    }
}

// What is due once the first of two is in service, and once it is performed.
fn of_the_first<E: Eligibility<Alloc = Global>>(
    server: &mut Tried<E>,
) -> Option<(Option<u64>, Option<u64>)> {
    let Some(chosen) = server.dispatch(at(7)) else {
        return None;
    };
    let in_service = due_of(server);
    if server.perform(chosen.ticket).is_none() {
        return None;
    }
    Some((in_service, due_of(server)))
}

// What is due once the second was chosen at the moment that it is due at, and once a third waits.
fn of_the_last<E: Eligibility<Alloc = Global>>(
    server: &mut Tried<E>,
) -> Option<(Option<u64>, Option<u64>)> {
    let Some(due) = due_of(server) else {
        return None;
    };
    if server.dispatch(at(due)).is_none() {
        return None;
    }
    let last = due_of(server);
    if !are_sent(server, 1) {
        return None;
    }
    Some((last, due_of(server)))
}

// What is due next: before anything waits, once two wait, once the first is in service, once there is no room for the
// second, once there is again, and once it was chosen.
fn dues<E: Eligibility<Alloc = Global>>(server: &mut Tried<E>) -> Option<[Option<u64>; 6]> {
    if server.attach(0) != Ok(FIRST) {
        return None;
    }
    let idle = due_of(server);
    if !are_sent(server, 2) {
        return None;
    }
    let first = due_of(server);
    let Some((in_service, done)) = of_the_first(server) else {
        return None;
    };
    let Some((last, third)) = of_the_last(server) else {
        return None;
    };
    Some([idle, first, in_service, done, last, third])
}

fn tells<E: Eligibility<Alloc = Global>>(
    alloc: Global,
    rates: [u64; 5],
    inflight: u64,
    told: [Option<u64>; 6],
) -> bool {
    let Some(mut server) = server_of::<E>(alloc, &[rates], inflight) else {
        return false;
    };
    dues(&mut server) == Some(told)
}

fn both_tell(alloc: Global, rates: [u64; 5], inflight: u64, told: [Option<u64>; 6]) -> bool {
    tells::<Listed<Global>>(alloc, rates, inflight, told)
        && tells::<Heaped<Global>>(alloc, rates, inflight, told)
}

#[test]
fn what_is_due_next(rt: HostRuntime) {
    let alloc = rt.alloc();
    let (now, second, third) = (Some(0), Some(100_000_000), Some(200_000_000));
    let limited = [0, 10, 1, 8, 8];
    assert!(rt; both_tell(alloc, limited, 32, [None, now, second, second, None, third]));
    assert!(rt; both_tell(alloc, limited, 1, [None, now, None, second, None, None]));
    let reserved = [4, 0, 1, 8, 8];
    assert!(rt; both_tell(alloc, reserved, 32, [None, now, now, now, None, now]));
}
