//! A ticket is found while its request is in service, and is good once. A request that is refused comes back.

use super::*;

type One = Tried<Heaped<Global>>;

// Whether a request arrives, and a second one is held and comes back.
fn holds_the_second(server: &mut One) -> bool {
    if server.arrive(FIRST, at(0), read_of(1)).is_err() {
        return false;
    }
    match server.arrive(FIRST, at(0), read_of(2)) {
        Ok(_) => false,
        Err(back) => back.refusal == ArriveRefusal::Hold && back.request.head().cookie == 2,
    }
}

// The ticket of the request that waits, where it is number 0 of export 0 and is found as that alone.
fn ticket_of(server: &mut One) -> Option<Ticket> {
    let Some(chosen) = server.dispatch(at(0)) else {
        return None;
    };
    let ticket = chosen.ticket;
    let is_first = (ticket.export(), ticket.number()) == (0, 0);
    let is_found = server.find(0, 0) == Some(ticket) && server.find(7, 0).is_none();
    if is_first && is_found {
        Some(ticket)
    } else {
        None
    }
}

fn is_good_once(server: &mut One) -> bool {
    let Some(ticket) = ticket_of(server) else {
        return false;
    };
    server.perform(ticket) == Some(true)
        && server.perform(ticket).is_none()
        && server.find(0, 0).is_none()
}

// Whether 63 sessions more are opened, in the order of their numbers, and no further one.
fn fills(server: &mut One) -> bool {
    for number in 1..64u64 {
        if server.attach(0) != Ok(SessionId { export: 0, number }) {
            return false;
        }
    }
    server.attach(0) == Err(NotAttached::Full)
}

#[test]
fn tickets_are_good_once(rt: HostRuntime) {
    let mut server = server_of::<Heaped<Global>>(rt.alloc(), &[[0, 0, 1, 8, 1]], 1).expect(
        &rt, "a server",
    );
    assert!(rt; server.attach(0) == Ok(FIRST));
    assert!(rt; holds_the_second(&mut server));
    assert!(rt; server.waiting() == 1);
    assert!(rt; is_good_once(&mut server));
    assert!(rt; fills(&mut server));
    assert!(rt; (server.waiting(), server.steps()) == (0, 67));
}
