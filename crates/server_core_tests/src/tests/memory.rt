//! Each growth of `new` is refused in turn. An attach that finds no memory opens no session, and a request that finds none
//! comes back; what follows takes none.

use super::*;

type Small<'a> = Server<Paged<Memory<'a>>, Listed<Memory<'a>>>;

fn config_in<'a>(memory: Memory<'a>) -> Option<Config<Memory<'a>>> {
    let mut list = ExportList::new(memory);
    if list.add(&settings(b"a", &[0, 0, 1, 8, 8])).is_err() {
        return None;
    }
    Config::new(list, 4).ok()
}

fn flush_in<'a>() -> Request<Memory<'a>> {
    let head = RequestHead {
        flags: 0,
        kind: FLUSH,
        cookie: 7,
        offset: 0,
        length: 0,
    };
    Request::new(head, Payload::new())
}

// Whether a server is made, while memory is refused as armed.
fn is_made<'a>(memory: Memory<'a>, config: &Config<Memory<'a>>) -> bool {
    let made: Result<Server<Paged<Memory<'a>>, Heaped<Memory<'a>>>, _> = Server::new(
        memory, config,
    );
    made.is_ok()
}

// Whether a server is made while the nth growth is refused; where it isn't, one is made behind it. None where even that
// isn't.
fn is_made_at(memory: Memory, nth: u64) -> Option<bool> {
    let Some(config) = config_in(memory) else {
        return None;
    };
    memory.arm(nth);
    if is_made(memory, &config) {
        return Some(true);
    }
    if is_made(memory, &config) {
        Some(false)
    } else {
        None
    }
}

#[test]
fn new_wants_memory(rt: HostRuntime) {
    let mut refused = 0u64;
    for nth in 1..100u64 {
        let memory = Refusing::new(rt.alloc(), 0);
        let made = is_made_at(&memory, nth).expect(&rt, "made behind the refusal");
        if made {
            break;
        }
        refused = nth;
    }
    assert!(rt; refused > 0);
}

fn small<'a>(memory: Memory<'a>) -> Option<Small<'a>> {
    let Some(config) = config_in(memory) else {
        return None;
    };
    Server::new(memory, &config).ok()
}

// Whether the request that waits is chosen and performed, and its reply taken.
fn is_done(server: &mut Small) -> bool {
    match server.dispatch(at(0)) {
        Some(chosen) => {
            server.perform(chosen.ticket) == Some(true) && server.take_reply(FIRST).is_ok()
        }
        None => false,
    }
}

// Whether an attach that finds no memory opens no session, and the next one session 0.
fn attaches_behind(memory: Memory, server: &mut Small) -> bool {
    memory.arm(1);
    server.attach(0) == Err(NotAttached::NoMemory) && server.attach(0) == Ok(FIRST)
}

// The request that comes back for want of memory: none of a hundred before it is left undone.
fn back_of<'a>(server: &mut Small<'a>) -> Option<Request<Memory<'a>>> {
    for _ in 0..100u64 {
        match server.arrive(FIRST, at(0), flush_in()) {
            Ok(_) => {
                if !is_done(server) {
                    return None;
                }
            }
            Err(NotArrived { refusal, request }) => {
                return if refusal == ArriveRefusal::NoMemory {
                    Some(request)
                } else {
                    None
                };
            }
        }
    }
    None
}

// Whether a request comes back for want of memory, and then waits alone.
fn arrives_behind(memory: Memory, server: &mut Small) -> bool {
    memory.arm(1);
    let Some(request) = back_of(server) else {
        return false;
    };
    request.head().cookie == 7
        && server.waiting() == 0
        && server.arrive(FIRST, at(0), request).is_ok()
}

// Whether the tags want memory once.
fn tells_behind<'a>(memory: Memory<'a>, server: &Small<'a>) -> bool {
    memory.arm(1);
    matches!(server.tags(memory, 0), Err(NoTags::NoMemory)) && server.tags(memory, 0).is_ok()
}

#[test]
fn sessions_want_memory(rt: HostRuntime) {
    let memory = Refusing::new(rt.alloc(), 0);
    let mut server = small(&memory).expect(&rt, "a server");
    assert!(rt; attaches_behind(&memory, &mut server));
    assert!(rt; arrives_behind(&memory, &mut server));
    assert!(rt; tells_behind(&memory, &server));
    memory.arm(1);
    assert!(rt; is_done(&mut server));
    assert!(rt; server.leave(FIRST).is_ok() && server.gone(FIRST).is_ok());
    assert!(rt; memory.is_armed());
}
