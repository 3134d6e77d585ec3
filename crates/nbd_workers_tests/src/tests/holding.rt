//! A gate holds a request while its session goes, or while the server stops.
ghost use Rattle.std.specs.Prelude.{◌≡◌};

use super::*;
use server_core::ArriveRefusal;
use std::marker::Brand;

const SECOND: SessionId = SessionId {
    export: 0,
    number: 1,
};

// How the session is used whose request 0 is held.
#[derive(Drop)]
pub enum Act {
    // Another request is performed meanwhile.
    Overlap,
    // It is gone meanwhile, and another session reads what it wrote.
    WriteAndRead(Global),
    // The server stops meanwhile.
    Stop,
}

// Holds request 0 until it is released, for so many turns at most, and counts the requests that were performed.
#[derive(Drop)]
pub struct Holds {
    act: Act,
    holding: AtomicU64,
    released: AtomicU64,
    performed: AtomicU64,
    pub gave_up: AtomicBool,
    // The choices that the workers still have.
    held: AtomicU64,
}

impl Holds {
    pub fn new(act: Act) -> Holds {
        Holds {
            act,
            holding: AtomicU64::new(0),
            released: AtomicU64::new(0),
            performed: AtomicU64::new(0),
            gave_up: AtomicBool::new(false),
            held: AtomicU64::new(0),
        }
    }

    fn release(&self) {
        self.released.store(1, Ordering::SeqCst);
    }
}

impl Clock for Holds {
    fn now(&self) -> Moment {
        Moment::zero()
    }
}

impl Gate for Holds {
    fn pass(&self, ticket: &Ticket) {
        if ticket.number() != 0 {
            return;
        }
        self.holding.store(1, Ordering::SeqCst);
        if !reaches(&self.released, 1) {
            self.gave_up.store(true, Ordering::SeqCst);
        }
    }

    fn done(&self, ticket: &Ticket) {
        self.performed.fetch_add(1, Ordering::SeqCst);
        if matches!(self.act, Act::Overlap) && ticket.number() == 1 {
            self.release();
        }
    }

    fn idle(&self, _due: Option<Moment>) -> bool {
        thread::yield_now();
        true
    }
}

impl Play for Holds {
    fn works<L: Ledger, R: Wait>(&self, rt: &R, shared: &Tried<L>, pass: Pass<L>) -> Pass<L> {
        let pass = work(rt, shared, self, pass);
        self.held.fetch_add(pass.held(), Ordering::SeqCst);
        pass
    }

    fn asks<L: Ledger, R: Wait>(&self, rt: &R, shared: &Tried<L>, pass: &mut Pass<L>) -> bool {
        let told = match self.act {
            Act::Overlap => overlapping::second_is_first(rt, shared, pass),
            Act::WriteAndRead(alloc) => is_written_and_read(rt, alloc, shared, pass, self),
            Act::Stop => is_stopped(rt, shared, pass, self),
        };
        self.release();
        shared.stop();
        told
    }
}

// Whether a WRITE of one byte arrives, at the place before the byte's own number.
fn writes<L: Ledger, R: Wait>(
    rt: &R,
    alloc: Global,
    shared: &Tried<L>,
    pass: &mut Pass<L>,
    byte: u8,
) -> bool {
    let offset = (byte as u64).saturating_sub(1);
    let Ok(payload) = Payload::copied(alloc, offset, [byte].as_slice()) else {
        return false;
    };
    let head = RequestHead {
        flags: 0,
        kind: WRITE,
        cookie: offset,
        offset,
        length: 1,
    };
    arrives(rt, shared, pass, FIRST, Request::new(head, payload))
}

// Whether the first session's WRITEs of three bytes arrive.
fn three_write<L: Ledger, R: Wait>(
    rt: &R,
    alloc: Global,
    shared: &Tried<L>,
    pass: &mut Pass<L>,
) -> bool {
    writes(rt, alloc, shared, pass, 1)
        && writes(rt, alloc, shared, pass, 2)
        && writes(rt, alloc, shared, pass, 3)
}

// Whether the first session is gone while its first request is held, and all three are performed then.
fn goes<L: Ledger, R: Wait>(rt: &R, shared: &Tried<L>, pass: &mut Pass<L>, gate: &Holds) -> bool {
    if !reaches(&gate.holding, 1) || shared.turn_gone(rt, pass, FIRST).is_err() {
        return false;
    }
    gate.release();
    reaches(&gate.performed, 3)
}

// Whether the second session reads the three bytes.
fn reads<L: Ledger, R: Wait>(rt: &R, shared: &Tried<L>, pass: &mut Pass<L>) -> bool {
    if !arrives(rt, shared, pass, SECOND, read_of(9, 3)) {
        return false;
    }
    match next_reply(rt, shared, pass, SECOND) {
        Some(reply) => is_three_bytes(&reply),
        None => false,
    }
}

fn is_three_bytes(reply: &Reply<Global>) -> bool {
    if reply.content().is_empty() {
        return false;
    }
    reply.cookie() == 9 && reply.content().from(0) == [1, 2, 3].as_slice()
}

// One session writes three bytes and is gone while the first is held; another reads them.
fn is_written_and_read<L: Ledger, R: Wait>(
    rt: &R,
    alloc: Global,
    shared: &Tried<L>,
    pass: &mut Pass<L>,
    gate: &Holds,
) -> bool {
    attach_two(rt, shared, pass)
        && three_write(rt, alloc, shared, pass)
        && goes(rt, shared, pass, gate)
        && reads(rt, shared, pass)
        && ends(rt, shared, pass, SECOND)
}

fn attach_two<L: Ledger, R: Wait>(rt: &R, shared: &Tried<L>, pass: &mut Pass<L>) -> bool {
    attaches(rt, shared, pass, FIRST) && attaches(rt, shared, pass, SECOND)
}

// Whether another request of the session is refused for now.
fn waits_for_room<L: Ledger, R: Wait>(rt: &R, shared: &Tried<L>, pass: &mut Pass<L>) -> bool {
    match shared.turn_arrive(rt, pass, FIRST, Moment::zero(), read_of(2, 4)) {
        Ok(_) => false,
        Err(back) => back.refusal == ArriveRefusal::Hold && back.request.head().cookie == 2,
    }
}

// The server stops while a request is held and another waits for room: the held one is performed, and the session that
// waits is gone.
fn is_stopped<L: Ledger, R: Wait>(
    rt: &R,
    shared: &Tried<L>,
    pass: &mut Pass<L>,
    gate: &Holds,
) -> bool {
    let waits = attaches(rt, shared, pass, FIRST)
        && arrives(rt, shared, pass, FIRST, read_of(1, 4))
        && reaches(&gate.holding, 1)
        && waits_for_room(rt, shared, pass);
    shared.stop();
    waits && shared.turn_gone(rt, pass, FIRST).is_ok()
}

// Whether a gate's one worker holds no request at the end, and the session and the steps are as they should be.
fn is_as_told(gate: &Holds, ran: Option<Ran>, steps: u128) -> bool {
    gate.held.load(Ordering::SeqCst) == 0 && ran == Some((true, Some(steps)))
}

#[test]
fn gone_while_held(rt: HostRuntime) {
    let gate = Holds::new(Act::WriteAndRead(rt.alloc()));
    let exports = [ExportSettings::new(b"a", 4096)];
    let exports = (exports.as_slice(), 32);
    let ran = used::<_, Brand, _>(&rt, rt.alloc(), exports, Blank::new(2), 2, &gate);
    assert!(rt; is_as_told(&gate, ran, 18));
}

#[test]
fn stopped_while_held(rt: HostRuntime) {
    let mut settings = ExportSettings::new(b"a", 4096);
    settings.window = 1;
    let gate = Holds::new(Act::Stop);
    let exports = [settings];
    let exports = (exports.as_slice(), 32);
    let ran = used::<_, Brand, _>(&rt, rt.alloc(), exports, Blank::new(2), 2, &gate);
    assert!(rt; is_as_told(&gate, ran, 5));
}
