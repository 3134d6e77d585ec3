//! Steps that are queued for the base come to what a plain fold of them comes to.

use super::*;
use nbd_wire::protocol::{CACHE, TRIM, WRITE_ZEROES};

// The steps that were made, noted beside the cell.
type Steps<'a> = Vec<Step<Heap<'a>>, Heap<'a>>;

const SIZE: usize = 64;

const SESSIONS: u64 = 3;

#[derive(Clone, Copy)]
enum Queueing {
    // Queued steps come to a fold where so much work is done besides.
    ComesToAFold(usize),
    // 8,192 of 11,908 steps are queued that left the log at once.
    IsBounded,
    // The same as a fold with a refusal from the arrival on that queues a thousand steps.
    Grows,
}

impl Trial for Queueing {
    fn holds<'a>(&self, cell: &mut Cell<'a>, heap: Heap<'a>, nth: u64) -> bool {
        let mut steps = Vec::new(heap);
        self.holds_noting(cell, &mut steps, heap, nth)
    }
}

impl Queueing {
    fn holds_noting<'a>(
        &self,
        cell: &mut Cell<'a>,
        steps: &mut Steps<'a>,
        heap: Heap<'a>,
        nth: u64,
    ) -> bool {
        match *self {
            Queueing::ComesToAFold(most) => is_folded(cell, steps, heap, most),
            Queueing::IsBounded => is_queued(cell, steps, heap),
            Queueing::Grows => is_queued_at_last(cell, steps, heap, nth),
        }
    }
}

fn settings() -> ExportSettings<'static> {
    ExportSettings {
        depth: 4096,
        window: 4096,
        ..of_size(SIZE as u64)
    }
}

fn requested<A: Allocator>(
    kind: u16,
    offset: u64,
    length: u32,
    payload: Payload<A>,
) -> Option<Request<A>> {
    if kind == WRITE && payload.len() != length as usize || length > 64 {
        return None;
    }
    if kind != WRITE && !payload.is_empty() {
        return None;
    }
    let head = RequestHead {
        flags: 0,
        kind,
        cookie: 7,
        offset,
        length,
    };
    Some(Request::new(head, payload))
}

// The request of this number: a WRITE, zeros, a READ, a trim, or a WRITE at an odd place.
fn request_of(heap: Heap<'_>, number: u64) -> Option<Request<Heap<'_>>> {
    let place = number % 6 * 8;
    match number % 5 {
        1 => requested(WRITE_ZEROES, place, 12, Payload::new()),
        2 => requested(READ, place, 8, Payload::new()),
        3 => requested(TRIM, place, 4, Payload::new()),
        rest => write_at(heap, place + rest, (number % 251) as u8),
    }
}

fn write_at(heap: Heap<'_>, place: u64, byte: u8) -> Option<Request<Heap<'_>>> {
    let bytes = [byte; 8];
    match Payload::copied(heap, place, &bytes) {
        Ok(payload) => requested(WRITE, place, 8, payload),
        Err(_) => None,
    }
}

fn attaches<'a>(cell: &mut Cell<'a>, steps: &mut Steps<'a>) -> bool {
    for _ in 0..SESSIONS {
        if cell.attach().is_err() || steps.push(Step::Attach).is_err() {
            return false;
        }
    }
    true
}

// Notes the arrival of the request of this number.
fn notes<'a>(steps: &mut Steps<'a>, heap: Heap<'a>, number: u64) -> bool {
    match request_of(heap, number) {
        Some(request) => steps.push(arrive_of(number, request)).is_ok(),
        None => false,
    }
}

fn arrive_of<'a>(number: u64, request: Request<Heap<'a>>) -> Step<Heap<'a>> {
    Step::Arrive {
        session: number % SESSIONS,
        moment: Moment::zero(),
        request,
    }
}

fn comes<'a>(cell: &mut Cell<'a>, heap: Heap<'a>, number: u64) -> bool {
    match request_of(heap, number) {
        Some(request) => arrival(cell, number % SESSIONS, request).is_ok(),
        None => false,
    }
}

fn arrives<'a>(cell: &mut Cell<'a>, steps: &mut Steps<'a>, heap: Heap<'a>, number: u64) -> bool {
    notes(steps, heap, number) && comes(cell, heap, number)
}

// The first request that waits is picked and performed, every second READ without memory.
fn performs<'a>(cell: &mut Cell<'a>, steps: &mut Steps<'a>, heap: Heap<'a>, number: u64) -> bool {
    let memory = !is_refused(number);
    heap.arm(is_refused(number) as u64);
    let done = performed(cell);
    heap.arm(0);
    done == Some((number, memory))
        && steps.push(Step::Pick).is_ok()
        && steps.push(Step::Perform { number, memory }).is_ok()
}

fn is_refused(number: u64) -> bool {
    number % 10 == 2
}

// The reply to the request of this number is taken.
fn is_taken<'a>(cell: &mut Cell<'a>, steps: &mut Steps<'a>, number: u64) -> bool {
    let session = number % SESSIONS;
    steps.push(Step::Take { session }).is_ok() && takes(cell, session)
}

// The requests of these numbers arrive.
fn all_arrive<'a>(
    cell: &mut Cell<'a>,
    steps: &mut Steps<'a>,
    heap: Heap<'a>,
    first: u64,
    end: u64,
) -> bool {
    for number in first..end {
        if !arrives(cell, steps, heap, number) {
            return false;
        }
    }
    true
}

// They are served one after another.
fn each_is_served<'a>(
    cell: &mut Cell<'a>,
    steps: &mut Steps<'a>,
    heap: Heap<'a>,
    first: u64,
    end: u64,
) -> bool {
    for number in first..end {
        if !performs(cell, steps, heap, number) || !is_taken(cell, steps, number) {
            return false;
        }
    }
    true
}

// All are performed, and then all replies are taken.
fn all_are_served<'a>(
    cell: &mut Cell<'a>,
    steps: &mut Steps<'a>,
    heap: Heap<'a>,
    first: u64,
    end: u64,
) -> bool {
    for number in first..end {
        if !performs(cell, steps, heap, number) {
            return false;
        }
    }
    for number in first..end {
        if !is_taken(cell, steps, number) {
            return false;
        }
    }
    true
}

// Requests of so many numbers, which bring the log to 4,003 steps, and so many more that all wait before the first of them is served: when
// the next one arrives, three times as many steps have to go.
fn is_filled<'a>(
    cell: &mut Cell<'a>,
    steps: &mut Steps<'a>,
    heap: Heap<'a>,
    served: u64,
    more: u64,
) -> bool {
    let end = served.saturating_add(more);
    attaches(cell, steps)
        && all_arrive(cell, steps, heap, 0, served)
        && each_is_served(cell, steps, heap, 0, served)
        && all_arrive(cell, steps, heap, served, end)
        && all_are_served(cell, steps, heap, served, end)
}

// One request more, and so much work is done besides.
fn goes_on<'a>(
    cell: &mut Cell<'a>,
    steps: &mut Steps<'a>,
    heap: Heap<'a>,
    number: u64,
    most: usize,
) -> bool {
    let arrived = arrives(cell, steps, heap, number);
    cell.catch_up(most);
    arrived
        && performs(cell, steps, heap, number)
        && is_taken(cell, steps, number)
        && is_kept(cell, steps.len() as u64)
}

// Some requests one by one.
fn all_go_on<'a>(cell: &mut Cell<'a>, steps: &mut Steps<'a>, heap: Heap<'a>, most: usize) -> bool {
    for number in 1900..1950u64 {
        if !goes_on(cell, steps, heap, number, most) {
            return false;
        }
    }
    true
}

// Whether all these steps are made.
fn makes<'a>(lone: &mut LoneExport<'a>, heap: Heap<'a>, steps: &[Step<Heap<'a>>]) -> bool {
    let mut answers = Vec::new(heap);
    lone.replay_all(steps, &mut answers) == Ok(steps.len())
}

// The bytes of an export alone once these steps are made go behind these.
fn folds_into<'a>(heap: Heap<'a>, steps: &[Step<Heap<'a>>], bytes: &mut Vec<u8, Heap<'a>>) -> bool {
    match alone(heap, &settings()) {
        Some(mut lone) => makes(&mut lone, heap, steps) & read_into(lone.image(), bytes),
        None => false,
    }
}

// The bytes of the base go behind these, where all of its steps are made.
fn base_into<'a>(cell: &Cell<'a>, bytes: &mut Vec<u8, Heap<'a>>) -> bool {
    match cell.base().image() {
        Some(image) => read_into(image, bytes),
        None => false,
    }
}

// Whether the base, all of whose steps are made, is what those steps come to that aren't in the log.
fn is_fold<'a>(cell: &Cell<'a>, steps: &[Step<Heap<'a>>], heap: Heap<'a>) -> bool {
    let mut own = Vec::new(heap);
    let mut other = Vec::new(heap);
    let read = base_into(cell, &mut own);
    let folded = match steps.get(..cell.base().steps() as usize) {
        Some(first) => folds_into(heap, first, &mut other),
        None => false,
    };
    read & folded & (own.len() == SIZE) & (own.as_slice() == other.as_slice())
}

// Whether all are made at last, and the base comes to that fold.
fn ends_as_fold<'a>(cell: &mut Cell<'a>, steps: &Steps<'a>, heap: Heap<'a>) -> bool {
    cell.catch_up(usize::MAX);
    is_fold(cell, steps.as_slice(), heap)
}

// Whether the base comes to that fold where so much work is done besides.
fn is_folded<'a>(cell: &mut Cell<'a>, steps: &mut Steps<'a>, heap: Heap<'a>, most: usize) -> bool {
    is_filled(cell, steps, heap, 700, 1200)
        && cell.base().queued() == 0
        && all_go_on(cell, steps, heap, most)
        && waits(cell) == (most < 50)
        && ends_as_fold(cell, steps, heap)
}

fn waits(cell: &Cell<'_>) -> bool {
    cell.base().queued() > 0 && cell.base().image().is_none()
}

fn comes_to_a_fold(alloc: Global, most: usize) -> bool {
    holds(alloc, &settings(), &Queueing::ComesToAFold(most))
}

#[test]
fn queued_steps_come_to_a_fold(rt: HostRuntime) {
    assert!(rt; comes_to_a_fold(rt.alloc(), 0));
    assert!(rt; comes_to_a_fold(rt.alloc(), 1));
    assert!(rt; comes_to_a_fold(rt.alloc(), 7));
    assert!(rt; comes_to_a_fold(rt.alloc(), 1000));
    assert!(rt; comes_to_a_fold(rt.alloc(), usize::MAX));
}

// Whether 8,192 of 11,908 steps are queued that left the log at once, and some of them are made with the next arrival.
fn is_queued<'a>(cell: &mut Cell<'a>, steps: &mut Steps<'a>, heap: Heap<'a>) -> bool {
    is_filled(cell, steps, heap, 0, 4000)
        && arrives(cell, steps, heap, 4000)
        && counts(cell) == (16004, 4096, 11908)
        && cell.base().queued() == 8192
        && arrives(cell, steps, heap, 4001)
        && cell.base().queued() < 8192
        && ends_as_fold(cell, steps, heap)
}

#[test]
fn a_queue_has_8192_steps(rt: HostRuntime) {
    assert!(rt; holds(rt.alloc(), &settings(), &Queueing::IsBounded));
}

// Whether request 1,300 arrives where a growth is refused, which leaves all as it was.
fn comes_at_last<'a>(cell: &mut Cell<'a>, heap: Heap<'a>, nth: u64) -> bool {
    match request_of(heap, 1300) {
        Some(request) => {
            heap.arm(nth);
            insists(cell, 1, request)
        }
        None => false,
    }
}

fn arrives_at_last<'a>(
    cell: &mut Cell<'a>,
    steps: &mut Steps<'a>,
    heap: Heap<'a>,
    nth: u64,
) -> bool {
    is_kept(cell, steps.len() as u64)
        && cell.live().waiting() == 0
        && notes(steps, heap, 1300)
        && comes_at_last(cell, heap, nth)
}

// Whether steps stay queued where memory is refused, and all are made once it isn't.
fn catches_up_at_last(cell: &mut Cell<'_>, steps: u64) -> bool {
    cell.catch_up(usize::MAX);
    let same = is_kept(cell, steps);
    cell.catch_up(usize::MAX);
    same & is_kept(cell, steps)
}

// Whether all comes to the same with a refusal from the arrival on that queues a thousand steps. They want memory too: the READs among them
// are performed beside others, so that their data are read.
fn is_queued_at_last<'a>(
    cell: &mut Cell<'a>,
    steps: &mut Steps<'a>,
    heap: Heap<'a>,
    nth: u64,
) -> bool {
    is_filled(cell, steps, heap, 900, 400)
        && arrives_at_last(cell, steps, heap, nth)
        && catches_up_at_last(cell, steps.len() as u64)
        && is_fold_unarmed(cell, steps.as_slice(), heap)
}

// The fold takes memory as well: what is left to be refused then is no matter.
fn is_fold_unarmed<'a>(cell: &Cell<'a>, steps: &[Step<Heap<'a>>], heap: Heap<'a>) -> bool {
    let armed = heap.is_armed();
    heap.arm(0);
    let same = is_fold(cell, steps, heap);
    heap.arm(armed as u64);
    same
}

#[test]
fn each_growth_of_the_queue_is_refused_in_turn(rt: HostRuntime) {
    let wrong = first_wrong(rt.alloc(), &settings(), &Queueing::Grows, false, 10);
    assert!(rt; wrong == 0, "at {wrong}");
}

// Whether requests of such a kind and length are so much work.
fn are_work(cases: &[(u16, u32, usize)]) -> bool {
    for case in cases {
        let (kind, length, work) = *case;
        if work_of(head_of(kind, length)) != work {
            return false;
        }
    }
    true
}

// What each kind of request is, and what its arrival works off.
#[test]
fn work_is_counted_in_pages(rt: HostRuntime) {
    let cases: [(u16, u32, usize); 6] = [
        (READ, 33_554_432, 0),
        (FLUSH, 0, 0),
        (CACHE, u32::MAX, 0),
        (WRITE, 33_554_432, 8193),
        (TRIM, 268_435_456, 65),
        (WRITE_ZEROES, 4095, 1),
    ];
    assert!(rt; are_work(&cases));
    assert!(rt; allowance_of(head_of(READ, 4096)) == 72);
    assert!(rt; allowance_of(head_of(WRITE, 4096)) == 76);
}
