ghost use Rattle.std.specs.Prelude.{◌≡◌};

use export_store::{Flat, Image, Swept};
use lone_export::*;
use nbd_base::NoMemory;
use nbd_commands::{Config, ExportList, ExportSettings, Rates, is_inflight};
use nbd_wire::protocol::{FLUSH, READ, WRITE};
use nbd_wire::{Request, RequestHead};
use payload::Payload;
use reply_box::Taken;
use std::alloc::{Allocator, Global};
use tag_clock::Moment;

mod memory;
mod retunes;
mod rounds;
mod runs;
mod skipping;
mod step_answers;

// An export on the heap.
type Alone = Lone<Flat<Global>>;

fn head_of(kind: u16, cookie: u64, offset: u64, length: u32) -> RequestHead
    ensures kind { result.kind ≡ kind }
    ensures count { result.length ≡ length }
{
    RequestHead {
        flags: 0,
        kind,
        cookie,
        offset,
        length,
    }
}

fn read_of<A: Allocator>(cookie: u64, offset: u64, length: u32) -> Request<A> {
    Request::new(head_of(READ, cookie, offset, length), Payload::new())
}

fn flush_of<A: Allocator>(cookie: u64) -> Request<A> {
    Request::new(head_of(FLUSH, cookie, 0, 0), Payload::new())
}

// A WRITE of these bytes at 0. None where memory was refused twice, or the bytes are more than a WRITE's may be.
fn write_of<A: Allocator + Copy>(alloc: A, cookie: u64, bytes: &[u8]) -> Option<Request<A>> {
    let payload = copied(alloc, bytes)?;
    if payload.len() > 33_554_432 {
        return None;
    }
    let head = head_of(WRITE, cookie, 0, payload.len() as u32);
    Some(Request::new(head, payload))
}

fn copied<A: Allocator + Copy>(alloc: A, bytes: &[u8]) -> Option<Payload<A>> {
    match Payload::copied(alloc, 0, bytes) {
        Ok(payload) => Some(payload),
        Err(_) => Payload::copied(alloc, 0, bytes).ok(),
    }
}

// A step by values alone.
#[derive(Clone, Copy)]
enum Call {
    Attach,
    // A READ of a session at so many nanoseconds: its cookie, and how many bytes from 0 on.
    Read(u64, u64, u64, u32),
    // A FLUSH of session 0 at 0.
    Flush(u64),
    // A WRITE of session 0 at 0, of these bytes at 0.
    Write(u64, &'static [u8]),
    Pick,
    Perform(u64),
    // A request is performed, and there is no memory for it.
    Fail(u64),
    Take(u64),
    Leave(u64),
    Gone(u64),
    Retune(u64, u64, u64),
}

// A call, and what is written of its answer.
type Told = (Call, &'static str);

// A request of a session at a moment, which is 0 where it is out of range.
fn arrival<A: Allocator>(session: u64, nanoseconds: u64, request: Request<A>) -> Step<A> {
    Step::Arrive {
        session,
        moment: Moment::new(nanoseconds).unwrap_or(Moment::zero()),
        request,
    }
}

fn write_step<A: Allocator + Copy>(alloc: A, cookie: u64, bytes: &[u8]) -> Option<Step<A>> {
    match write_of(alloc, cookie, bytes) {
        Some(write) => Some(arrival(0, 0, write)),
        None => None,
    }
}

fn retune_step<A: Allocator>(reservation: u64, limit: u64, weight: u64) -> Option<Step<A>> {
    match Rates::new(reservation, limit, weight) {
        Ok(rates) => Some(Step::Retune { rates }),
        Err(_) => None,
    }
}

// None where memory was refused twice, or rates are out of range.
fn step_of<A: Allocator + Copy>(alloc: A, call: Call) -> Option<Step<A>> {
    match call {
        Call::Attach => Some(Step::Attach),
        Call::Read(session, nanoseconds, cookie, length) => {
            Some(arrival(session, nanoseconds, read_of(cookie, 0, length)))
        }
        Call::Flush(cookie) => Some(arrival(0, 0, flush_of(cookie))),
        Call::Write(cookie, bytes) => write_step(alloc, cookie, bytes),
        Call::Pick => Some(Step::Pick),
        Call::Perform(number) => Some(Step::Perform {
            number,
            memory: true,
        }),
        Call::Fail(number) => Some(Step::Perform {
            number,
            memory: false,
        }),
        Call::Take(session) => Some(Step::Take { session }),
        Call::Leave(session) => Some(Step::Leave { session }),
        Call::Gone(session) => Some(Step::Gone { session }),
        Call::Retune(reservation, limit, weight) => retune_step(reservation, limit, weight),
    }
}

fn is_appended<A: Allocator + Copy>(
    alloc: A,
    steps: &mut Vec<Step<A>, Global>,
    call: Call,
) -> bool {
    match step_of(alloc, call) {
        Some(step) => steps.push(step).is_ok(),
        None => false,
    }
}

fn are_appended<A: Allocator + Copy>(
    alloc: A,
    steps: &mut Vec<Step<A>, Global>,
    run: &[Told],
) -> bool {
    for (call, _wanted) in run {
        if !is_appended(alloc, steps, *call) {
            return false;
        }
    }
    true
}

// The steps of a run.
fn steps_of<A: Allocator + Copy>(
    alloc: A,
    plain: Global,
    run: &[Told],
) -> Option<Vec<Step<A>, Global>> {
    let mut steps = Vec::new(plain);
    if are_appended(alloc, &mut steps, run) {
        Some(steps)
    } else {
        None
    }
}

// A configuration of this one export, in which 32 requests may be in service.
fn configured<A: Allocator + Copy>(
    alloc: A,
    settings: &ExportSettings<'_>,
) -> Result<Config<A>, NoMemory> {
    let mut list = ExportList::new(alloc);
    if list.add(settings).is_err() {
        return Err(NoMemory);
    }
    match Config::new(list, 32) {
        Ok(config) => Ok(config),
        Err(_refusal) => Err(NoMemory),
    }
}

// The first export of a configuration, with so many requests in service at most, of which there are 1 to 4,096.
fn first_of<A: Allocator + Copy>(
    alloc: A,
    config: &Config<A>,
    inflight: u64,
) -> Result<Lone<Flat<A>>, NoMemory> {
    if !is_inflight(inflight) {
        return Err(NoMemory);
    }
    match config.exports().first() {
        Some(export) => Lone::new(alloc, export, inflight as usize),
        None => Err(NoMemory),
    }
}

// An export that is configured so, with at most so many requests in service.
fn opened_for<A: Allocator + Copy>(
    alloc: A,
    settings: &ExportSettings<'_>,
    inflight: u64,
) -> Result<Lone<Flat<A>>, NoMemory> {
    match configured(alloc, settings) {
        Ok(config) => first_of(alloc, &config, inflight),
        Err(NoMemory) => Err(NoMemory),
    }
}

fn opened<A: Allocator + Copy>(
    alloc: A,
    settings: &ExportSettings<'_>,
) -> Result<Lone<Flat<A>>, NoMemory> {
    opened_for(alloc, settings, 32)
}

// Whether a payload is these bytes, which are few.
fn is_of<A: Allocator>(payload: &Payload<A>, bytes: &[u8]) -> bool {
    if payload.is_empty() {
        return bytes.is_empty();
    }
    payload.from(0) == bytes
}

// Whether the oldest reply of session 0 has this cookie, this error and this content.
fn replies<A: Allocator + Copy>(
    lone: &mut Lone<Flat<A>>,
    cookie: u64,
    error: u32,
    content: &[u8],
) -> bool {
    let Ok(Taken::Reply(reply)) = lone.take(0) else {
        return false;
    };
    reply.cookie() == cookie && reply.error() == error && is_of(reply.content(), content)
}

// Whether session 0 has no reply that could be taken now.
fn is_empty<A: Allocator + Copy>(lone: &mut Lone<Flat<A>>) -> bool {
    matches!(lone.take(0), Ok(Taken::Empty))
}

fn sweeps(lone: &mut Alone, alloc: Global) -> bool {
    let Ok(mut swept) = Swept::with_room(alloc, 4) else {
        return false;
    };
    lone.sweep(&mut swept);
    swept.pages().is_empty() && lone.steps() == 1
}

#[test]
fn a_sweep_is_no_step(rt: HostRuntime) {
    let mut lone = opened(rt.alloc(), &ExportSettings::new(b"a", 8)).expect(&rt, "memory");
    assert!(rt; lone.attach() == Ok(0));
    assert!(rt; sweeps(&mut lone, rt.alloc()));
}

// Each law holds, so it can be called anywhere.
#[test]
fn laws_of_the_global_allocator(_rt: HostRuntime) {
    steps_to_come::<Global>();
    limit_tags_unrolled::<Global>();
}
