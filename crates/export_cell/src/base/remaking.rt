//! How a step is made on a base, together with those that are deferred.
ghost use Rattle.std.specs.Prelude.{◌≡◌, ◌<◌, [], ◌∷◌, length, true, IfOk, IfErr, OnOk};
ghost use Rattle.lone_export.specs.Lone.{IsIdleFor, DoesAll, MayReplay, is_reading};
ghost use Rattle.lone_export.specs.declared.step.Step.TheVariants as step;
ghost use Rattle.std.specs.Bool.{OnTrue, OnFalse};
ghost use Rattle.export_cell.specs.Past.{arrival_of, past_of, serving, IsPast, IsPicked, Goes, Comes, Stays};

use crate::deferred::{Arrival, Deferred};
use export_store::Image;
use lone_export::{Lone, Step};
use nbd_wire::Request;
use nbd_wire::protocol::READ;
use std::alloc::Allocator;
use std::mem;
use tag_clock::Moment;

/// A step for which no memory was there, and the steps that are deferred now.
#[derive(Drop)]
pub(super) struct Unmade<A: Allocator> {
    pub(super) deferred: Deferred<A>,
    pub(super) step: Step<A>,
}

/// Makes a step, at once with those that are deferred where they go together. Tells what is deferred from then on.
pub(super) fn remade<I: Image>(
    lone: &mut Lone<I>,
    deferred: Deferred<I::Alloc>,
    step: Step<I::Alloc>,
) -> Result<Deferred<I::Alloc>, Unmade<I::Alloc>>
    requires past { IsPast lone.old deferred }
    requires may { MayReplay (past_of lone.old deferred) step }
    ensures ok { IfOk result (λ after. Comes lone.old deferred step lone.new after) }
    ensures err { IfErr result (λ back. (back.step ≡ step)
        × Stays lone.old deferred lone.new back.deferred) }
{
    match step {
        Step::Arrive {
            session,
            moment,
            request,
        } => arrived(lone, deferred, session, moment, request),
        Step::Pick => picked(lone, deferred).map_err(|deferred| Unmade {
            deferred,
            step: Step::Pick,
        }),
        Step::Perform { number, memory } => {
            performed(lone, deferred, number, memory).map_err(|deferred| Unmade {
                deferred,
                step: Step::Perform { number, memory },
            })
        }
        Step::Take { session } => taken(lone, deferred, session).map_err(|deferred| Unmade {
            deferred,
            step: Step::Take { session },
        }),
        step => match replayed(lone, deferred, &step) {
            Ok(deferred) => Ok(deferred),
            Err(deferred) => Err(Unmade { deferred, step }),
        },
    }
}

/// Makes a pick or a take where neither what is deferred nor the step has to be moved for it, as most can be. False where it isn't
/// such a step: then nothing is done.
pub(super) fn made_in_place<I: Image>(
    lone: &mut Lone<I>,
    deferred: &mut Deferred<I::Alloc>,
    step: &Step<I::Alloc>,
) -> bool
    requires past { IsPast lone.old deferred.old }
    requires may { MayReplay (past_of lone.old deferred.old) step.now }
    ensures made { OnTrue result (Comes lone.old deferred.old step.now lone.new deferred.new) }
    ensures stays { OnFalse result ((lone.new ≡ lone.old) × (deferred.new ≡ deferred.old)) }
{
    match step {
        Step::Pick => pick_deferred(deferred),
        Step::Take { session } => take_alone(lone, deferred, *session),
        _ => false,
    }
}

/// The request that arrived is picked, where one is deferred. False where none is.
fn pick_deferred<A: Allocator>(deferred: &mut Deferred<A>) -> bool
    ensures picked { OnTrue result (IsPicked deferred.old deferred.new) }
    ensures stays { OnFalse result (deferred.new ≡ deferred.old) }
{
    match mem::replace(deferred, Deferred::Nothing) {
        Deferred::Arrived(arrival) => {
            *deferred = Deferred::Picked(arrival);
            true
        }
        other => {
            *deferred = other;
            false
        }
    }
}

/// The session's oldest reply is taken, where nothing is deferred. False where something is.
fn take_alone<I: Image>(lone: &mut Lone<I>, deferred: &Deferred<I::Alloc>, session: u64) -> bool
    ensures made { OnTrue result
        (Comes lone.old deferred.now (step.Take session) lone.new deferred.now) }
    ensures stays { OnFalse result (lone.new ≡ lone.old) }
{
    match deferred {
        Deferred::Nothing => {
            let _ = lone.take(session);
            true
        }
        _ => false,
    }
}

/// Makes what follows the arrival of a request that is deferred: it is picked, performed with memory, and its reply is taken. False
/// where no such request is deferred, or memory is refused: then nothing is done.
pub(super) fn made_at_once<I: Image>(
    lone: &mut Lone<I>,
    deferred: &mut Deferred<I::Alloc>,
    number: u64,
    session: u64,
) -> bool
    requires { IsPast lone.old deferred.old }
    ensures made { OnTrue result (DoesAll {A = I.Alloc} (past_of lone.old deferred.old)
        (past_of lone.new deferred.new) (serving number session)) }
    ensures past { IsPast lone.new deferred.new }
    ensures stays { OnFalse result ((lone.new ≡ lone.old) × (deferred.new ≡ deferred.old)) }
{
    if number != lone.next_number() {
        return false;
    }
    match mem::replace(deferred, Deferred::Nothing) {
        Deferred::Arrived(arrival) if arrival.session == session => {
            match served(lone, arrival) {
                Ok(()) => true,
                Err(arrival) => {
                    *deferred = Deferred::Arrived(arrival);
                    false
                }
            }
        }
        other => {
            *deferred = other;
            false
        }
    }
}

/// Makes all four steps of a request. No data of a READ are read, since its reply is dropped. Where memory is refused the request
/// comes back.
fn served<I: Image>(lone: &mut Lone<I>, arrival: Arrival<I::Alloc>) -> Result<(), Arrival<I::Alloc>>
    requires { IsIdleFor lone.old.terms lone.old.state arrival.session arrival.request }
    ensures ok { OnOk result (DoesAll {A = I.Alloc} lone.old lone.new
        (arrival_of arrival ∷ serving lone.old.state.next arrival.session)) }
    ensures err { IfErr result (λ back. (back ≡ arrival) × (lone.new ≡ lone.old)) }
{
    let head = arrival.request.head();
    if head.kind == READ {
        lone.serve_dropped_read(arrival.session, arrival.moment, &arrival.request);
        return Ok(());
    }
    let Arrival {
        session,
        moment,
        request,
    } = arrival;
    match lone.serve(session, moment, request) {
        Ok(()) => {
            let _ = lone.take(session);
            Ok(())
        }
        Err(request) => Err(Arrival {
            session,
            moment,
            request,
        }),
    }
}

fn arrived<I: Image>(
    lone: &mut Lone<I>,
    deferred: Deferred<I::Alloc>,
    session: u64,
    moment: Moment,
    request: Request<I::Alloc>,
) -> Result<Deferred<I::Alloc>, Unmade<I::Alloc>>
    requires { IsPast lone.old deferred }
    ensures ok { IfOk result (λ after.
        Comes lone.old deferred (step.Arrive session moment request) lone.new after) }
    ensures err { IfErr result (λ back. (back.step ≡ step.Arrive session moment request)
        × Stays lone.old deferred lone.new back.deferred) }
{
    if let Err(deferred) = catch_up(lone, deferred) {
        let step = Step::Arrive {
            session,
            moment,
            request,
        };
        return Err(Unmade { deferred, step });
    }
    if lone.is_idle_for(session, &request) {
        return Ok(Deferred::Arrived(Arrival {
            session,
            moment,
            request,
        }));
    }
    let _ = lone.arrive(session, moment, request);
    Ok(Deferred::Nothing)
}

fn picked<I: Image>(
    lone: &mut Lone<I>,
    deferred: Deferred<I::Alloc>,
) -> Result<Deferred<I::Alloc>, Deferred<I::Alloc>>
    requires past { IsPast lone.old deferred }
    requires room { length (past_of lone.old deferred).state.out < lone.old.inflight }
    ensures ok { IfOk result (λ after. Comes lone.old deferred step.Pick lone.new after) }
    ensures err { IfErr result (λ back. Stays lone.old deferred lone.new back) }
{
    let deferred = match deferred {
        Deferred::Arrived(arrival) => return Ok(Deferred::Picked(arrival)),
        deferred => deferred,
    };
    if let Err(deferred) = catch_up(lone, deferred) {
        return Err(deferred);
    }
    let _ = lone.pick();
    Ok(Deferred::Nothing)
}

fn performed<I: Image>(
    lone: &mut Lone<I>,
    deferred: Deferred<I::Alloc>,
    number: u64,
    memory: bool,
) -> Result<Deferred<I::Alloc>, Deferred<I::Alloc>>
    requires { IsPast lone.old deferred }
    ensures ok { IfOk result (λ after.
        Comes lone.old deferred (step.Perform number memory) lone.new after) }
    ensures err { IfErr result (λ back. Stays lone.old deferred lone.new back) }
{
    let deferred = match deferred {
        Deferred::Picked(arrival) if memory && number == lone.next_number() => {
            return performed_at_once(lone, arrival);
        }
        deferred => deferred,
    };
    if let Err(deferred) = catch_up(lone, deferred) {
        return Err(deferred);
    }
    if memory && lone.is_reading(number) {
        return Ok(Deferred::Performed(number));
    }
    let perform = Step::Perform { number, memory };
    match lone.replay(&perform) {
        Ok(_) => Ok(Deferred::Nothing),
        Err(_) => Err(Deferred::Nothing),
    }
}

/// The request that arrived and was picked is performed as well, but for a READ, which is deferred.
fn performed_at_once<I: Image>(
    lone: &mut Lone<I>,
    arrival: Arrival<I::Alloc>,
) -> Result<Deferred<I::Alloc>, Deferred<I::Alloc>>
    requires idle { IsIdleFor lone.old.terms lone.old.state arrival.session arrival.request }
    requires room { 0 < lone.old.inflight }
    ensures ok { IfOk result (λ after. Comes lone.old (Deferred.Picked arrival)
        (step.Perform lone.old.state.next true) lone.new after) }
    ensures err { IfErr result (λ back. Stays lone.old (Deferred.Picked arrival) lone.new back) }
{
    if arrival.request.head().kind == READ {
        return Ok(Deferred::Read(arrival));
    }
    let Arrival {
        session,
        moment,
        request,
    } = arrival;
    match lone.serve(session, moment, request) {
        Ok(()) => Ok(Deferred::Nothing),
        Err(request) => Err(Deferred::Picked(Arrival {
            session,
            moment,
            request,
        })),
    }
}

fn taken<I: Image>(
    lone: &mut Lone<I>,
    deferred: Deferred<I::Alloc>,
    session: u64,
) -> Result<Deferred<I::Alloc>, Deferred<I::Alloc>>
    requires { IsPast lone.old deferred }
    ensures ok { IfOk result (λ after. Comes lone.old deferred (step.Take session) lone.new after) }
    ensures err { IfErr result (λ back. Stays lone.old deferred lone.new back) }
{
    let deferred = match deferred {
        Deferred::Read(arrival) if arrival.session == session => {
            lone.serve_dropped_read(session, arrival.moment, &arrival.request);
            return Ok(Deferred::Nothing);
        }
        deferred => deferred,
    };
    if let Deferred::Performed(number) = deferred {
        if lone.skip_read(number, session) {
            return Ok(Deferred::Nothing);
        }
    }
    if let Err(deferred) = catch_up(lone, deferred) {
        return Err(deferred);
    }
    let _ = lone.take(session);
    Ok(Deferred::Nothing)
}

/// A step of another kind is made once those that are deferred are.
fn replayed<I: Image>(
    lone: &mut Lone<I>,
    deferred: Deferred<I::Alloc>,
    step: &Step<I::Alloc>,
) -> Result<Deferred<I::Alloc>, Deferred<I::Alloc>>
    requires past { IsPast lone.old deferred }
    requires may { MayReplay (past_of lone.old deferred) step.now }
    ensures ok { IfOk result (λ after. Comes lone.old deferred step.now lone.new after) }
    ensures err { IfErr result (λ back. Stays lone.old deferred lone.new back) }
{
    if let Err(deferred) = catch_up(lone, deferred) {
        return Err(deferred);
    }
    match lone.replay(step) {
        Ok(_) => Ok(Deferred::Nothing),
        Err(_) => Err(Deferred::Nothing),
    }
}

/// Makes the steps that are deferred, one after another.
#[inline(never)]
fn catch_up<I: Image>(
    lone: &mut Lone<I>,
    deferred: Deferred<I::Alloc>,
) -> Result<(), Deferred<I::Alloc>>
    requires { IsPast lone.old deferred }
    ensures ok { OnOk result (past_of {A = I.Alloc} lone.new Deferred.Nothing
        ≡ past_of lone.old deferred) }
    ensures err { IfErr result (λ back. Stays lone.old deferred lone.new back) }
{
    match deferred {
        Deferred::Nothing => Ok(()),
        Deferred::Arrived(arrival) => {
            arrive(lone, arrival);
            Ok(())
        }
        Deferred::Picked(arrival) => {
            arrive_and_pick(lone, arrival);
            Ok(())
        }
        Deferred::Read(arrival) => {
            let number = lone.next_number();
            arrive_and_pick(lone, arrival);
            read(lone, number)
        }
        Deferred::Performed(number) => read(lone, number),
    }
}

/// The request arrives.
fn arrive<I: Image>(lone: &mut Lone<I>, arrival: Arrival<I::Alloc>)
    ensures { Goes {A = I.Alloc} lone.old lone.new (arrival_of arrival) }
{
    let Arrival {
        session,
        moment,
        request,
    } = arrival;
    let _ = lone.arrive(session, moment, request);
}

/// The request arrives, and is picked.
fn arrive_and_pick<I: Image>(lone: &mut Lone<I>, arrival: Arrival<I::Alloc>)
    requires idle { IsIdleFor lone.old.terms lone.old.state arrival.session arrival.request }
    requires room { 0 < lone.old.inflight }
    ensures { DoesAll {A = I.Alloc} lone.old lone.new (arrival_of arrival ∷ step.Pick ∷ []) }
{
    arrive(lone, arrival);
    let _ = lone.pick();
}

/// The READ that is in service under this number is performed.
fn read<I: Image>(lone: &mut Lone<I>, number: u64) -> Result<(), Deferred<I::Alloc>>
    requires { is_reading lone.old.state number ≡ true }
    ensures ok { OnOk result (past_of {A = I.Alloc} lone.new Deferred.Nothing
        ≡ past_of {A = I.Alloc} lone.old (Deferred.Performed number)) }
    ensures err { IfErr result (λ back. Stays lone.old (Deferred.Performed number) lone.new back) }
{
    let perform = Step::Perform {
        number,
        memory: true,
    };
    match lone.replay(&perform) {
        Ok(_) => Ok(()),
        Err(_) => Err(Deferred::Performed(number)),
    }
}
