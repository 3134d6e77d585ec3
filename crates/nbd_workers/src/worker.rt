//! A worker, and its gate.
ghost use Rattle.std.specs.Prelude.{◌≤◌};

use eligibility::Eligibility;
use export_store::Image;
use server_core::Ticket;
use server_lock::{Pass, Shared};
use std::sync::Wait;
use std::sync::ledger::Ledger;
use tag_clock::{Clock, Moment};

/// What a worker passes between its choice of a request and that request's service, and where it waits while there is
/// nothing to do. `now` gives the moment of each dispatch. No lock is held in any of these calls.
pub trait Gate: Clock {
    /// A request was chosen, and is performed once this returns.
    fn pass(&self, ticket: &Ticket);

    /// The request was performed.
    fn done(&self, ticket: &Ticket);

    /// Nothing was chosen, and nothing is before that moment unless something changes; without one, not before then.
    /// False ends the worker.
    fn idle(&self, due: Option<Moment>) -> bool;
}

/// Chooses requests and performs each, until the server is stopping and nothing waits, or until the gate's `idle` says so.
///
/// It makes turns of its pass alone, and gives that pass back. It holds no more of its choices then than before.
pub fn work<L: Ledger, I: Image, E: Eligibility<Alloc = I::Alloc>, G: Gate, R: Wait>(
    rt: &R,
    shared: &Shared<L, I, E>,
    gate: &G,
    mut pass: Pass<L>,
) -> Pass<L>
    ensures turns { pass.turns ≤ result.turns }
    ensures share { pass.share ≤ result.share }
    ensures held { result.held ≤ pass.held }
{
    for _ in rt.forever() {
        if let Some(chosen) = shared.turn_dispatch(rt, &mut pass, gate.now()) {
            gate.pass(&chosen.ticket);
            shared.turn_perform(rt, &mut pass, chosen.ticket);
            gate.done(&chosen.ticket);
            continue;
        }
        if shared.stopping() && shared.waiting(rt) == 0 {
            break;
        }
        if !gate.idle(shared.next_due(rt)) {
            break;
        }
    }
    pass
}
