//! One request of the client's session, the only one of its export.
ghost use Rattle.std.specs.Prelude.{◌≡◌, ◌<◌, ◌≤◌, ◌^◌, true, slice_get, IsSome, IfOk, IfSome, IfNone, OnOk, OnSome};
ghost use Rattle.reply_box.specs.Sessions.{is_here_at, outbox_at};
ghost use Rattle.lone_export.specs.Alone.{opening};
ghost use Rattle.lone_export.specs.Lone.{Does};
ghost use Rattle.nbd_session.specs.Requests.{opened};
ghost use Rattle.nbd_session.specs.Plainly.{IsIdle, reply_of, behind};

use export_store::Image;
use lone_export::{Arrived, Lone, NotAttached, Step, StepAnswer};
use nbd_base::NoMemory;
use nbd_wire::{Reply, Request};
use reply_box::Taken;
use tag_clock::Moment;

/// The client's session. It is the first that is attached, and the only one.
const SESSION: u64 = 0;

/// Attaches the client's session.
pub fn open<I: Image>(lone: &mut Lone<I>) -> Result<(), NoMemory>
    requires { lone.old.state ≡ opening lone.old.terms }
    ensures { OnOk result (lone.new ≡ record lone.old { state = opened lone.old.terms }) }
{
    match lone.attach() {
        Ok(_) => Ok(()),
        Err(NotAttached::NoMemory) => Err(NoMemory),
        Err(NotAttached::Refused(_)) => unreachable!(),
    }
}

/// The reply to a request, which arrives at the first moment, and is served at once where it is accepted. None where
/// the export is worn.
pub fn serve<I: Image>(
    lone: &mut Lone<I>,
    request: Request<I::Alloc>,
) -> Result<Option<Reply<I::Alloc>>, NoMemory>
    requires { IsIdle lone.old }
    ensures reply { IfOk result (λ o.
        IfSome o (λ r. r ≡ reply_of lone.old.terms lone.old.state.image request)) }
    ensures state { IfOk result (λ o. OnSome o (lone.new
        ≡ record lone.old { state = behind lone.old.terms lone.old.state request })) }
    ensures fresh { IfOk result (λ o. OnSome o (lone.old.state.count < 2 ^ 56)) }
    ensures worn { IfOk result (λ o. IfNone o (2 ^ 56 ≤ lone.old.state.count)) }
{
    let Ok(arrived) = lone.arrive(SESSION, Moment::zero(), request) else {
        return Ok(None);
    };
    match arrived {
        Arrived::Answered(_) => return Ok(Some(taken(lone))),
        Arrived::Accepted {
            number: _,
            limit_tag: _,
        } => {}
    }
    let Some(picked) = lone.pick() else {
        unreachable!();
    };
    match lone.perform(picked.slot, picked.number) {
        Some(true) => Ok(Some(taken(lone))),
        Some(false) => Err(NoMemory),
        None => unreachable!(),
    }
}

/// Takes a reply that is there.
fn taken<I: Image>(lone: &mut Lone<I>) -> Reply<I::Alloc>
    requires here { is_here_at lone.old.state.sessions 0 ≡ true }
    requires there { IsSome (slice_get (outbox_at lone.old.state.sessions 0) 0) }
    ensures step { Does {A = I.Alloc} lone.old lone.new (Step.Take 0) (StepAnswer.Reply result) }
    ensures slots { lone.new.slots ≡ lone.old.slots }
{
    let Ok(Taken::Reply(reply)) = lone.take(SESSION) else {
        unreachable!();
    };
    reply
}
