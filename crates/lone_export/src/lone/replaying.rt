//! Steps that were made before are made again.
ghost use Rattle.std.specs.Prelude.{◌≡◌, ◌≤◌, ◌↔◌, ◌+◌, ◌<◌, [], length, take, slice_get, vec_len, false, IsTrue, IfOk, IfSome, IfNone, OnErr};
ghost use Rattle.std.specs.Bool.{OnTrue, OnFalse};
ghost use Rattle.std.specs.Vec.{vec_capacity};
ghost use Rattle.nbd_commands.specs.Verdict.{verdict_at};
ghost use Rattle.nbd_commands.specs.Meaning.{image_after, data_of, may_want_memory};
ghost use Rattle.lone_export.specs.Lone.{Does, MayReplay, IsReplayed, StopsAt, mark_again, wants_memory};

use crate::lone::{Lone, settle};
use crate::step::{Step, StepAnswer};
use crate::step_answers::{
    step_answer_of_arrive, step_answer_of_attach, step_answer_of_gone, step_answer_of_leave,
    step_answer_of_pick, step_answer_of_retune, step_answer_of_take,
};
use export_store::Image;
use nbd_base::NoMemory;
use nbd_commands::{Done, apply, may_want_memory};
use nbd_wire::Request;
use nbd_wire::protocol::ENOMEM;
use payload::Payload;
use std::alloc::Allocator;

impl<I: Image> Lone<I> {
    /// Makes a step, as it was made before.
    ///
    /// A Perform has its own mark: where it says that no memory was there, a request that may want memory is told so
    /// without trying. Want of memory of the replay itself is an error, after which all is as it was; an attach, an
    /// arrival, and a Perform that had memory and may want some are the only steps that it is told of.
    pub fn replay(&mut self, step: &Step<I::Alloc>) -> Result<StepAnswer<I::Alloc>, NoMemory>
        requires { MayReplay self.old step.now }
        ensures ok { IfOk result (λ answer. Does {A = I.Alloc} self.old self.new step.now answer) }
        ensures err { OnErr result ((self.new ≡ self.old)
            × IsTrue (wants_memory {A = I.Alloc} self.old.state step.now)) }
    {
        match step {
            Step::Attach => {
                let Some(answer) = step_answer_of_attach(self.attach()) else {
                    return Err(NoMemory);
                };
                Ok(answer)
            }
            Step::Arrive {
                session,
                moment,
                request,
            } => {
                let Ok(request) = request.clone() else {
                    return Err(NoMemory);
                };
                Ok(step_answer_of_arrive(self.arrive(*session, *moment, request)))
            }
            Step::Pick => Ok(step_answer_of_pick(self.pick())),
            Step::Perform { number, memory } => self.perform_again(*number, *memory),
            Step::Take { session } => Ok(step_answer_of_take(self.take(*session))),
            Step::Leave { session } => Ok(step_answer_of_leave(self.leave(*session))),
            Step::Gone { session } => Ok(step_answer_of_gone(self.gone(*session))),
            Step::Retune { rates } => Ok(step_answer_of_retune(self.retune(*rates))),
        }
    }

    /// Whether the step may be made by `replay`: a pick may where fewer requests are in service than may be at once.
    pub fn may_replay(&self, step: &Step<I::Alloc>) -> bool
        ensures { IsTrue result ↔ MayReplay {A = I.Alloc} self.now step.now }
    {
        match step {
            Step::Pick => self.may_pick(),
            _ => true,
        }
    }

    /// Makes the steps one after another, and tells how many: all, or those before the first that may not be made or found
    /// no memory. Their answers go behind the others of `answers`, which gets room for all of them first: where it finds
    /// none, no step is made.
    pub fn replay_all<B: Allocator>(
        &mut self,
        steps: &[Step<I::Alloc>],
        answers: &mut Vec<StepAnswer<I::Alloc>, B>,
    ) -> Result<usize, NoMemory>
        ensures few { IfOk result (λ made. made ≤ length steps.now) }
        ensures made { IfOk result (λ made. IsReplayed {A = I.Alloc} self.old self.new
            (take made steps.now) answers.old.items answers.new.items) }
        ensures stopped { IfOk result (λ made.
            StopsAt {A = I.Alloc} self.new (slice_get steps.now made)) }
        ensures err { OnErr result ((self.new ≡ self.old)
            × (answers.new.items ≡ answers.old.items)) }
        ensures no_room { OnErr result (vec_capacity answers.old
            < vec_len answers.old + length steps.now) }
    {
        if answers.reserve(steps.len()).is_err() {
            return Err(NoMemory);
        }
        let mut made = 0;
        for step in steps {
            if !self.may_replay(step) {
                return Ok(made);
            }
            let Ok(answer) = self.replay(step) else {
                return Ok(made);
            };
            answers.push_reserved(answer);
            made += 1;
        }
        Ok(made)
    }

    // The request of this number is done, or told that no memory was there, as the mark says.
    fn perform_again(&mut self, number: u64, memory: bool) -> Result<StepAnswer<I::Alloc>, NoMemory>
        ensures ok { IfOk result (λ answer.
            Does {A = I.Alloc} self.old self.new (Step.Perform number memory) answer) }
        ensures err { OnErr result ((self.new ≡ self.old)
            × IsTrue (wants_memory {A = I.Alloc} self.old.state (Step.Perform number memory))) }
    {
        let Some(slot) = self.queue.slot_of(number) else {
            return Ok(StepAnswer::NotOut);
        };
        let Some(row) = self.queue.held(slot, number) else {
            unreachable!();
        };
        let again = apply_again(&mut self.image, &row.request, memory);
        let Some(done) = again else {
            return Err(NoMemory);
        };
        let memory = done.memory;
        settle(&mut self.queue, &mut self.sessions, slot, number, done);
        self.count += 1;
        Ok(StepAnswer::Performed { memory })
    }
}

/// Performs a request as its mark says: with memory, or without where it may want some. None where memory is wanted
/// and refused.
fn apply_again<I: Image>(
    image: &mut I,
    request: &Request<I::Alloc>,
    memory: bool,
) -> Option<Done<I::Alloc>>
    requires { verdict_at (length (I.bytes image.old)) false request.now ≡ 0 }
    ensures mark { IfSome result (λ done. done.memory ≡ mark_again memory request.now) }
    ensures done { IfSome result (λ done. OnTrue done.memory ((done.error ≡ 0)
        × (done.content ≡ data_of (I.bytes image.old) request.now)
        × (I.bytes image.new ≡ image_after (I.bytes image.old) request.now))) }
    ensures no_memory { IfSome result
        (λ done. OnFalse done.memory ((done.error ≡ 12) × (done.content ≡ [])
        × (I.bytes image.new ≡ I.bytes image.old)
        × IsTrue (may_want_memory request.now))) }
    ensures none { IfNone result ((I.bytes image.new ≡ I.bytes image.old)
        × IsTrue memory × IsTrue (may_want_memory request.now)) }
{
    if !memory && may_want_memory(request) {
        return Some(Done {
            error: ENOMEM,
            content: Payload::new(),
            memory: false,
        });
    }
    let done = apply(image, request);
    if done.memory { Some(done) } else { None }
}
