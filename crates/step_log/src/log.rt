//! A log, which takes little memory: the steps of a request mostly lie together.
ghost use Rattle.std.specs.Prelude.{◌≡◌, ◌+◌, ◌-◌, ◌<◌, ◌≤◌, [], ◌∷◌, ◌++◌, length, IfOk, IfSome, IfNone, OnOk};
ghost use Rattle.std.specs.Bool.{OnTrue, OnFalse};
ghost use Rattle.step_log.specs.Steps.{kept_step};
ghost use Rattle.step_log.specs.Log.{steps_of, steps_in, room_of, rest_steps};
ghost use Rattle.step_log.specs.declared.rest.Rest.TheVariants as rest;

use crate::group::Group;
use crate::rest::Rest;
use crate::room::widen;
use lone_export::Step;
use nbd_base::NoMemory;
use std::alloc::Allocator;
use std::collections::VecDeque;
use std::marker::Model;

/// Steps, oldest first.
///
/// What follows the arrival of a request directly lies with it: so a log of 4,095 steps mostly has 1,024 groups, and less memory
/// goes round through the processor's caches.
#[derive(Drop)]
pub struct Log<A: Allocator> {
    // What followed a step that is gone: these steps come first.
    rest: Rest,
    groups: VecDeque<Group<A>, A>,
}

impl<A: Allocator> Model for Log<A> {
    ghost use Rattle.std.specs.Prelude.{◌-◌, length};
    ghost use Rattle.std.specs.VecDeque.{deque_capacity};
    ghost use Rattle.step_log.specs.Log.{StepLog, steps_in};

    ghost Value = { StepLog };

    ghost view = { λ l.
        record {
          rest = l.rest;
          behind = steps_in l.groups.items;
          spare = deque_capacity l.groups - length l.groups.items;
        } };
}

impl<A: Allocator> Log<A> {
    /// No steps, and room for none.
    pub fn new(alloc: A) -> Result<Self, NoMemory>
        ensures { IfOk result (λ log.
            log ≡ record { rest = rest.Nothing; behind = []; spare = 0 }) }
    {
        let groups = VecDeque::with_capacity(alloc, 0)?;
        Ok(Log {
            rest: Rest::Nothing,
            groups,
        })
    }

    /// The steps that come before those of the groups.
    pub fn rest(&self) -> Rest
        ensures { result ≡ self.now.rest }
    {
        self.rest
    }

    /// The steps behind them, in groups.
    pub fn groups(&self) -> &VecDeque<Group<A>, A>
        ensures { steps_in result.now.items ≡ self.now.behind }
    {
        &self.groups
    }

    /// A step more behind the others.
    pub fn push(&mut self, step: Step<A>)
        requires { 0 < self.old.spare }
        ensures steps { steps_of self.new ≡ steps_of self.old ++ kept_step step ∷ [] }
        ensures room { room_of self.old ≤ room_of self.new }
    {
        if !self.joins(&step) {
            self.append(step);
        }
    }

    // The step goes to the last group, where it is kept with that one's steps. False where it isn't: then nothing is done.
    fn joins(&mut self, step: &Step<A>) -> bool
        ensures steps { OnTrue result (steps_of self.new
            ≡ steps_of self.old ++ kept_step step.now ∷ []) }
        ensures spare { OnTrue result (self.new.spare ≡ self.old.spare) }
        ensures stays { OnFalse result (self.new ≡ self.old) }
    {
        let Some(last) = self.groups.back_mut() else {
            return false;
        };
        let Some(rest) = last.rest.with(step) else {
            return false;
        };
        last.rest = rest;
        true
    }

    // The step is a group more.
    fn append(&mut self, step: Step<A>)
        requires { 0 < self.old.spare }
        ensures { self.new ≡ record {
          rest = self.old.rest;
          behind = self.old.behind ++ kept_step step ∷ [];
          spare = self.old.spare - 1;
        } }
    {
        self.groups.push_back_reserved(Group {
            step,
            rest: Rest::Nothing,
        });
    }

    /// Room for so many steps more. Where it has to grow it at least doubles.
    pub fn widen(&mut self, more: usize) -> Result<(), NoMemory>
        ensures rest { self.new.rest ≡ self.old.rest }
        ensures behind { self.new.behind ≡ self.old.behind }
        ensures grows { self.old.spare ≤ self.new.spare }
        ensures room { OnOk result (more ≤ self.new.spare) }
    {
        widen(&mut self.groups, more)
    }

    /// These steps come first, in the place of those that did.
    pub fn set_rest(&mut self, rest: Rest)
        ensures { self.new ≡ record self.old { rest = rest } }
    {
        self.rest = rest;
    }

    /// The first step of the oldest group, which is gone then; what follows it comes first. None where there is no step.
    pub fn pop(&mut self) -> Option<Step<A>>
        requires { rest_steps self.old.rest ≡ [] }
        ensures some { IfSome result (λ step.
            self.old.behind ≡ kept_step step ∷ steps_of self.new) }
        ensures spare { IfSome result (λ step. self.new.spare ≡ self.old.spare + 1) }
        ensures none { IfNone result (self.old.behind ≡ []) }
    {
        let Some(group) = self.groups.pop_front() else {
            return None;
        };
        let Group { step, rest: next } = group;
        self.rest = next;
        Some(step)
    }

    /// A step comes before the others, as a group with those that came first.
    pub fn put_back(&mut self, step: Step<A>)
        requires { 0 < self.old.spare }
        ensures { self.new ≡ record {
          rest = rest.Nothing;
          behind = kept_step step ∷ steps_of self.old;
          spare = self.old.spare - 1;
        } }
    {
        let rest = self.rest;
        self.rest = Rest::Nothing;
        self.groups.push_front_reserved(Group { step, rest });
    }
}
