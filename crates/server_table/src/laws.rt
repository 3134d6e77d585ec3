//! What the steps of the table are where it is kept export by export: each law is a function without a body.
ghost use Rattle.std.specs.Prelude.{ℕ, Bool, true, List};
ghost use Rattle.lone_export.specs.declared.step.Step.TheVariants as own;
ghost use Rattle.server_table.specs.declared.event.Event.TheVariants.{Attach, Take, Leave, Gone};
ghost use Rattle.server_table.specs.Parts.{Part};
ghost use Rattle.tag_clock.specs.Intervals.{Intervals};
ghost use Rattle.server_table.specs.Kept.{IsOwnStep, IsRetune, ChoosesAmongHeads};

use std::alloc::Allocator;

/// An event that changes the sessions of one export alone is that export's own step.
pub fn steps_of_sessions<A: Allocator>()
    ensures attach { (ps : List Part) (now inflight e : ℕ)
        → IsOwnStep {A = A} ps now inflight e (Attach e) true own.Attach }
    ensures take { (ps : List Part) (now inflight e s : ℕ) (memory : Bool)
        → IsOwnStep {A = A} ps now inflight e (Take e s) memory (own.Take s) }
    ensures leave { (ps : List Part) (now inflight e s : ℕ) (memory : Bool)
        → IsOwnStep {A = A} ps now inflight e (Leave e s) memory (own.Leave s) }
    ensures gone { (ps : List Part) (now inflight e s : ℕ) (memory : Bool)
        → IsOwnStep {A = A} ps now inflight e (Gone e s) memory (own.Gone s) }
{}

/// A retune changes the rates of one export's part, and its last R tag.
pub fn steps_of_rates<A: Allocator>()
    ensures { (ps : List Part) (now inflight e : ℕ) (rates : Intervals)
        → IsRetune A ps now inflight e rates }
{}

/// The choice over all rows is the choice among the first request of each export, as an eligibility makes it.
pub fn choice_of_first_requests()
    ensures { (ps : List Part) (now inflight : ℕ) → ChoosesAmongHeads ps now inflight }
{}
