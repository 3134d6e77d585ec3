//! What is true of the steps of every export.
ghost use Rattle.std.specs.Prelude.{List};
ghost use Rattle.nbd_commands.specs.Terms.{Terms};
ghost use Rattle.lone_export.specs.Calls.{StepsToCome};
ghost use Rattle.lone_export.specs.LimitTags.{GivesUnrolledTags};
ghost use Rattle.lone_export.specs.declared.step.Step.{Step};

use std::alloc::Allocator;

/// A step that changes something adds one to the export's count of steps, and uses up one of those that were still to
/// come. Any other step changes nothing.
pub fn steps_to_come<A: Allocator>()
    ensures { StepsToCome A }
{}

/// An export's limit tags follow from its accepted arrivals and its retunes: that of the k-th is the greatest, over the
/// arrivals j up to it, of the moment of j and the intervals in force at the arrivals behind j, up to the k-th.
pub fn limit_tags_unrolled<A: Allocator>()
    ensures { (terms : Terms) (steps : List (Step A)) → GivesUnrolledTags terms steps }
{}
