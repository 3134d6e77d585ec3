//! The laws.
ghost use Rattle.std.specs.Prelude.{ℕ, Bool, List};
ghost use Rattle.nbd_commands.specs.Terms.{Terms};
ghost use Rattle.lone_export.specs.LimitTags.{GivesUnrolledTags};
ghost use Rattle.lone_export.specs.declared.step.Step.{Step};
ghost use Rattle.server_table.specs.declared.event.Event.{Event};
ghost use Rattle.server_table.specs.Table.{Table, Setup};
ghost use Rattle.core_laws.specs.Runs.{Run, answers_in, table_in};
ghost use Rattle.core_laws.specs.Statements.{IsToldAsAlone, EndsAsAlone, IsToldTheSame, EndsTheSame, LeavesOthers, LeavesUnchosen, LeavesAll, QueueCountsItsOwn, QueuesCountTheirOwn, WeightWaitsForItsLimit, WeightsWait, ReservationBeforeWeight, ReservationsBeforeWeights, HasUnrolledTags, HeadsSuffice, ChoosesNoneBefore, ChoosesByLimit, ChoosesByReservation, KeepsOtherAnswers, KeepsLastTable};
ghost use Rattle.core_laws.specs.Shares.{WeightsTakeTheLeast, SharesByWeight, RisesByItsChoices, SharesByRatio};
ghost use Rattle.core_laws.specs.Between.{SharesBetween, RatioBetween};

use std::alloc::Allocator;

/// In every run each export is told what it would be told alone under its own steps, and is in the end what it would be
/// alone: whatever order the events take, and whatever the others do.
pub fn projection<A: Allocator>()
    ensures told { (run : Run A) → IsToldAsAlone run.setup run.events (answers_in run) }
    ensures last { (run : Run A)
        → EndsAsAlone run.setup run.events (answers_in run) (table_in run) }
{}

/// Two runs that agree on an export's terms and own steps tell it the same and leave it the same.
pub fn two_worlds<A: Allocator>()
    ensures told { (one two : Run A) → IsToldTheSame one two }
    ensures last { (one two : Run A) → EndsTheSame one two }
{}

/// A step leaves the parts of the exports that it neither names nor chooses, at any table.
pub fn locality<A: Allocator>()
    ensures others { (setup : Setup) (table : Table) (event : Event A) (memory : Bool)
        → LeavesOthers setup table event memory }
    ensures chosen { (setup : Setup) (table : Table) (t : ℕ) (memory : Bool)
        → LeavesUnchosen A setup table t memory }
    ensures nothing { (setup : Setup) (table : Table) (t : ℕ) (memory : Bool)
        → LeavesAll A setup table t memory }
{}

/// A queue refusal counts the waiting requests of its own export alone, at any table, and so at each place of a run.
pub fn queue_refusal<A: Allocator>()
    ensures step { (setup : Setup) (table : Table) → QueueCountsItsOwn A setup table }
    ensures run { (run : Run A)
        → QueuesCountTheirOwn run.setup run.events (answers_in run) run.marks }
{}

/// No choice by weight precedes its request's limit tag, at any table, and so at each place of a run.
pub fn weight_waits_for_its_limit<A: Allocator>()
    ensures step { (setup : Setup) (table : Table) (t : ℕ) (memory : Bool)
        → WeightWaitsForItsLimit A setup table t memory }
    ensures run { (run : Run A) → WeightsWait run.setup run.events (answers_in run) run.marks }
{}

/// A dispatch that chooses while a request waits whose R tag isn't above the greatest moment of a dispatch, its own
/// included, chooses by reservation: at any table, and so at each place of a run. So no request is chosen by weight while a
/// reservation is due.
pub fn reservations_first<A: Allocator>()
    ensures step { (setup : Setup) (table : Table) (t : ℕ) (memory : Bool)
        → ReservationBeforeWeight A setup table t memory }
    ensures run { (run : Run A)
        → ReservationsBeforeWeights run.setup run.events (answers_in run) run.marks }
{}

/// An export's limit tags follow from the moments of its own accepted arrivals: that of the k-th is the greatest, over the
/// arrivals j up to it, of the moment of j and the intervals of the limit in force at the arrivals behind j, up to the k-th.
/// So it is alone, and so it is in every run.
pub fn limit_tags_unrolled<A: Allocator>()
    ensures alone { (terms : Terms) (steps : List (Step A)) → GivesUnrolledTags terms steps }
    ensures run { (run : Run A) → HasUnrolledTags run.setup run.events (answers_in run) }
{}

/// The choice over all rows of a run's table is the choice over the first waiting row of each export.
pub fn heads_suffice<A: Allocator>()
    ensures { (run : Run A) → HeadsSuffice run }
{}

/// How many of an export's requests are chosen while the greatest moment of a dispatch isn't above `b`, `t` being the
/// moment of its first accepted arrival: none before `t`; by weight at most one, and one more for each interval of its
/// limit from `t` to `b`; by reservation at most one, and one more for each interval of its reservation.
pub fn choice_count<A: Allocator>()
    ensures none { (run : Run A) → ChoosesNoneBefore run.setup run.events (answers_in run) }
    ensures limit { (run : Run A) → ChoosesByLimit run.setup run.events (answers_in run) }
    ensures reservation { (run : Run A)
        → ChoosesByReservation run.setup run.events (answers_in run) }
{}

/// Where exports e and f wait side by side from one place of a run to a later one, f's first request is within its limit at
/// each dispatch between, and e's first P tag wasn't below f's at the start, e is chosen by weight once at most, and once
/// more for each interval of e by which f's first P tag has risen, the shifts between taken off. Where f's requests arrived
/// in time that is an interval of f for each choice of f, so it follows from the weights alone. `between` and
/// `ratio_between` say it from a choice of f to a later choice of f, where f has to wait and to be due only between the two.
/// Nothing is said of time, of how long a request takes, or of an export that begins to wait in between.
pub fn shares<A: Allocator>()
    ensures least { (run : Run A)
        → WeightsTakeTheLeast run.setup run.events (answers_in run) run.marks }
    ensures bound { (run : Run A) → SharesByWeight run.setup run.events (answers_in run) run.marks }
    ensures tags { (run : Run A)
        → RisesByItsChoices run.setup run.events (answers_in run) run.marks }
    ensures ratio { (run : Run A) → SharesByRatio run.setup run.events (answers_in run) run.marks }
    ensures between { (run : Run A)
        → SharesBetween run.setup run.events (answers_in run) run.marks }
    ensures ratio_between { (run : Run A)
        → RatioBetween run.setup run.events (answers_in run) run.marks }
{}

/// Where the events that found no memory are taken out of a run with their marks, every other answer stays, and the last
/// table.
pub fn left_out<A: Allocator>()
    ensures answers { (run : Run A) → KeepsOtherAnswers run }
    ensures table { (run : Run A) → KeepsLastTable run }
{}
