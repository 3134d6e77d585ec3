//! Runs that were worked out by hand.
ghost use Rattle.core_laws.specs.Worked.{GreaterWeightGoesSooner, LimitHoldsBack, TagsComeFromTheArrival, MomentsComeInAnyOrder, WeightIsCredited, CreditMovesTheLastTag, CreditMovesTheWaiting, ShiftMovesTheWaiting, ShiftLeavesTheNewcomer, EqualsGoByExport, IdleExportKeepsItsLastP, ReservationGoesFirst, DepthRefuses, DepthCountsItsOwn, InflightHoldsBack, WindowHolds, SixtyFourAreFull, RefusalsComeInOrder, LeftSessionGetsItsReplies, WantOfMemoryIsTold, GoneIsStillServed, StepsAreCounted, RatesChangeWhileNoneWaits, RetunesAreCounted, RetuneIsRefusedInOrder, LastTagsStay, LastRGoesWithItsReservation};
ghost use Rattle.core_laws.specs.WorkedShares.{TwiceTheWeightIsServed, TwiceTheWeightIsReached, BothTagsAreInTheSameTerms, BoundBetweenIsReached, RatioBetweenIsReached, ChoicesAreInTheSameTerms, FMustWait, FMustBeDue, EMustWait, EMustHaveAnInterval, EMustNotBeBehind, FMustArriveInTime};

use std::alloc::Allocator;

/// What the definitions give for these runs is what was worked out by hand.
pub fn worked_runs<A: Allocator>()
    ensures weights { GreaterWeightGoesSooner A }
    ensures limit { LimitHoldsBack A }
    ensures own_moment { TagsComeFromTheArrival A }
    ensures any_order { MomentsComeInAnyOrder A }
    ensures credit { WeightIsCredited A }
    ensures credit_last { CreditMovesTheLastTag A }
    ensures credit_waiting { CreditMovesTheWaiting A }
    ensures shift { ShiftMovesTheWaiting A }
    ensures shift_newcomer { ShiftLeavesTheNewcomer A }
    ensures equals { EqualsGoByExport A }
    ensures idle { IdleExportKeepsItsLastP A }
    ensures reservation { ReservationGoesFirst A }
    ensures depth { DepthRefuses A }
    ensures own_depth { DepthCountsItsOwn A }
    ensures inflight { InflightHoldsBack A }
    ensures window { WindowHolds A }
    ensures order { RefusalsComeInOrder A }
    ensures left { LeftSessionGetsItsReplies A }
    ensures memory { WantOfMemoryIsTold A }
    ensures sessions { SixtyFourAreFull A }
    ensures gone { GoneIsStillServed A }
    ensures steps { StepsAreCounted A }
    ensures retune { RatesChangeWhileNoneWaits A }
    ensures retunes { RetunesAreCounted A }
    ensures retune_order { RetuneIsRefusedInOrder A }
    ensures last_tags { LastTagsStay A }
    ensures last_r { LastRGoesWithItsReservation A }
{}

/// What the law of shares comes to in runs that were worked out by hand, and what fails without each of its premises.
pub fn worked_shares<A: Allocator>()
    ensures served { TwiceTheWeightIsServed A }
    ensures reached { TwiceTheWeightIsReached A }
    ensures same_terms { BothTagsAreInTheSameTerms A }
    ensures between { BoundBetweenIsReached A }
    ensures ratio_between { RatioBetweenIsReached A }
    ensures between_terms { ChoicesAreInTheSameTerms A }
    ensures f_waits { FMustWait A }
    ensures f_due { FMustBeDue A }
    ensures e_waits { EMustWait A }
    ensures e_interval { EMustHaveAnInterval A }
    ensures e_not_behind { EMustNotBeBehind A }
    ensures f_in_time { FMustArriveInTime A }
{}
