//! What holds of turns, whatever the order of the calls: each law is a function without a body, and its contract is the law.
ghost use Rattle.turn_order.specs.Laws.{IsGivenByWeight, IsStepOfWeight, IsLateServed, IsLateWaitedFor, IsNoneStuck, IsLeftAlone, IsOwedLittle, IsOwingLittle};

/// While two exports contend, what one of them is given over its weight is at most what the other is, and a stated lead:
/// so what they are given comes to the ratio of their weights.
pub fn given_by_weight()
    ensures { IsGivenByWeight }
{}

/// The virtual time of a unit is the inverse of the weight, to one part in 2^40 for weights up to 2^20.
pub fn step_of_weight()
    ensures { IsStepOfWeight }
{}

/// A late reservation goes before any that isn't late.
pub fn late_goes_first()
    ensures served { IsLateServed }
    ensures waited_for { IsLateWaitedFor }
{}

/// Somebody who has something at hand may always go on.
pub fn none_is_stuck()
    ensures { IsNoneStuck }
{}

/// An export that has left delays nobody.
pub fn left_alone()
    ensures { IsLeftAlone }
{}

/// An export that comes back is owed little, and owes little.
pub fn little_is_owed()
    ensures owed { IsOwedLittle }
    ensures owing { IsOwingLittle }
{}
