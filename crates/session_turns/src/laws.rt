//! What holds of a session's replies, whatever the order of the calls.
ghost use Rattle.session_turns.specs.InOrder.{IsBegun, IsTaken, IsWritten, IsReadyWritten, IsSent};

/// What was taken is what was written, in this order, and then what still waits; behind a failed write, a beginning of its text was
/// written. So it is at first, and each call of a `ReplyWriter` leaves it so. A reply that was made ready goes before those that wait.
pub fn replies_in_order()
    ensures begun { IsBegun }
    ensures taken { IsTaken }
    ensures written { IsWritten }
    ensures ready { IsReadyWritten }
    ensures sent { IsSent }
{}
