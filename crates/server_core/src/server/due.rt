//! When a server has something to serve next.
ghost use Rattle.std.specs.Prelude.{◌≡◌, ◌<◌, ◌^◌, IfSome, IfNone};
ghost use Rattle.server_core.specs.NextDue.{IsNextDue, IsNeverDue, moment_at};

use crate::server::Server;
use eligibility::Eligibility;
use export_store::Image;
use tag_clock::Moment;

/// The moment of what is due: the first one where it is due by now.
fn moment_of(now: Moment, due: Option<i128>) -> Option<Moment>
    ensures moment { result ≡ moment_at now due }
    ensures early { now < 2 ^ 62 }
{
    let now = now.tag();
    match due {
        Some(due) if due <= now => Some(Moment::zero()),
        Some(due) if due < 1 << 62 => Moment::new(due as u64),
        _ => None,
    }
}

impl<I: Image, E: Eligibility<Alloc = I::Alloc>> Server<I, E> {
    /// The least moment at which a dispatch chooses a request: the first one where a dispatch chooses now. None where
    /// nothing waits, or as many are in service as may be.
    pub fn next_due(&self) -> Option<Moment>
        ensures due { IfSome result (λ due. IsNextDue self.now due) }
        ensures never { IfNone result (IsNeverDue self.now) }
    {
        if self.served >= self.inflight {
            return None;
        }
        moment_of(self.latest, self.eligible.next_due(self.latest))
    }
}
