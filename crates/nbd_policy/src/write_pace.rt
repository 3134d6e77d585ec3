//! How a client takes its replies.

ghost use Rattle.std.specs.Prelude.{◌≡◌};
ghost use Rattle.nbd_policy.specs.Policy.{aged_by, keeps_up_by, pace_by};

use crate::{PACE_BYTES, keeps_up};

/// What was written to a client lately: how many bytes of replies, for how many nanoseconds, and how many nanoseconds lay between these
/// writes while requests were under way.
#[derive(Clone, Copy, Debug, PartialEq, Eq, Drop)]
pub struct WritePace {
    pub bytes: u64,
    pub writing: u64,
    pub between: u64,
}

impl WritePace {
    pub const NOTHING: WritePace = WritePace {
        bytes: 0,
        writing: 0,
        between: 0,
    };

    /// Behind one more write. Of what was before the latest bytes half counts.
    pub fn with(self, bytes: u64, writing: u64, between: u64) -> WritePace
        ensures { result ≡ pace_by self bytes writing between }
    {
        WritePace {
            bytes: aged(self.bytes, self.bytes, bytes),
            writing: aged(self.bytes, self.writing, writing),
            between: aged(self.bytes, self.between, between),
        }
    }

    /// Whether the client keeps up with its replies.
    pub fn keeps_up(self) -> bool
        ensures { result ≡ keeps_up_by self.bytes self.writing self.between }
    {
        keeps_up(self.bytes, self.writing, self.between)
    }
}

/// A sum behind one more write, where so many bytes were written before it: half of it counts behind many.
fn aged(bytes: u64, before: u64, more: u64) -> u64
    ensures { result ≡ aged_by bytes before more }
{
    let kept = if bytes > PACE_BYTES {
        before / 2
    } else {
        before
    };
    kept.saturating_add(more)
}
