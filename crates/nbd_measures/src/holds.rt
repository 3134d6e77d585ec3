//! How often the server was held, and how long.

ghost use Rattle.std.specs.Prelude.{◌≡◌, ◌-◌, ◌<◌, ◌==◌, if◌then◌else◌};
ghost use Rattle.nbd_measures.specs.Holds.{begun, longest_at, noted, no_holds, second_of};

use tag_clock::Moment;

/// A second, in nanoseconds.
const SECOND: u64 = 1_000_000_000;

/// How often the server was held, and how long lately. Its seconds are whole ones since the server started.
#[derive(Clone, Copy, Debug, PartialEq, Eq)]
pub struct HoldCount {
    /// How often the server was held. It stops at the greatest number.
    pub total: u64,
    /// The second up to which holds were looked at.
    pub second: u64,
    /// The longest hold that ended in that second, in nanoseconds.
    pub longest: u64,
    /// The longest one that ended in the second before it.
    pub before: u64,
}

impl HoldCount {
    /// No holds.
    pub fn new() -> HoldCount
        ensures { result ≡ no_holds }
    {
        HoldCount {
            total: 0,
            second: 0,
            longest: 0,
            before: 0,
        }
    }

    /// Counts a hold of so many nanoseconds that ended now.
    #[tactic(auto, unfolding(crate::specs::Holds::noted))]
    pub fn note(&mut self, now: Moment, length: u64)
        ensures { self.new ≡ noted self.old now length }
    {
        self.begin(second_of(now));
        self.longest = self.longest.max(length);
        self.total = self.total.saturating_add(1);
    }

    /// The longest hold that ended in the last whole second, in nanoseconds; 0 where none did.
    pub fn longest_of_last_second(&self, now: Moment) -> u64
        ensures { result ≡ longest_at self.now now }
    {
        let mut count = *self;
        count.begin(second_of(now));
        count.before
    }

    /// The longest hold that ended in the second before a later one.
    fn longest_before(&self, second: u64) -> u64
        requires { self.now.second < second }
        ensures { result ≡ (if second - self.now.second == 1 then self.now.longest else 0) }
    {
        if second - self.second == 1 {
            self.longest
        } else {
            0
        }
    }

    /// Goes on to a second, if it is a later one.
    #[tactic(auto, using(crate::proofs::HoldLemmas::begun_same, crate::proofs::HoldLemmas::begun_later))]
    fn begin(&mut self, second: u64)
        ensures { self.new ≡ begun self.old second }
    {
        if second <= self.second {
            return;
        }
        self.before = self.longest_before(second);
        self.second = second;
        self.longest = 0;
    }
}

/// The second of a moment.
fn second_of(now: Moment) -> u64
    ensures { result ≡ second_of now }
{
    now.nanoseconds() / SECOND
}
