//! The clocks of one export, which give its requests their tags (mClock, tag assignment).
ghost use Rattle.std.specs.Prelude.{◌≡◌, ℕ, List};
ghost use Rattle.nbd_base.specs.Range.{IsOptionInRange};
ghost use Rattle.tag_clock.specs.Tags.{later};
ghost use Rattle.tag_clock.specs.Clocks.{fresh_limit, limit_tag, limit_after, limit_retuned, fresh_share, r_tag, p_tag, share_after, share_retuned, share_credited, share_shifted, lowered};
ghost use Rattle.tag_clock.specs.LimitTags.{Arrival, limit_tags, given};

use crate::moment::Moment;
use std::marker::Model;

/// The tag of an arrival: an interval after the last one, but not below the arrival's moment.
fn next_tag(last: Option<i128>, interval: u64, at: Moment) -> i128
    requires { IsOptionInRange last }
    ensures { result ≡ later last interval at }
{
    match last {
        Some(last) => (last + i128::from(interval)).max(at.tag()),
        None => at.tag(),
    }
}

/// Gives each accepted request of an export its L tag.
#[derive(Debug, Drop)]
pub struct LimitClock {
    interval: u64,
    last: Option<i128>,
}

impl Model for LimitClock {
    ghost use Rattle.tag_clock.specs.Clocks.{Limit};

    ghost Value = { Limit };

    ghost view = { λ clock. record { interval = clock.interval; last = clock.last } };
}

impl LimitClock {
    /// A clock that has given no tag; the interval is in nanoseconds, 0 for no limit.
    pub fn new(interval: u64) -> LimitClock
        ensures { result ≡ fresh_limit interval }
    {
        LimitClock {
            interval,
            last: None,
        }
    }

    /// The L tag of an arrival, which is the last one from now on.
    pub fn admit(&mut self, at: Moment) -> i128
        requires { IsOptionInRange self.old.last }
        ensures tag { result ≡ limit_tag self.old at }
        ensures clock { self.new ≡ limit_after self.old at }
    {
        let tag = next_tag(self.last, self.interval, at);
        self.last = Some(tag);
        tag
    }

    /// The interval is another from now on, 0 for no limit. The last L tag stays.
    pub fn retune(&mut self, interval: u64)
        ensures { self.new ≡ limit_retuned interval self.old }
    {
        self.interval = interval;
    }
}

/// Gives each accepted request of an export its R and P tags.
#[derive(Debug, Drop)]
pub struct ShareClock {
    r_interval: Option<u64>,
    p_interval: u64,
    last_r: Option<i128>,
    last_p: Option<i128>,
}

impl Model for ShareClock {
    ghost use Rattle.tag_clock.specs.Clocks.{Share};

    ghost Value = { Share };

    ghost view = { λ clock.
        record {
          r_interval = clock.r_interval;
          p_interval = clock.p_interval;
          last_r = clock.last_r;
          last_p = clock.last_p;
        } };
}

impl ShareClock {
    /// A clock that has given no tag; the intervals are in nanoseconds, and without a reservation there is no first.
    pub fn new(r_interval: Option<u64>, p_interval: u64) -> ShareClock
        ensures { result ≡ fresh_share r_interval p_interval }
    {
        ShareClock {
            r_interval,
            p_interval,
            last_r: None,
            last_p: None,
        }
    }

    /// The R tag of an arrival, where there is a reservation, and its P tag. Both are the last ones from now on.
    pub fn admit(&mut self, at: Moment) -> (Option<i128>, i128)
        requires last_r { IsOptionInRange self.old.last_r }
        requires last_p { IsOptionInRange self.old.last_p }
        ensures tags { result ≡ (r_tag self.old at, p_tag self.old at) }
        ensures clock { self.new ≡ share_after self.old at }
    {
        let r = match self.r_interval {
            Some(interval) => Some(next_tag(self.last_r, interval, at)),
            None => None,
        };
        let p = next_tag(self.last_p, self.p_interval, at);
        self.last_r = r;
        self.last_p = Some(p);
        (r, p)
    }

    /// Between R tags; none without a reservation.
    pub fn r_interval(&self) -> Option<u64>
        ensures { result ≡ self.now.r_interval }
    {
        self.r_interval
    }

    /// The intervals are others from now on. The last P tag stays, and the last R tag where there is a reservation.
    pub fn retune(&mut self, r_interval: Option<u64>, p_interval: u64)
        ensures { self.new ≡ share_retuned r_interval p_interval self.old }
    {
        self.last_r = r_interval.and(self.last_r);
        self.r_interval = r_interval;
        self.p_interval = p_interval;
    }

    /// A request of the export was chosen by weight: the interval of the reservation is subtracted from the last R.
    pub fn credit(&mut self)
        requires { IsOptionInRange (share_credited self.old).last_r }
        ensures { self.new ≡ share_credited self.old }
    {
        let interval = self.r_interval.unwrap_or(0);
        self.last_r = lowered_by(self.last_r, i128::from(interval));
    }

    /// Subtracts `delta` from the last P.
    pub fn shift(&mut self, delta: i128)
        requires { IsOptionInRange (share_shifted delta self.old).last_p }
        ensures { self.new ≡ share_shifted delta self.old }
    {
        self.last_p = lowered_by(self.last_p, delta);
    }
}

/// A tag less `delta`, where there is one.
fn lowered_by(tag: Option<i128>, delta: i128) -> Option<i128>
    requires { IsOptionInRange (lowered delta tag) }
    ensures { result ≡ lowered delta tag }
{
    match tag {
        Some(tag) => Some(tag - delta),
        None => None,
    }
}

/// The limit tags of a fresh clock without recursion: that of the k-th arrival is the greatest, over the arrivals j up to
/// it, of `t_j` and the intervals in force at the arrivals behind j, up to the k-th.
pub fn limit_tags_unrolled()
    ensures { (interval : ℕ) (arrivals : List Arrival)
        → given (fresh_limit interval) arrivals ≡ limit_tags arrivals }
{}
