//! The intervals of an export, by its rates.
ghost use Rattle.std.specs.Prelude.{◌≡◌, ◌<◌, ◌≤◌, ◌/◌, ◌+◌, ◌-◌, ◌^◌, ◌↔◌, ℕ, IsSome, IfSome};
ghost use Rattle.tag_clock.specs.Intervals.{second, r_interval_of, l_interval_of, p_interval_of, intervals_of, AreRates, IsInterval};

use std::marker::Model;

/// A second, in nanoseconds.
const SECOND: u64 = 1_000_000_000;

/// The greatest rate and the greatest weight.
const MOST: u32 = 1_000_000;

/// How far the tags of an export's requests lie apart, in nanoseconds.
#[derive(Clone, Copy, Debug, PartialEq, Eq)]
pub struct Tuning {
    r_interval: Option<u64>,
    l_interval: u64,
    p_interval: u64,
}

impl Model for Tuning {
    ghost use Rattle.tag_clock.specs.Intervals.{Intervals, AreIntervals};

    ghost Value = { Intervals };

    ghost view = { λ tuning.
        record {
          r_interval = tuning.r_interval;
          l_interval = tuning.l_interval;
          p_interval = tuning.p_interval;
        } };

    ghost invariant = { λ tuning.
        AreIntervals (record {
          r_interval = tuning.r_interval;
          l_interval = tuning.l_interval;
          p_interval = tuning.p_interval;
        }) };

    ghost inverse = { λ v.
        record {
          r_interval = v.r_interval;
          l_interval = v.l_interval;
          p_interval = v.p_interval;
        } };
}

fn reservation_interval(rate: u32) -> Option<u64>
    ensures { result ≡ r_interval_of rate }
{
    if rate == 0 {
        None
    } else {
        Some(SECOND / u64::from(rate))
    }
}

fn limit_interval(rate: u32) -> u64
    ensures { result ≡ l_interval_of rate }
{
    if rate == 0 {
        return 0;
    }
    let rate = u64::from(rate);
    (SECOND + (rate - 1)) / rate
}

fn weight_interval(weight: u32) -> u64
    requires { 1 ≤ weight }
    ensures { result ≡ p_interval_of weight }
{
    SECOND / u64::from(weight)
}

impl Tuning {
    /// Of a reservation and a limit in requests a second, 0 for none, and a weight.
    ///
    /// None where one of the two is above 1,000,000, or the weight isn't between 1 and 1,000,000.
    pub fn new(reservation: u32, limit: u32, weight: u32) -> Option<Tuning>
        ensures valid { IsSome result ↔ AreRates reservation limit weight }
        ensures value { IfSome result (λ tuning. tuning ≡ intervals_of reservation limit weight) }
    {
        if reservation > MOST || limit > MOST || weight < 1 || weight > MOST {
            return None;
        }
        Some(Tuning {
            r_interval: reservation_interval(reservation),
            l_interval: limit_interval(limit),
            p_interval: weight_interval(weight),
        })
    }

    /// Between R tags; none without a reservation.
    pub fn r_interval(self) -> Option<u64>
        ensures value { result ≡ self.r_interval }
        ensures range { IfSome result IsInterval }
    {
        self.r_interval
    }

    /// Between L tags; 0 without a limit.
    pub fn l_interval(self) -> u64
        ensures value { result ≡ self.l_interval }
        ensures range { 0 < result → IsInterval result }
    {
        self.l_interval
    }

    /// Between P tags.
    pub fn p_interval(self) -> u64
        ensures value { result ≡ self.p_interval }
        ensures range { IsInterval result }
    {
        self.p_interval
    }
}
