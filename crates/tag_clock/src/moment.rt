//! Moments, and what tells them.
ghost use Rattle.std.specs.Prelude.{◌≡◌, ◌<◌, ◌^◌, ◌↔◌, IsSome, IfSome, pos, max};

use std::marker::Model;

/// A moment in nanoseconds, below 2^62.
#[derive(Clone, Copy, Debug, PartialEq, Eq, PartialOrd, Ord)]
pub struct Moment {
    nanoseconds: u64,
}

impl Model for Moment {
    ghost use Rattle.std.specs.Prelude.{ℕ, ◌<◌, ◌^◌};

    ghost Value = { ℕ };

    ghost view = { λ moment. moment.nanoseconds };

    ghost invariant = { λ moment. moment.nanoseconds < 2 ^ 62 };

    ghost inverse = { λ n. record { nanoseconds = n } };
}

impl Moment {
    /// None from 2^62 nanoseconds on.
    pub fn new(nanoseconds: u64) -> Option<Moment>
        ensures valid { IsSome result ↔ (nanoseconds < 2 ^ 62) }
        ensures value { IfSome result (λ moment. moment ≡ nanoseconds) }
    {
        if nanoseconds < 1 << 62 {
            Some(Moment { nanoseconds })
        } else {
            None
        }
    }

    /// The first moment.
    pub fn zero() -> Moment
        ensures { result ≡ 0 }
    {
        Moment { nanoseconds: 0 }
    }

    pub fn nanoseconds(self) -> u64
        ensures value { result ≡ self }
        ensures below { self < 2 ^ 62 }
    {
        self.nanoseconds
    }

    /// The moment as a tag, which is in nanoseconds too.
    pub fn tag(self) -> i128
        ensures value { result ≡ pos self }
        ensures below { self < 2 ^ 62 }
    {
        i128::from(self.nanoseconds)
    }

    /// The later of two moments.
    pub fn later(self, other: Moment) -> Moment
        ensures { result ≡ max self other }
    {
        if self.nanoseconds < other.nanoseconds {
            other
        } else {
            self
        }
    }
}

/// What tells the present moment.
///
/// Nothing is promised of it: it may stand still or fall back.
pub trait Clock {
    fn now(&self) -> Moment;
}
