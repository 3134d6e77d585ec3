//! The clock of one hold.

use tag_clock::{Clock, Moment};

/// The moment at which a hold began, which is that of all its turns: the system's clock is read once for them.
#[derive(Drop)]
pub struct HoldClock {
    began: Moment,
}

impl HoldClock {
    pub fn at(began: Moment) -> HoldClock {
        HoldClock { began }
    }
}

impl Clock for HoldClock {
    fn now(&self) -> Moment {
        self.began
    }
}
