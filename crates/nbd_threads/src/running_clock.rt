//! The clock of a server that runs.

use nbd_policy::moment_after;
use std::time;
use std::time::{Duration, Instant};
use tag_clock::{Clock, Moment};

/// Nanoseconds since a start. It tells the first moment where the system's clock can't be read.
#[derive(Drop)]
pub struct RunningClock<'a, R: time::Clock> {
    rt: &'a R,
    start: Option<Instant>,
}

impl<'a, R: time::Clock> RunningClock<'a, R> {
    pub fn since(rt: &'a R, start: Option<Instant>) -> RunningClock<'a, R> {
        RunningClock { rt, start }
    }
}

impl<'a, R: time::Clock> Clock for RunningClock<'a, R> {
    fn now(&self) -> Moment {
        match &self.start {
            Some(start) => moment_after(start.elapsed(self.rt).unwrap_or(Duration::ZERO)),
            None => Moment::zero(),
        }
    }
}
