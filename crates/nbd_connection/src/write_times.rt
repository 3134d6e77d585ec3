//! How long a session's writer writes, and what lies between its writes.
ghost use Rattle.std.specs.Prelude.{◌≡◌, ◌-◌, if◌then◌else◌, true, false};
ghost use Rattle.nbd_policy.specs.Policy.{keeps_up_by, pace_by};

use nbd_policy::WritePace;
use tag_clock::Moment;

/// How long a session's writer writes, and what lies between its writes. Moments are in nanoseconds.
#[derive(Clone, Copy, Debug, PartialEq, Eq, Drop)]
pub struct WriteTimes {
    pub pace: WritePace,
    /// When the latest write began, and when the one before it ended.
    pub began: u64,
    pub ended: u64,
    /// Whether nothing was under way since: what lies between isn't told of the client then.
    pub resting: bool,
}

impl WriteTimes {
    /// Of a session that has written nothing.
    pub fn new() -> WriteTimes
        ensures pace { result.pace ≡ record { bytes = 0; writing = 0; between = 0 } }
        ensures resting { result.resting ≡ true }
    {
        WriteTimes {
            pace: WritePace::NOTHING,
            began: 0,
            ended: 0,
            resting: true,
        }
    }

    /// A write begins.
    pub fn begin(&mut self, now: Moment)
        ensures pace { self.new.pace ≡ self.old.pace }
        ensures began { self.new.began ≡ now }
        ensures ended { self.new.ended ≡ (if self.old.resting then now else self.old.ended) }
        ensures resting { self.new.resting ≡ false }
    {
        self.began = now.nanoseconds();
        if self.resting {
            self.ended = self.began;
        }
        self.resting = false;
    }

    /// It ended, and has written so many bytes of replies. Tells whether the client keeps up.
    pub fn end(&mut self, now: Moment, bytes: u64) -> bool
        ensures pace { self.new.pace
            ≡ pace_by self.old.pace bytes (now - self.old.began) (self.old.began - self.old.ended) }
        ensures ended { self.new.ended ≡ now }
        ensures rest { self.new ≡ record self.old { pace = self.new.pace; ended = self.new.ended } }
        ensures keeps_up { result
            ≡ keeps_up_by self.new.pace.bytes self.new.pace.writing self.new.pace.between }
    {
        let writing = now.nanoseconds().saturating_sub(self.began);
        let between = self.began.saturating_sub(self.ended);
        self.pace = self.pace.with(bytes, writing, between);
        self.ended = now.nanoseconds();
        self.pace.keeps_up()
    }

    /// Nothing is under way.
    pub fn rest(&mut self)
        ensures { self.new ≡ record self.old { resting = true } }
    {
        self.resting = true;
    }
}
