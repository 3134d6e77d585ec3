//! How many sessions read long data.

ghost use Rattle.std.specs.Prelude.{◌≡◌};
ghost use Rattle.nbd_policy.specs.Policy.{in_span_by, long_readers_by, readers_by};

/// How many sessions sent a READ of long data in a span of time, and how many in the span before it. Spans have numbers.
#[derive(Clone, Copy, Debug, PartialEq, Eq, Drop)]
pub struct LongReaders {
    pub span: u64,
    pub now: u64,
    pub before: u64,
}

impl LongReaders {
    /// Nobody in the first span.
    pub const NOBODY: LongReaders = LongReaders {
        span: 0,
        now: 0,
        before: 0,
    };

    /// Behind one more of a session, in a span in which the session counts already or not.
    pub fn with(self, span: u64, counts: bool) -> LongReaders
        ensures { result ≡ readers_by self span counts }
    {
        let readers = self.in_span(span);
        if counts {
            return readers;
        }
        LongReaders {
            span: readers.span,
            now: readers.now.saturating_add(1),
            before: readers.before,
        }
    }

    /// How many sessions read long data: as many as in that one of the two spans which has more.
    pub fn count(self) -> u64
        ensures { result ≡ long_readers_by self }
    {
        if self.now < self.before {
            self.before
        } else {
            self.now
        }
    }

    // The same readers in a span, where that is a later one. Of a span that isn't the one before it nobody counts.
    fn in_span(self, span: u64) -> LongReaders
        ensures { result ≡ in_span_by self span }
    {
        if span <= self.span {
            return self;
        }
        LongReaders {
            span,
            now: 0,
            before: if span - self.span == 1 { self.now } else { 0 },
        }
    }
}
