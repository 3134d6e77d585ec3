ghost use Rattle.std.specs.Prelude.{◌≡◌, ◌++◌, ◌+◌, ◌^◌, ◌<◌, ◌≤◌, length, IfOk, OnOk, OnErr, IsTrue, IsFalse};
ghost use Rattle.std.specs.Io.{ReadsAtMost, WritesAtMost};
ghost use Rattle.std.specs.Io.KnownBytes.{ReadConsumes, WriteAppends, Keeps};
ghost use Rattle.nbd_stream.specs.Intake.{Lengthens};
ghost use Rattle.nbd_stream.specs.Streams.{Rises};

use crate::buffered::Buffered;
use nbd_base::NoMemory;
use payload::{Growing, Spares};
use std::alloc::Allocator;
use std::io;
use std::io::{Read, Write};

/// A reader or writer that hands calls on, and counts those that failed or took no byte of a write. The count stops at its
/// greatest value.
#[derive(Drop)]
pub struct Counted<S> {
    inner: S,
    failures: u64,
}

impl<S> Counted<S> {
    /// No call has failed yet.
    pub fn new(inner: S) -> Counted<S>
        ensures { (result.inner ≡ inner) × (result.failures ≡ 0) }
    {
        Counted { inner, failures: 0 }
    }

    /// How many calls have failed.
    pub fn failures(&self) -> u64
        ensures { result ≡ self.now.failures }
    {
        self.failures
    }

    /// The reader or writer itself.
    pub fn into_inner(self) -> S
        ensures { result ≡ self.inner }
    {
        let Counted { inner, failures: _ } = self;
        inner
    }
}

/// The count after one more failed call. It stops at its greatest value.
fn one_more(failures: u64) -> u64
    ensures { Rises failures result }
{
    failures.saturating_add(1)
}

impl<R: Read> Read for Counted<R> {
    ghost remaining = { λ counted. R.remaining counted.inner };

    fn read(&mut self, buf: &mut [u8]) -> io::Result<usize>
        ensures bound { ReadsAtMost result buf.new }
        ensures bytes { ReadConsumes (R.remaining self.old.inner) (R.remaining self.new.inner)
            result buf.new }
        ensures failed { OnErr result (Rises self.old.failures self.new.failures) }
        ensures kept { OnOk result (self.new.failures ≡ self.old.failures) }
    {
        let outcome = self.inner.read(buf);
        if outcome.is_err() {
            self.failures = one_more(self.failures);
        }
        outcome
    }
}

impl<R: Buffered> Buffered for Counted<R> {
    fn append_buffered<A: Allocator + Copy>(
        &mut self,
        payload: &mut Growing<A>,
        spares: &mut Spares<A>,
        whole: usize,
    ) -> Result<bool, NoMemory>
        ensures some { IfOk result (λ any. IsTrue any → Lengthens (R.remaining self.old.inner)
            (R.remaining self.new.inner) payload.old payload.new whole) }
        ensures none { IfOk result (λ any. IsFalse any → payload.new ≡ payload.old) }
        ensures left { IfOk result (λ any. IsFalse any
            → R.remaining self.new.inner ≡ R.remaining self.old.inner) }
        ensures err { OnErr result (R.remaining self.new.inner ≡ R.remaining self.old.inner) }
        ensures failures { self.new.failures ≡ self.old.failures }
    {
        self.inner.append_buffered(payload, spares, whole)
    }
}

impl<W: Write> Write for Counted<W> {
    ghost contents = { λ counted. W.contents counted.inner };

    fn write(&mut self, buf: &[u8]) -> io::Result<usize>
        ensures bound { WritesAtMost result buf.now }
        ensures bytes { WriteAppends (W.contents self.old.inner) (W.contents self.new.inner) result
            buf.now }
        ensures failed { OnErr result (Rises self.old.failures self.new.failures) }
        ensures idle { IfOk result (λ n. n ≡ 0 → 0 < length buf.now
            → Rises self.old.failures self.new.failures) }
        ensures kept { IfOk result (λ n. 0 < n → self.new.failures ≡ self.old.failures) }
        ensures empty { OnOk result (length buf.now ≡ 0 → self.new.failures ≡ self.old.failures) }
    {
        let outcome = self.inner.write(buf);
        let failed = match &outcome {
            Ok(count) => *count == 0 && !buf.is_empty(),
            Err(_) => true,
        };
        if failed {
            self.failures = one_more(self.failures);
        }
        outcome
    }

    fn flush(&mut self) -> io::Result<()>
        ensures bytes { Keeps (W.contents self.old.inner) (W.contents self.new.inner) }
        ensures failed { OnErr result (Rises self.old.failures self.new.failures) }
        ensures kept { OnOk result (self.new.failures ≡ self.old.failures) }
    {
        let flushed = self.inner.flush();
        if flushed.is_err() {
            self.failures = one_more(self.failures);
        }
        flushed
    }
}
