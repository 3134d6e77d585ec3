//! Readers that may have read more than they gave.
ghost use Rattle.std.specs.Prelude.{
  ◌≡◌,
  ◌<◌,
  ◌-◌,
  ◌++◌,
  ℕ,
  List,
  [],
  Option,
  length,
  min,
  take,
  IfOk,
  OnErr,
  IsTrue,
  IsFalse,
};
ghost use Rattle.std.specs.Io.KnownBytes.{Consumes};
ghost use Rattle.nbd_stream.specs.Intake.{Lengthens};

use nbd_base::NoMemory;
use payload::{Growing, Spares};
use std::alloc::Allocator;
use std::io::Read;

/// A reader that may have read more than it gave.
pub trait Buffered: Read {
    /// Appends what it has read already to a payload, which gets no more than `whole` bytes, and tells whether that was any. After
    /// want of memory it is still to be read. A reader that gives all that it reads has nothing.
    fn append_buffered<A: Allocator + Copy>(
        &mut self,
        payload: &mut Growing<A>,
        spares: &mut Spares<A>,
        whole: usize,
    ) -> Result<bool, NoMemory>
        ensures some { IfOk result (λ any. IsTrue any → Lengthens (Self.remaining self.old)
            (Self.remaining self.new) payload.old payload.new whole) }
        ensures none { IfOk result (λ any. IsFalse any → payload.new ≡ payload.old) }
        ensures left { IfOk result (λ any. IsFalse any
            → Self.remaining self.new ≡ Self.remaining self.old) }
        ensures err { OnErr result (Self.remaining self.new ≡ Self.remaining self.old) }
    {
        Ok(false)
    }
}

impl Buffered for &[u8] {}

/// Appends the first of these bytes to a payload, which gets no more than `whole`, and tells how many. After want of memory the
/// payload has none.
pub fn append_front<A: Allocator + Copy>(
    payload: &mut Growing<A>,
    spares: &mut Spares<A>,
    bytes: &[u8],
    whole: usize,
) -> Result<usize, NoMemory>
    ensures count { IfOk result (λ count. count ≡ min (length bytes.now)
        (whole - length payload.old)) }
    ensures appended { IfOk result (λ count. payload.new
        ≡ payload.old ++ take count bytes.now) }
    ensures some { IfOk result (λ count. 0 < count → (left later : Option (List ℕ))
        → Consumes left later (take count bytes.now)
        → Lengthens left later payload.old payload.new whole) }
    ensures none { IfOk result (λ count. count ≡ 0 → payload.new ≡ payload.old) }
    ensures err { OnErr result (payload.new ≡ []) }
{
    let count = bytes.len().min(whole.saturating_sub(payload.len()));
    if count > 0 {
        payload.append(spares, &bytes[..count])?;
    }
    Ok(count)
}
