ghost use Rattle.std.specs.Prelude.{◌≡◌, ℕ, ◌+◌, ◌≤◌, List, length, replicate, IfOk, IsOk, OnOk, OnErr};
ghost use Rattle.std.specs.Bool.{OnFalse};
ghost use Rattle.payload.specs.Bytes.{range_of, overwritten};

use nbd_base::NoMemory;
use payload::{Payload, Swept};
use std::alloc::Allocator;

/// The bytes of an export, however they are kept. What a contract sees of an image is the list of its bytes.
///
/// A call that answers `NoMemory` changed no byte: whatever memory it wants, it has before the first byte changes.
pub trait Image: Sized + Drop {
    /// Where the image's memory comes from.
    type Alloc: Allocator + Copy;

    ghost bytes: { Self → List ℕ };

    /// An image of so many zeros.
    fn zeros(alloc: Self::Alloc, size: usize) -> Result<Self, NoMemory>
        ensures { IfOk result (λ image. bytes image ≡ replicate size 0) };

    /// How many bytes there are. No call changes it.
    fn size(&self) -> usize
        ensures { result ≡ length (bytes self.now) };

    /// A range of the bytes, which may be shared with the image.
    fn read(&self, offset: usize, count: usize) -> Result<Payload<Self::Alloc>, NoMemory>
        requires { offset + count ≤ length (bytes self.now) }
        ensures { IfOk result (λ payload. payload ≡ range_of (bytes self.now) offset count) };

    /// Puts a payload in place of the bytes from the offset on. A form may keep its pages in place of a copy.
    fn write(&mut self, offset: usize, piece: &Payload<Self::Alloc>) -> Result<(), NoMemory>
        requires { offset + length piece.now ≤ length (bytes self.old) }
        ensures written { OnOk result (bytes self.new
            ≡ overwritten (bytes self.old) offset (length piece.now) piece.now) }
        ensures no_memory { OnErr result (bytes self.new ≡ bytes self.old) };

    /// Writes a payload that nobody needs any more, as `write` does: a form may take its pages out of it, with neither a copy nor
    /// one more owner. What is left of it then isn't told. Where memory is refused it is as it was.
    fn put(&mut self, offset: usize, piece: &mut Payload<Self::Alloc>) -> Result<(), NoMemory>
        requires { offset + length piece.old ≤ length (bytes self.old) }
        ensures written { OnOk result (bytes self.new
            ≡ overwritten (bytes self.old) offset (length piece.old) piece.old) }
        ensures no_memory { OnErr result ((bytes self.new ≡ bytes self.old)
            × (piece.new ≡ piece.old)) };

    /// Makes a range zero. With `keep` a form may keep memory for the range; without `keep` its memory may be given back,
    /// and the call succeeds even where there is none.
    fn zero(&mut self, offset: usize, count: usize, keep: bool) -> Result<(), NoMemory>
        requires { offset + count ≤ length (bytes self.old) }
        ensures gives_back { OnFalse keep (IsOk result) }
        ensures zeroed { OnOk result (bytes self.new
            ≡ overwritten (bytes self.old) offset count (replicate count 0)) }
        ensures no_memory { OnErr result (bytes self.new ≡ bytes self.old) };

    /// Offers pages of another image to the writes until the next offer: those at the ends of the range, where these lie within a
    /// page. The write may take one that is, byte for byte, what it would make, so that both images share it.
    fn offer(&mut self, offset: usize, count: usize, other: &Self)
        ensures { bytes self.new ≡ bytes self.old };

    /// Exchanges the lists of what writes and zeros have replaced since the last call, and of what was offered before the latest
    /// offer, for those that are lent, which are to be empty and have the room for what comes. Whoever lets these go gives their
    /// memory back, which may take longer than the writes themselves. A form may hand out nothing.
    fn sweep(&mut self, swept: &mut Swept<Self::Alloc>)
        ensures { bytes self.new ≡ bytes self.old };
}
