ghost use Rattle.std.specs.Prelude.{◌≡◌, ◌+◌, ◌≤◌, length, IfOk};
ghost use Rattle.payload.specs.Bytes.{overwritten};
ghost use Rattle.payload.specs.Rows.{zero_page};

use crate::spares::Spares;
use bytes::Bytes;
use nbd_base::NoMemory;
use std::alloc::{AllocError, Allocator};
use std::marker::Model;

/// How many bytes a page has.
pub const PAGE: usize = 4096;

static ZEROS: [u8; 4096] = [0; 4096];

/// The bytes of a page of zeros.
#[tactic(auto, unfolding(crate::specs::Rows::zero_page))]
pub(crate) fn zeros() -> &'static [u8]
    ensures bytes { result.now ≡ zero_page }
    ensures whole { length result.now ≡ 4096 }
{
    &ZEROS
}

/// 4,096 bytes that don't change. A clone is one more owner of them, and copies none.
#[derive(Drop)]
pub struct Page<A: Allocator> {
    bytes: Bytes<A>,
}

impl<A: Allocator> Model for Page<A> {
    ghost use Rattle.std.specs.Prelude.{◌≡◌, ℕ, List, length};

    ghost Value = { List ℕ };

    ghost view = { λ page. page.bytes };

    ghost invariant = { λ page. length page.bytes ≡ 4096 };
}

impl<A: Allocator> Page<A> {
    /// A page of zeros. It takes no memory.
    pub fn zeros() -> Page<A>
        ensures zeros { result ≡ zero_page }
        ensures whole { length result ≡ 4096 }
    {
        Page::of(Bytes::from_static(zeros()))
    }

    /// The page that these bytes are. What they are a slice of stays in memory as long as it does.
    pub fn of(bytes: Bytes<A>) -> Page<A>
        requires { length bytes ≡ 4096 }
        ensures bytes { result ≡ bytes }
        ensures whole { length result ≡ 4096 }
    {
        Page { bytes }
    }

    /// Its bytes, of which a clone or a slice is one more owner.
    pub fn as_bytes(&self) -> &Bytes<A>
        ensures bytes { result.now ≡ self.now }
        ensures whole { length self.now ≡ 4096 }
    {
        &self.bytes
    }

    /// Its bytes, which keep what they lie in as the page did.
    pub fn into_bytes(self) -> Bytes<A>
        ensures bytes { result ≡ self }
        ensures whole { length result ≡ 4096 }
    {
        let Page { bytes } = self;
        bytes
    }

    /// Its bytes.
    pub fn as_slice(&self) -> &[u8]
        ensures bytes { result.now ≡ self.now }
        ensures whole { length self.now ≡ 4096 }
    {
        self.bytes.as_slice()
    }

    /// A copy of its bytes.
    pub fn copy(&self) -> [u8; 4096]
        ensures bytes { result ≡ self.now }
        ensures whole { length self.now ≡ 4096 }
    {
        let mut bytes = [0; 4096];
        bytes.copy_from_slice(self.as_slice());
        bytes
    }
}

impl<A: Allocator + Copy> Page<A> {
    /// Whether nobody else has it, by a look at the count of its owners. Another thread may let one go meanwhile.
    pub fn is_alone(&self) -> bool {
        self.bytes.is_unique()
    }

    /// A page of these bytes.
    pub fn holding(alloc: A, bytes: [u8; 4096]) -> Result<Page<A>, NoMemory>
        ensures bytes { IfOk result (λ page. page ≡ bytes) }
        ensures whole { IfOk result (λ page. length page ≡ 4096) }
    {
        let bytes = Bytes::copy_from_slice(alloc, &bytes)?;
        Ok(Page::of(bytes))
    }

    /// A page with other bytes in place of those from the start on, in memory of a spare page where there is one.
    pub fn with(
        &self,
        spares: &mut Spares<A>,
        start: usize,
        part: &[u8],
    ) -> Result<Page<A>, NoMemory>
        requires { start + length part.now ≤ 4096 }
        ensures bytes { IfOk result (λ page.
            page ≡ overwritten self.now start (length part.now) part.now) }
        ensures whole { IfOk result (λ page. length page ≡ 4096) }
    {
        let mut block = spares.take()?;
        block.extend_reserved(&self.as_slice()[..start]);
        block.extend_reserved(part);
        block.extend_reserved(&self.as_slice()[start + part.len()..]);
        let bytes = block.freeze()?;
        Ok(Page::of(bytes))
    }
}

impl<A: Allocator> Clone for Page<A> {
    ghost is_clone = { λ page copy. copy ≡ page };

    fn clone(&self) -> Result<Page<A>, AllocError> {
        let bytes = self.bytes.clone()?;
        Ok(Page::of(bytes))
    }
}
