//! What is in an export no longer.
ghost use Rattle.std.specs.Prelude.{◌≡◌, IfOk};
ghost use Rattle.payload.specs.Swept.{nothing};

use export_store::Swept;
use nbd_base::NoMemory;
use payload::Spares;
use std::alloc::Allocator;

/// What writes and zeros have put others in place of: in an export as it is, and in its base.
#[derive(Drop)]
pub struct Outdated<A: Allocator + Copy> {
    pub(crate) live: Swept<A>,
    pub(crate) base: Swept<A>,
}

impl<A: Allocator + Copy> Outdated<A> {
    /// Nothing, and room for so many pages of each.
    pub fn with_room(alloc: A, pages: usize) -> Result<Outdated<A>, NoMemory>
        ensures live { IfOk result (λ outdated. outdated.live ≡ nothing) }
        ensures base { IfOk result (λ outdated. outdated.base ≡ nothing) }
    {
        let live = Swept::with_room(alloc, pages)?;
        let base = Swept::with_room(alloc, pages)?;
        Ok(Outdated { live, base })
    }

    /// Lets all go. The memory of pages that nobody else shows is spare, as far as there are places (`Swept::recycle`).
    pub fn recycle(&mut self, spares: &mut Spares<A>)
        ensures live { self.new.live ≡ nothing }
        ensures base { self.new.base ≡ nothing }
    {
        self.live.recycle(spares);
        self.base.recycle(spares);
    }
}
