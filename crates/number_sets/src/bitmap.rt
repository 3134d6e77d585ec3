ghost use Rattle.std.specs.Prelude.{◌≡◌, ℕ, ◌≤◌, false, IfOk, if◌then◌else◌};
ghost use Rattle.number_sets.specs.Bits.{is_set, any_set, is_between, count_of};

use crate::bits;
use nbd_base::NoMemory;
use std::alloc::Allocator;
use std::marker::Model;

/// How many numbers a bitmap is for.
pub const BITMAP: usize = 16_384;

const WORDS: usize = 256;

/// A set of numbers below 16,384: 2 KiB for the pages of 64 MiB.
#[derive(Drop)]
pub(crate) struct Bitmap<A: Allocator + Copy> {
    words: Vec<u64, A>,
}

impl<A: Allocator + Copy> Model for Bitmap<A> {
    ghost use Rattle.std.specs.Prelude.{◌≡◌, ℕ, List, length};

    ghost Value = { List ℕ };

    ghost view = { λ bitmap. bitmap.words.items };

    ghost invariant = { λ bitmap. length bitmap.words.items ≡ 256 };
}

impl<A: Allocator + Copy> Bitmap<A> {
    /// None is a member.
    pub(crate) fn none(alloc: A) -> Result<Bitmap<A>, NoMemory>
        ensures { IfOk result (λ bitmap. (k : ℕ) → is_set bitmap k ≡ false) }
    {
        let words = Vec::from_elem(alloc, 0, WORDS)?;
        Ok(Bitmap { words })
    }

    /// Whether a number is a member.
    pub(crate) fn has(&self, number: usize) -> bool
        ensures { result ≡ is_set self.now number }
    {
        bits::has(self.words.as_slice(), number)
    }

    /// Whether there is any member.
    pub(crate) fn any(&self) -> bool
        ensures { result ≡ any_set self.now }
    {
        bits::any(self.words.as_slice())
    }

    /// How many members there are.
    pub(crate) fn count(&self) -> usize
        ensures count { result ≡ count_of (is_set self.now) 0 16384 }
        ensures few { result ≤ 16384 }
    {
        bits::count(self.words.as_slice())
    }

    /// The numbers from the first on before an end are members from now on, or aren't.
    pub(crate) fn put(&mut self, first: usize, end: usize, member: bool)
        requires { end ≤ 16384 }
        ensures { (k : ℕ)
            → is_set self.new k ≡ (if is_between first end k then member else is_set self.old k) }
    {
        bits::put(self.words.as_mut_slice(), first, end, member);
    }
}
