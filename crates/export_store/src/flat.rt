ghost use Rattle.std.specs.Prelude.{◌≡◌, ◌+◌, ◌≤◌, length, replicate, IfOk, IsOk, OnOk, OnErr};
ghost use Rattle.std.specs.Bool.{OnFalse};
ghost use Rattle.payload.specs.Bytes.{range_of, overwritten};

use crate::image::Image;
use nbd_base::NoMemory;
use payload::{Payload, Swept};
use std::alloc::Allocator;
use std::marker::Model;

/// An image in one piece. Its memory is all there from the start, so `write` and `zero` never fail.
#[derive(Drop)]
pub struct Flat<A: Allocator + Copy> {
    alloc: A,
    kept: Vec<u8, A>,
}

impl<A: Allocator + Copy> Model for Flat<A> {
    ghost use Rattle.std.specs.Prelude.{ℕ, List};

    ghost Value = { List ℕ };

    ghost view = { λ flat. flat.kept.items };
}

// Puts bytes in place of those from one on.
fn put(kept: &mut [u8], begin: usize, part: &[u8])
    requires { begin + length part.now ≤ length kept.old }
    ensures { kept.new ≡ overwritten kept.old begin (length part.now) part.now }
{
    kept[begin..begin + part.len()].copy_from_slice(part);
}

// Puts a payload in place of the bytes from the offset on.
fn put_all<A: Allocator + Copy>(kept: &mut [u8], offset: usize, piece: &Payload<A>)
    requires { offset + length piece.now ≤ length kept.old }
    ensures { kept.new ≡ overwritten kept.old offset (length piece.now) piece.now }
{
    let mut at = 0;
    while at < piece.len() {
        let part = piece.from(at);
        put(kept, offset + at, part);
        at += part.len();
    }
}

impl<A: Allocator + Copy> Image for Flat<A> {
    type Alloc = A;

    ghost bytes = { λ flat. flat };

    fn zeros(alloc: A, size: usize) -> Result<Flat<A>, NoMemory> {
        let kept = Vec::from_elem(alloc, 0, size)?;
        Ok(Flat { alloc, kept })
    }

    fn size(&self) -> usize {
        self.kept.len()
    }

    fn read(&self, offset: usize, count: usize) -> Result<Payload<A>, NoMemory> {
        Payload::copied(
            self.alloc,
            offset as u64,
            &self.kept[offset..offset + count],
        )
    }

    fn write(&mut self, offset: usize, piece: &Payload<A>) -> Result<(), NoMemory>
        requires { offset + length piece.now ≤ length self.old }
        ensures never_fails { IsOk result }
        ensures written { self.new ≡ overwritten self.old offset (length piece.now) piece.now }
    {
        put_all(self.kept.as_mut_slice(), offset, piece);
        Ok(())
    }

    fn put(&mut self, offset: usize, piece: &mut Payload<A>) -> Result<(), NoMemory>
        requires { offset + length piece.old ≤ length self.old }
        ensures never_fails { IsOk result }
        ensures written { self.new ≡ overwritten self.old offset (length piece.old) piece.old }
    {
        self.write(offset, piece)
    }

    fn zero(&mut self, offset: usize, count: usize, _keep: bool) -> Result<(), NoMemory>
        requires { offset + count ≤ length self.old }
        ensures never_fails { IsOk result }
        ensures zeroed { self.new ≡ overwritten self.old offset count (replicate count 0) }
    {
        self.kept[offset..offset + count].fill(0);
        Ok(())
    }

    fn offer(&mut self, _offset: usize, _count: usize, _other: &Flat<A>) {}

    fn sweep(&mut self, _swept: &mut Swept<A>) {}
}
