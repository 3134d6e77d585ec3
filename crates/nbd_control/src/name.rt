//! The name of an export, as a command has it.

ghost use Rattle.std.specs.Prelude.{◌≡◌, IfOk};

use nbd_base::NoMemory;
use std::alloc::Allocator;
use std::marker::Model;

/// The name of an export, as a command has it: its bytes, without the quotes and escapes that they were written in.
#[derive(Drop)]
pub struct Name<A: Allocator> {
    bytes: Vec<u8, A>,
}

impl<A: Allocator> Model for Name<A> {
    ghost use Rattle.std.specs.Prelude.{ℕ, List};

    ghost Value = { List ℕ };

    ghost view = { λ n. n.bytes.items };
}

impl<A: Allocator> Name<A> {
    /// A copy of these bytes.
    pub fn new(alloc: A, bytes: &[u8]) -> Result<Name<A>, NoMemory>
        ensures { IfOk result (λ name. name ≡ bytes.now) }
    {
        Ok(Name {
            bytes: Vec::from_slice(alloc, bytes)?,
        })
    }

    pub fn as_bytes(&self) -> &[u8]
        ensures { result.now ≡ self.now }
    {
        &self.bytes
    }
}
