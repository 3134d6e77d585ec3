//! The fields of a line.

ghost use Rattle.std.specs.Prelude.{◌≡◌, IfOk};
ghost use Rattle.nbd_text.specs.Fields.{fields_in, texts_of};

use std::alloc::{AllocError, Allocator};

/// The fields of a line, which one or more spaces part.
pub fn fields_of<A: Allocator>(alloc: A, line: &[u8]) -> Result<Vec<&[u8], A>, AllocError>
    ensures { IfOk result (λ fields. texts_of fields.items ≡ fields_in line.now) }
{
    line.split(|byte| *byte == b' ')
        .filter(|field| !field.is_empty())
        .collect(alloc)
}
