//! Want of memory where a text is written.

ghost use Rattle.std.specs.Prelude.{IsOk, IsErr, OnOk, OnErr};

use nbd_base::NoMemory;
use std::io;

/// What a write to a vector came to. A vector refuses one only for want of memory.
pub fn or_no_memory(written: io::Result<()>) -> Result<(), NoMemory>
    ensures ok { OnOk written (IsOk result) }
    ensures err { OnErr written (IsErr result) }
{
    match written {
        Ok(()) => Ok(()),
        Err(_) => Err(NoMemory),
    }
}
