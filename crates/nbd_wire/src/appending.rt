ghost use Rattle.std.specs.Prelude.{◌≡◌, ◌++◌, OnOk, OnErr};

use nbd_base::NoMemory;
use std::alloc::Allocator;

/// Appends two pieces, or nothing where memory is refused.
pub fn append_both<A: Allocator>(
    out: &mut Vec<u8, A>,
    head: &[u8],
    content: &[u8],
) -> Result<(), NoMemory>
    ensures ok { OnOk result (out.new.items ≡ out.old.items ++ (head.now ++ content.now)) }
    ensures err { OnErr result (out.new.items ≡ out.old.items) }
{
    let before = out.len();
    if out.extend_from_slice(head).is_err() {
        return Err(NoMemory);
    }
    if out.extend_from_slice(content).is_err() {
        out.truncate(before);
        return Err(NoMemory);
    }
    Ok(())
}
