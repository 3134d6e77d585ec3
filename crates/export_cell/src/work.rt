//! How much work steps are that are made again, so that no hold of the server makes many long ones.
ghost use Rattle.std.specs.Prelude.{◌≡◌};
ghost use Rattle.export_cell.specs.Work.{allowance_of, work_of};

use nbd_wire::RequestHead;
use nbd_wire::protocol::{TRIM, WRITE, WRITE_ZEROES};
use payload::PAGE;

/// So many pages of zeros are the work of one page of a WRITE.
const PAGES_OF_ZEROS: usize = 1024;

/// What an attach works off, and an arrival at least: twice the four steps that it brings, and 64.
pub(crate) const ALLOWANCE: usize = 72;

/// How much work it is to perform a request, in pages that a WRITE puts into an image. A request that changes no byte is none.
pub fn work_of(head: RequestHead) -> usize
    ensures { result ≡ work_of head }
{
    let bytes = head.length as usize;
    if head.kind == WRITE {
        bytes / PAGE + 1
    } else if head.kind == TRIM || head.kind == WRITE_ZEROES {
        bytes / (PAGES_OF_ZEROS * PAGE) + 1
    } else {
        0
    }
}

/// How much of its export's queued work an arrival works off: twice the work that it brings, and somewhat more. So whatever was queued at once is made
/// by the time that as much has arrived.
pub fn allowance_of(head: RequestHead) -> usize
    ensures { result ≡ allowance_of head }
{
    2 * work_of(head) + ALLOWANCE
}
