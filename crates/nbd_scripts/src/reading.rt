//! Reading the whole input of a command.

ghost use Rattle.std.specs.Prelude.{◌≡◌, ◌<◌, ◌⊎◌, vec_len, IfOk, OnOk, IfErr};
ghost use Rattle.nbd_scripts.specs.Told.{CountsRead, IsWhole};

use crate::outcome::Outcome;
use nbd_base::NoMemory;
use nbd_stream::Counted;
use std::alloc::Allocator;
use std::io::Read;

/// The most bytes that are read at once.
const PIECE: usize = 65_536;

/// The whole input, or how the command went without it.
pub fn read_whole<A: Allocator + Copy, R: Read>(
    alloc: A,
    input: &mut Counted<R>,
) -> Result<Vec<u8, A>, Outcome>
    ensures whole { IfOk result (λ text.
        IsWhole (R.remaining input.old.inner) (R.remaining input.new.inner) text.items) }
    ensures kept { OnOk result (input.new.failures ≡ input.old.failures) }
    ensures failed { IfErr result (λ outcome.
        (outcome ≡ Outcome.NoMemory) ⊎ (outcome ≡ Outcome.ReadFailed)) }
    ensures counted { IfErr result (λ outcome.
        CountsRead outcome input.old.failures input.new.failures) }
{
    let Ok(mut piece) = room(alloc) else {
        return Err(Outcome::NoMemory);
    };
    let buffer = piece.as_mut_slice();
    let mut text = Vec::new(alloc);
    loop {
        match input.read(buffer) {
            Ok(0) => return Ok(text),
            Ok(count) => {
                if text.extend_from_slice(&buffer[..count]).is_err() {
                    return Err(Outcome::NoMemory);
                }
            }
            Err(_) => return Err(Outcome::ReadFailed),
        }
    }
}

/// The memory for what is read at once.
fn room<A: Allocator>(alloc: A) -> Result<Vec<u8, A>, NoMemory>
    ensures { IfOk result (λ piece. 0 < vec_len piece) }
{
    Ok(vec![in alloc; 0; PIECE]?)
}
