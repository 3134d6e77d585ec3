//! A script that is refused.

ghost use Rattle.std.specs.Prelude.{◌≡◌, ◌≢◌, IfOk, OnOk};
ghost use Rattle.nbd_scripts.specs.Told.{CountsWrite, refusal_line, TellsRefusal};

use crate::fault::LineFault;
use crate::outcome::Outcome;
use crate::writing::tell_text;
use nbd_base::NoMemory;
use nbd_stream::Counted;
use nbd_text::or_no_memory;
use std::alloc::Allocator;
use std::io::Write;

/// Writes that this line is refused, and why. Want of memory is no refusal.
pub fn refuse_line<A: Allocator, W: Write>(
    alloc: A,
    line: usize,
    fault: LineFault,
    output: &mut Counted<W>,
) -> Outcome
    ensures told { TellsRefusal line fault (W.contents output.old.inner)
        (W.contents output.new.inner) result }
    ensures counted { CountsWrite result output.old.failures output.new.failures }
    ensures read { result ≢ Outcome.ReadFailed }
{
    match refusal_line(alloc, line, fault) {
        Ok(text) => tell_text(&text, Outcome::Refused, output),
        Err(NoMemory) => Outcome::NoMemory,
    }
}

/// The line that says that this line is refused, and why.
fn refusal_line<A: Allocator>(
    alloc: A,
    line: usize,
    fault: LineFault,
) -> Result<Vec<u8, A>, NoMemory>
    ensures text { IfOk result (λ text. text.items ≡ refusal_line line fault) }
    ensures refusal { OnOk result (fault ≢ LineFault.NoMemory) }
{
    let mut text = Vec::new(alloc);
    let written = match fault {
        LineFault::NoMemory => return Err(NoMemory),
        LineFault::Form => writeln!(text, "line {line} refused"),
        LineFault::Value(refusal) => {
            let code = refusal.code();
            writeln!(text, "line {line} C{code}")
        }
    };
    or_no_memory(written)?;
    Ok(text)
}
