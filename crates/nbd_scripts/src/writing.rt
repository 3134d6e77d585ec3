//! Writing a text, and what is written of it where a write fails.

ghost use Rattle.std.specs.Prelude.{◌≡◌, ◌≢◌, ◌⊎◌};
ghost use Rattle.nbd_stream.specs.Streams.{Rises};
ghost use Rattle.nbd_scripts.specs.Told.{Writes};

use crate::outcome::Outcome;
use nbd_stream::{Counted, WriteFailed, put};
use std::io::Write;

/// Writes a text, and answers `well` where all of it is written.
pub fn tell_text<W: Write>(text: &[u8], well: Outcome, output: &mut Counted<W>) -> Outcome
    ensures written { Writes text.now well (W.contents output.old.inner)
        (W.contents output.new.inner) result }
    ensures answer { (result ≡ well) ⊎ (result ≡ Outcome.WriteFailed) }
    ensures failed { well ≢ Outcome.WriteFailed → result ≡ Outcome.WriteFailed
        → Rises output.old.failures output.new.failures }
    ensures kept { result ≢ Outcome.WriteFailed → output.new.failures ≡ output.old.failures }
{
    match put(output, text) {
        Ok(()) => well,
        Err(WriteFailed) => Outcome::WriteFailed,
    }
}
