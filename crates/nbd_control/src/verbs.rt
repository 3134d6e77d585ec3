//! The first word of a line.

ghost use Rattle.std.specs.Prelude.{◌≡◌};
ghost use Rattle.nbd_control.specs.Verbs.{verb_of};

/// The first word of a line.
#[derive(Clone, Copy, Debug, PartialEq, Eq)]
pub enum Verb {
    Stats,
    Retune,
    Sessions,
    Drop,
    Stop,
}

/// The verb of this name.
pub fn verb_of(name: &[u8]) -> Option<Verb>
    ensures { result ≡ verb_of name.now }
{
    if name == b"stats".as_slice() {
        return Some(Verb::Stats);
    }
    if name == b"retune".as_slice() {
        return Some(Verb::Retune);
    }
    if name == b"sessions".as_slice() {
        return Some(Verb::Sessions);
    }
    if name == b"drop".as_slice() {
        return Some(Verb::Drop);
    }
    if name == b"stop".as_slice() {
        return Some(Verb::Stop);
    }
    None
}
