//! The verbs of a replay: what the first field of a line asks for.

ghost use Rattle.std.specs.Prelude.{◌≡◌};
ghost use Rattle.nbd_scripts.specs.Verbs.{verb_of};

/// What the first field of a line asks for.
#[derive(Clone, Copy, Debug, PartialEq, Eq)]
pub enum Verb {
    Attach,
    Arrive,
    Dispatch,
    Perform,
    Take,
    Leave,
    Gone,
    Retune,
    Tags,
}

/// The verb of this name.
pub fn verb_of(name: &[u8]) -> Option<Verb>
    ensures { result ≡ verb_of name.now }
{
    if name == b"attach".as_slice() {
        return Some(Verb::Attach);
    }
    if name == b"arrive".as_slice() {
        return Some(Verb::Arrive);
    }
    if name == b"dispatch".as_slice() {
        return Some(Verb::Dispatch);
    }
    if name == b"perform".as_slice() {
        return Some(Verb::Perform);
    }
    if name == b"take".as_slice() {
        return Some(Verb::Take);
    }
    if name == b"leave".as_slice() {
        return Some(Verb::Leave);
    }
    if name == b"gone".as_slice() {
        return Some(Verb::Gone);
    }
    if name == b"retune".as_slice() {
        return Some(Verb::Retune);
    }
    if name == b"tags".as_slice() {
        return Some(Verb::Tags);
    }
    None
}
