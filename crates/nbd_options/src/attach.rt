ghost use Rattle.std.specs.Prelude.{◌≡◌, ℕ, List, [], ◌∷◌, Option, None};
ghost use Rattle.nbd_base.specs.Logs.{Notes};
ghost use Rattle.nbd_options.specs.Asking.{one_asking, Asking};
ghost use Rattle.nbd_options.specs.declared.attach.Attached.{Attached};
ghost use Rattle.nbd_options.specs.declared.attach.Attached.TheVariants.{Given};

/// Whether a session of an export was given.
#[derive(Clone, Copy, Debug, PartialEq, Eq)]
pub enum Attached {
    Given,
    /// All sessions of the export are taken.
    Full,
    /// There was no memory, or the export has counted all the steps that it may.
    Other,
}

/// Gives sessions of exports.
pub trait Attach {
    /// The answers that may be given for an export.
    ghost may: { ℕ → Attached → Type 0 };

    // What was asked for so far, and the answers, where these are known.
    ghost askings: { Self → Option (List Asking) } = { λ _. None };

    /// Asks for a session of an export, which is named by its place in the table.
    fn attach(&mut self, export: u32) -> Attached
        ensures answer { may export result }
        ensures noted { Notes (askings self.old) (askings self.new)
            (one_asking export result ∷ []) };
}

/// Always gives a session.
#[derive(Clone, Copy, Debug)]
pub struct Always;

impl Attach for Always {
    ghost may = { λ _ answer. answer ≡ Given };

    fn attach(&mut self, _: u32) -> Attached {
        Attached::Given
    }
}
