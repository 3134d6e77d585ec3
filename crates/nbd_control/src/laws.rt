//! What the words of `specs/` promise: each law is a function without a body, and its contract is the law.

ghost use Rattle.std.specs.Prelude.{◌≡◌, ℕ, List, ◌++◌, ◌∷◌};
ghost use Rattle.nbd_control.specs.Quoting.{basic_text};
ghost use Rattle.nbd_control.specs.Commands.{front_name};

/// A name that an answer tells is read back as that name, where a command has it with a space behind.
pub fn told_names()
    ensures { (name rest : List ℕ)
        → front_name (basic_text name ++ 32 ∷ rest) ≡ Ok (name, 32 ∷ rest) }
{}
