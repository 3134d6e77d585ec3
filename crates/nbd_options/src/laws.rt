//! What is said to options one after another.
ghost use Rattle.std.specs.Prelude.{◌≡◌, ◌+◌, ◌++◌, ℕ, Bool, List, Option, None, length};
ghost use Rattle.std.specs.List.{AllByRecursion};
ghost use Rattle.nbd_options.specs.Exports.{ExportFacts};
ghost use Rattle.nbd_options.specs.Haggled.{Asked, LeavesOpen, texts_to, and_then, said_from};

/// Where options leave haggling open, each is answered by itself, and then haggling goes on as if they had only been
/// counted.
pub fn options_in_turn()
    ensures { (table : List ExportFacts) (no_zeroes : Bool) (seen : ℕ) (asked later : List Asked)
        (head : Option (List ℕ))
        → AllByRecursion (LeavesOpen table no_zeroes) asked
        → said_from table no_zeroes seen (asked ++ later) head
        ≡ and_then (texts_to table no_zeroes asked) None
        (said_from table no_zeroes (seen + length asked) later head) }
{}
