//! What the words of `specs/` promise: each law is a function without a body, and its contract is the law.

ghost use Rattle.std.specs.Prelude.{◌≡◌, ℕ, List};
ghost use Rattle.nbd_measures.specs.Holds.{count_of, longest_at, longest_before, second_of, AreInOrder};

/// What is read of the last whole second is the longest of all holds that ended in it, however they were noted.
pub fn last_second()
    ensures { (holds : List (ℕ × ℕ)) (now : ℕ) → AreInOrder (second_of now) holds
        → longest_at (count_of holds) now ≡ longest_before (second_of now) holds }
{}
