//! What the words of `specs/` promise: each law is a function without a body, and its contract is the law.
ghost use Rattle.std.specs.Prelude.{◌≡◌, ◌<◌, ◌^◌, ℤ, ◌+ℤ◌, unsigned_abs, Option, Some, List, ◌++◌};
ghost use Rattle.nbd_base.specs.Least.{least, the_sooner};
ghost use Rattle.nbd_base.specs.Range.{InRange};

/// The least of two lists one behind the other is the sooner of the least of each, and of equal ones that of the first.
pub fn least_of_two<B>()
    ensures lists { (xs ys : List (Option (ℤ × B)))
        → least (xs ++ ys) ≡ the_sooner (least xs) (least ys) }
    ensures ties { (key : ℤ) (x y : B)
        → the_sooner (Some (key, x)) (Some (key, y)) ≡ Some (key, x) }
{}

/// The sum of two numbers in range fits 128 bits.
pub fn sums_fit()
    ensures { (a b : ℤ) → InRange a → InRange b → unsigned_abs (a +ℤ b) < 2 ^ 127 }
{}
