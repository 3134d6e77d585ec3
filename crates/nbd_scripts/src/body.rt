//! The body of a script.

ghost use Rattle.std.specs.Prelude.{ℕ, ◌+◌, ◌<◌, ◌^◌, length};

/// The part of a script behind its head.
#[derive(Clone, Copy)]
pub struct Body<'a> {
    pub text: &'a [u8],
    /// How many lines of the script are above it.
    pub above: usize,
    ghost counted: { above + length text.now < 2 ^ 64 },
}
