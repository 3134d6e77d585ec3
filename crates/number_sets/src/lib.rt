//! Sets of numbers: as bits of words, and which pages are held zeros, in bitmaps of which only those that have a member are there.
#![tactic(auto)]

mod bitmap;
pub mod bits;
mod held_zeros;
mod least;

pub use bitmap::BITMAP;
pub use held_zeros::HeldZeros;
