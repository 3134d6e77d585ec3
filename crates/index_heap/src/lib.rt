//! A heap over the ids below a fixed number: a key for each that has one, the least of the keys at hand, and a shift of
//! all of them at once.
//!
//! After `new` nothing takes memory.
#![tactic(auto)]

mod fold;
mod indexed;
mod sift;

pub use indexed::IndexHeap;
