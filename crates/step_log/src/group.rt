//! A step, and those that follow it directly.
use crate::rest::Rest;
use lone_export::Step;
use std::alloc::Allocator;

/// A step of a log, and those that follow it directly as far as they are kept with it.
#[derive(Drop)]
pub struct Group<A: Allocator> {
    /// The first of them.
    pub step: Step<A>,
    /// What follows it.
    pub rest: Rest,
}
