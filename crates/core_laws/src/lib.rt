//! The laws of a server's runs, over the definitions alone.
//!
//! Each law is a function without a body, and its contract is the law. `specs/Statements.antt` has the statements.
#![tactic(auto)]

mod laws;
mod worked;

pub use laws::{
    choice_count, heads_suffice, left_out, limit_tags_unrolled, locality, projection,
    queue_refusal, reservations_first, shares, two_worlds, weight_waits_for_its_limit,
};
pub use worked::{worked_runs, worked_shares};

#[cfg(test)]
mod tests {
    use super::*;
    use std::alloc::Global;
    use std::test::Fail;

    // The laws hold of payloads in the usual allocator.
    #[test]
    fn laws_of_the_global_allocator(_rt: HostRuntime) -> Result<(), Fail> {
        projection::<Global>();
        two_worlds::<Global>();
        locality::<Global>();
        queue_refusal::<Global>();
        weight_waits_for_its_limit::<Global>();
        reservations_first::<Global>();
        limit_tags_unrolled::<Global>();
        heads_suffice::<Global>();
        choice_count::<Global>();
        shares::<Global>();
        left_out::<Global>();
        worked_runs::<Global>();
        worked_shares::<Global>();
        Ok(())
    }
}
