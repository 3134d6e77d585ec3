//! All exports of a server in one table, and its steps: the definitions that the server and its laws speak of.
//!
//! There is no code of the server here. `specs/` has the table and its steps, worded over the table alone, and
//! `proofs/` what they mean for a table that is kept export by export.
#![tactic(auto)]

mod event;
mod laws;

pub use event::{Answer, Event};
pub use laws::{choice_of_first_requests, steps_of_rates, steps_of_sessions};

#[cfg(test)]
mod tests {
    use super::*;
    use std::alloc::Global;
    use std::test::Fail;

    // The laws hold of payloads in the usual allocator.
    #[test]
    fn laws_of_the_global_allocator(_rt: HostRuntime) -> Result<(), Fail> {
        steps_of_sessions::<Global>();
        steps_of_rates::<Global>();
        choice_of_first_requests();
        Ok(())
    }
}
