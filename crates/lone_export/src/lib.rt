//! One export alone: what its steps are, what they answer, and what they leave.
#![tactic(auto)]

mod laws;
mod lone;
mod refusal;
mod row;
mod step;
mod step_answers;

pub use laws::{limit_tags_unrolled, steps_to_come};
pub use lone::Lone;
pub use refusal::{
    Admission, ArriveRefusal, Arrived, AttachRefusal, NotArrived, NotAttached, RetuneRefusal,
};
pub use step::{Step, StepAnswer};
