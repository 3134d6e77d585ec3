//! Texts of lines, as scripts and the control socket have them: the fields of a line, numbers in decimal digits, and want of
//! memory where a text is written.
#![tactic(auto)]

mod fields;
mod numbers;
mod writing;

pub use fields::fields_of;
pub use numbers::number;
pub use writing::or_no_memory;
