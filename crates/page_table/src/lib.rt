//! Pages by their numbers: what an image in pages is made of, beside the numbers of those that are held zeros (number_sets).
//!
//! A page has 4,096 bytes. What isn't needed any more is handed out (`payload::Swept`), and let go by whoever asks for it.
#![tactic(auto)]

mod chunk;
mod chunks;
mod holes;
mod places;
mod regions;
mod table;

pub use chunks::CHUNK;
pub use table::Table;
