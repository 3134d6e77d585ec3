//! Images: the bytes that an export serves.
//!
//! `Image` says what an image does, whatever keeps its bytes; `Flat` keeps them in one piece, and `Paged` in pages that are
//! held from the first write on. Offsets, counts and sizes are in bytes.
#![tactic(auto)]

mod comparing;
mod flat;
mod image;
mod offers;
mod paged;
mod zeroing;

pub use flat::Flat;
pub use image::Image;
pub use paged::Paged;
pub use payload::Swept;
