//! What a WRITE carries and a READ answers: bytes in one piece or in pages, which requests, replies and images hold together. What an
//! image doesn't need any more is handed out as a `Swept`.
//!
//! Offsets and counts are in bytes.
#![tactic(auto)]

mod growing;
mod page;
mod payload;
mod pieces;
mod spares;
mod swept;

pub use growing::Growing;
pub use page::{PAGE, Page};
pub use payload::Payload;
pub use pieces::Pieces;
pub use spares::Spares;
pub use swept::{ChunkPages, Swept};
