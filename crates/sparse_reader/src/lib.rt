//! Reads Android sparse images: the header of a file, and its chunks one after another. It takes no
//! memory and leaves every file as it is.
#![tactic(auto)]

mod chunk;
mod fault;
mod header;
mod laws;
mod next;
mod parts;
mod tally;
mod view;

pub use chunk::{Chunk, ChunkKind, Cursor};
pub use fault::SparseFault;
pub use laws::{chunks_are_found, chunks_come_in_order, one_list_of_chunks, views_are_of_chunks};
pub use next::next_chunk;
pub use view::{SparseView, read_sparse};
