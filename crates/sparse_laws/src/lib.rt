//! Laws of sparse files that are written and read: what the reader finds in the sparse file of an
//! image is exactly its chunks, and they expand to the image.
#![tactic(auto)]

mod laws;

pub use laws::sparse_text_is_read;
