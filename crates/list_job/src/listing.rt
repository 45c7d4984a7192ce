use sparse_reader::SparseView;
use table_reader::Tables;

/// What an image is listed by.
#[derive(Debug, Drop)]
pub enum Listing {
    /// The header and the chunks of an Android sparse image.
    Sparse(SparseView),
    /// The partition tables of any other.
    Tables(Tables),
}
