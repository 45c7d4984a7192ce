use base_fields::Name;
use block_map::{BlockMap, Units};
use copy_opening::Mode;
use journal_format::JobId;

/// A copy: the file that is copied, the map of its image with its units, the journal's id, how the journal is opened,
/// and the window of a journal that is opened anew.
#[derive(Debug, Drop)]
pub struct CopyJob {
    pub source: Name,
    pub map: BlockMap,
    pub units: Units,
    pub id: JobId,
    pub mode: Mode,
    /// How many units may be written before their marks are, 1 to 16. It is used in the mode `Fresh` alone: else the
    /// journal's window is.
    pub window: u32,
}

/// What a copier is to do next.
#[derive(Clone, Copy, Debug, PartialEq, Eq)]
pub enum Need {
    /// To write unit `k`.
    Unit { k: u64 },
    /// To pass unit `k`, which is recorded.
    Kept { k: u64 },
    /// To compare range `r`, each unit of which is passed, and to record it.
    Range { r: u64 },
    /// Nothing: each range is checked.
    Done,
    /// Nothing: it has refused.
    Failed,
}
