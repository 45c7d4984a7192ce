use base_fields::Name;
use copier::Mode;

/// A copy that is asked for: of the file `source` by the map of the file `map`, in units of `unit` bytes, to the device
/// `target` beside the device `journal`.
#[derive(Debug, Drop)]
pub struct CopyRequest {
    pub source: Name,
    pub map: Name,
    pub target: Name,
    pub journal: Name,
    /// The bytes of a unit, a power of two from 65,536 to 4,194,304.
    pub unit: u32,
    /// Whether it is begun, or gone on with.
    pub mode: Mode,
    /// How many units are written before their marks are, 1 to 16. It is used where the copy is begun: else the journal's
    /// is.
    pub window: u32,
}
