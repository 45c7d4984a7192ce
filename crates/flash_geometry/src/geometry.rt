/// The erase blocks of a flash device.
#[derive(Clone, Copy, Debug, PartialEq, Eq)]
pub struct Geometry {
    /// The bytes of an erase block.
    pub pebsize: u64,
    /// How many erase blocks there are.
    pub numpebs: u64,
}
