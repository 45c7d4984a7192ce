use bench::Dev;
use copier::CopyFault;
use map_source::SourceFault;

/// Why nothing is copied, or why a copy isn't done.
#[derive(Clone, Copy, Debug, PartialEq, Eq)]
pub enum CopyJobFault {
    /// The source's name says that it is compressed.
    Compressed,
    /// There is no file of the source's name.
    Missing,
    /// A call on the files failed, about the source's length.
    FileFault,
    /// The map isn't read.
    Map(SourceFault),
    /// The map has `count` units, more than `limit`.
    TooManyUnits { count: u64, limit: u64 },
    /// The device isn't attached.
    DeviceFault { dev: Dev },
    /// The copy isn't opened, or not done.
    Copy(CopyFault),
    /// Memory was refused before the copy was opened.
    NoMemory,
}
