ghost use Rattle.mbr_table.specs.Reading.{MbrReadsBack};

/// Each image that has the bytes of a master boot record reads as the signature and the entries
/// that they were made of. It does nothing when it runs.
pub fn mbr_reads_back()
    ensures { MbrReadsBack }
{}
