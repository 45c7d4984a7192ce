ghost use Rattle.extended_chain.specs.ChainReading.{ChainReadsBack};
ghost use Rattle.extended_chain.specs.Extended.{ExtendedReadsBack};

/// Each image that has the boot records of up to 256 logical partitions, at least one, reads as
/// the list of these partitions. It does nothing when it runs.
pub fn chain_reads_back()
    ensures { ChainReadsBack }
{}

/// Each image that has the bytes of a master boot record, one of whose slots is the entry of the
/// extended partition, and the boot records of its logical partitions reads as that record and,
/// from the first sector of that slot, as the list of these partitions. It does nothing when it
/// runs.
pub fn extended_reads_back()
    ensures { ExtendedReadsBack }
{}
