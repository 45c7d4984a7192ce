ghost use Rattle.hybrid_table.specs.Hybrid.{HybridReadsBack};

/// Each image that has the bytes of a hybrid's master boot record reads as the signature, the
/// protective entry and the entries that they were made of. It does nothing when it runs.
pub fn hybrid_reads_back()
    ensures { HybridReadsBack }
{}
