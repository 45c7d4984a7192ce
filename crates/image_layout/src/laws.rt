ghost use Rattle.image_layout.specs.ReadsBack.{LayoutReadsBack};

/// Each image that has the bytes of a layout's tables reads back as the layout has them: the four
/// slots, the chain from the slot of the extended partition, and both headers with all 128 entries
/// (UEFI 2.10, section 5.3). It does nothing when it runs.
pub fn layout_reads_back()
    ensures { LayoutReadsBack }
{}
