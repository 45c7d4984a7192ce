ghost use Rattle.gpt_table.specs.GptParts.{GptHolds, GptLiesWithin};
ghost use Rattle.gpt_table.specs.Reading.{GptReadsBack};

/// Each image that has the bytes of a table, and is as long as its disk, reads as the headers and
/// the 128 slots that they were made of. It does nothing when it runs.
pub fn gpt_reads_back()
    ensures { GptReadsBack }
{}

/// Each image that has the byte of a table at each offset where the table has one, its parts
/// being apart, has the bytes of its headers and entries. It does nothing when it runs.
pub fn gpt_holds()
    ensures { GptHolds }
{}

/// Each part of a table lies within the sectors of its disk, where these have room for what
/// stands in front. It does nothing when it runs.
pub fn gpt_lies_within()
    ensures { GptLiesWithin }
{}
