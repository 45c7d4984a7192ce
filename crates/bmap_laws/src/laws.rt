ghost use Rattle.bmap_laws.specs.Laws.{WrittenTextsAreDocuments, WrittenTextsSayTheirMap};

/// The text that is written for a map is a document of that map, and says no other. It does nothing when it runs.
pub fn written_maps_are_read()
    ensures documents { WrittenTextsAreDocuments }
    ensures said { WrittenTextsSayTheirMap }
{}
