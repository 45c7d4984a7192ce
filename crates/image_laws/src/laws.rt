ghost use Rattle.image_laws.specs.Laws.{BuiltImagesAreOnTarget, CopiesHaveTheImage, DoneChainsPutImages};
ghost use Rattle.image_laws.specs.Laws.{MappedTextsAreRead, MappedTextsAreTheMap};

use bench::Bench;

/// Nothing is done: the contract is the law of the text that is written for an image's map.
///
/// What is read of it is that map, and where it isn't too long it is read.
pub fn mapped_texts_are_the_map()
    ensures same { MappedTextsAreTheMap }
    ensures read { MappedTextsAreRead }
{}

/// Nothing is done: the contract is the law of an image and its map.
///
/// Where an image was built, and mapped from the same inputs, and a chain of copies of it by that map is done, the target
/// has at each offset that the layout covers the layout's byte. Of a sparse image it has every byte of the file.
pub fn images_are_on_the_target<B: Bench>()
    ensures copy { CopiesHaveTheImage }
    ensures built { BuiltImagesAreOnTarget }
    ensures chain { B.told → DoneChainsPutImages B.disk }
{}
