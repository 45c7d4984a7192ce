ghost use Rattle.image_names.specs.Laws.{ImagesExactly, TwiceExactly};

/// Nothing is done: the contract is the law of two sections with one name.
///
/// A list of names is refused exactly where two of them are the same, and then for the first that
/// is the same as one in front of it. Images are refused exactly where two have one name, or two
/// that are built have one full name, and then for the first that has one with one in front of it:
/// by its name where that is it, else by its full name.
pub fn clashes_are_first()
    ensures names { TwiceExactly }
    ensures images { ImagesExactly }
{}
