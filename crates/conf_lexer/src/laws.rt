ghost use Rattle.conf_lexer.specs.Joined.{ClosesJoined, HasNone, HasTokens, IsInPieces, Joins};
ghost use Rattle.conf_lexer.specs.Names.{PlainName, QuotedName};

/// Nothing is done: the contract is the law of two texts that are put together.
///
/// Where the first one has tokens and ends in a piece that what follows can't lengthen (anything but a bare word and a comment to the
/// end of the line), the tokens of both together are its tokens, and then those of the second one behind it.
#[tactic(auto, using(crate::proofs::Joined::joins, crate::proofs::Joined::closes_joined))]
pub fn joined_texts()
    ensures tokens { Joins }
    ensures end { ClosesJoined }
{}

/// Nothing is done: the contract is the law of the pieces of a text.
///
/// A text that is pieces alone has their tokens, one that is pieces and then a rest whose start is no piece has none, and each text is
/// one or the other.
#[tactic(auto, using(crate::proofs::Joined::has_tokens, crate::proofs::Joined::has_none, crate::proofs::Joined::in_pieces))]
pub fn texts_in_pieces()
    ensures tokens { HasTokens }
    ensures none { HasNone }
    ensures always { IsInPieces }
{}

/// Nothing is done: the contract is the law of the names in a text that is made.
///
/// A plain name before white space is one bare word, and a text between single quotes is one token; both close.
pub fn names_in_texts()
    ensures plain { PlainName }
    ensures quoted { QuotedName }
{}
