use base_fields::Span;

/// What a token is.
#[derive(Clone, Copy, Debug, PartialEq, Eq)]
pub enum TokenKind {
    /// A bare word.
    Word,
    /// A double-quoted text.
    Double,
    /// A single-quoted text.
    Single,
    /// `{`
    OpenBrace,
    /// `}`
    CloseBrace,
    /// `(`
    OpenParen,
    /// `)`
    CloseParen,
    /// `=`
    Equals,
    /// `+=`
    PlusEquals,
    /// `,`
    Comma,
}

/// A token of a text.
#[derive(Clone, Copy, Debug, PartialEq, Eq)]
pub struct Token {
    pub kind: TokenKind,
    /// Its bytes in the text, those of a quoted text with the quotes.
    pub span: Span,
}

/// Why a text was not turned into tokens.
#[derive(Clone, Copy, Debug, PartialEq, Eq)]
pub enum LexFault {
    /// The text has no tokens: here starts the first piece, in bytes from the text's start, that is neither white space, a comment nor a token.
    BadText { place: u64 },
    /// Memory was refused.
    NoMemory,
}
