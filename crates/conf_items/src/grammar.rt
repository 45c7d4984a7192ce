//! Which token may stand where in one text:
//!
//! ```text
//! text    = { item }
//! item    = include | option | section
//! include = "include" "(" value ")"
//! option  = word ( "=" | "+=" ) ( value | list )
//! section = word [ value ] "{" { item } "}"
//! list    = "{" [ value { "," value } [ "," ] ] "}"
//! value   = word | double | single
//! ```
ghost use Rattle.std.specs.Prelude.{◌≡◌, ◌+◌, ◌-◌, ◌<◌, ◌≤◌, ◌^◌, IfOk, IfSome};
ghost use Rattle.conf_items.specs.Grammar.{allowed, may_end, element_moved, given_of, goes, include_close_moved, include_name_moved, include_open_moved, item_moved, key_moved, moved, name_moved, separator_moved, value_moved};

use crate::{Given, Head, Place, Setting, Value, Word};
use base_fields::{List, NoMemory};
use conf_lexer::TokenKind;
use std::alloc::Global;

/// The mark between a key and its value.
#[derive(Clone, Copy, Debug, PartialEq, Eq)]
pub enum Mark {
    /// `=`
    Equals,
    /// `+=`
    PlusEquals,
}

/// A list whose brace is still open.
#[derive(Debug, Drop)]
pub struct OpenList {
    pub key: Word,
    pub mark: Mark,
    /// Where its brace stands.
    pub place: Place,
    pub words: List<Word>,
}

/// What may stand next in a text.
#[derive(Debug, Drop)]
pub enum Next {
    /// An item, or the end of the section or of the text.
    Item,
    /// Behind a word: a mark, a name or `{`.
    BehindKey(Word),
    /// Behind the name of a section: `{`.
    BehindName(Head),
    /// Behind the mark of a key: a value or `{`.
    Value(Word, Mark),
    /// In a list: a value or `}`.
    Element(OpenList),
    /// Behind a value of a list: `,` or `}`.
    Separator(OpenList),
    /// Behind `include`: `(`.
    IncludeOpen,
    /// Behind that: a value.
    IncludeName,
    /// Behind that: `)`.
    IncludeClose(Word),
}

/// A token with its value.
#[derive(Debug, Drop)]
pub enum Lexeme {
    /// A bare word, and whether it is spelled `include`.
    Bare(Word, bool),
    /// A quoted text.
    Quoted(Word),
    /// `{`, with its place.
    OpenBrace(Place),
    /// `}`
    CloseBrace,
    /// `(`
    OpenParen,
    /// `)`
    CloseParen,
    /// `=` or `+=`
    Assign(Mark),
    /// `,`
    Comma,
}

/// What the tokens of a text up to here say of those to come.
#[derive(Debug, Drop)]
pub struct Parser {
    /// How many sections of this text are open.
    pub depth: usize,
    pub next: Next,
}

/// What a token makes whole.
#[derive(Debug, Drop)]
pub enum Output {
    Nothing,
    /// A key with its value or list.
    Setting(Setting),
    /// A section begins.
    Open(Head),
    /// The innermost section ends.
    Close,
    /// The items of the text of that name stand here.
    Include(Word),
}

/// Where a token leads, and what it makes whole.
#[derive(Debug, Drop)]
pub struct Move {
    pub parser: Parser,
    pub output: Output,
}

fn goes(depth: usize, next: Next, output: Output) -> Option<Move>
    ensures { result ≡ goes depth next output }
{
    Some(Move {
        parser: Parser { depth, next },
        output,
    })
}

impl Mark {
    // What a key is given behind this mark.
    fn given(self, value: Value) -> Given
        ensures { result ≡ given_of self value }
    {
        match self {
            Mark::Equals => Given::Set(value),
            Mark::PlusEquals => Given::Added(value),
        }
    }
}

impl OpenList {
    // The setting that ends with this list.
    fn setting(self) -> Setting
        ensures { result ≡ record { key = self.key; given = given_of self.mark (Value.Many self.place self.words) } }
    {
        Setting {
            key: self.key,
            given: self.mark.given(Value::Many(self.place, self.words)),
        }
    }
}

impl Parser {
    /// The start of a text: an item may stand there.
    pub fn start() -> Parser
        ensures { result ≡ record { depth = 0; next = Next.Item } }
    {
        Parser {
            depth: 0,
            next: Next::Item,
        }
    }

    /// Whether the text may end here.
    pub fn may_end(&self) -> bool
        ensures { result ≡ may_end self.now }
    {
        self.depth == 0 && matches!(self.next, Next::Item)
    }

    /// Whether a token of this kind may stand here.
    pub fn allows(&self, kind: TokenKind) -> bool
        ensures { result ≡ allowed self.now kind }
    {
        let is_value = matches!(
            kind,
            TokenKind::Word | TokenKind::Double | TokenKind::Single
        );
        match (&self.next, kind) {
            (Next::Item, TokenKind::Word) => true,
            (Next::Item, TokenKind::CloseBrace) => self.depth > 0,
            (Next::BehindKey(_), TokenKind::Equals | TokenKind::PlusEquals) => true,
            (Next::BehindKey(_) | Next::Value(..) | Next::BehindName(_), TokenKind::OpenBrace) => {
                true
            }
            (Next::Element(_) | Next::Separator(_), TokenKind::CloseBrace) => true,
            (Next::Separator(_), TokenKind::Comma) => true,
            (Next::IncludeOpen, TokenKind::OpenParen) => true,
            (Next::IncludeClose(_), TokenKind::CloseParen) => true,
            (Next::BehindKey(_) | Next::Value(..), _) => is_value,
            (Next::Element(_) | Next::IncludeName, _) => is_value,
            _ => false,
        }
    }

    /// Where the token leads; None where it can't stand here. Takes memory where it stands in a list.
    pub fn advance(self, alloc: Global, lexeme: Lexeme) -> Result<Option<Move>, NoMemory>
        requires { self.depth < 2 ^ 64 - 1 }
        ensures made { IfOk result (λ made. made ≡ moved self lexeme) }
        ensures depth { IfOk result (λ made. IfSome made (λ m. m.parser.depth ≤ self.depth + 1)) }
    {
        let depth = self.depth;
        match self.next {
            Next::Item => Ok(behind_item(depth, lexeme)),
            Next::BehindKey(key) => Ok(behind_key(depth, key, lexeme)),
            Next::BehindName(head) => Ok(behind_name(depth, head, lexeme)),
            Next::Value(key, mark) => Ok(behind_mark(alloc, depth, key, mark, lexeme)),
            Next::Element(list) => in_list(depth, list, lexeme),
            Next::Separator(list) => Ok(behind_element(depth, list, lexeme)),
            Next::IncludeOpen => Ok(behind_include(depth, lexeme)),
            Next::IncludeName => Ok(behind_paren(depth, lexeme)),
            Next::IncludeClose(name) => Ok(behind_included(depth, name, lexeme)),
        }
    }
}

fn behind_item(depth: usize, lexeme: Lexeme) -> Option<Move>
    ensures made { result ≡ item_moved depth lexeme }
    ensures depth { IfSome result (λ m. m.parser.depth ≤ depth + 1) }
{
    match lexeme {
        Lexeme::Bare(_, true) => goes(depth, Next::IncludeOpen, Output::Nothing),
        Lexeme::Bare(word, false) => goes(depth, Next::BehindKey(word), Output::Nothing),
        Lexeme::CloseBrace if depth > 0 => goes(depth - 1, Next::Item, Output::Close),
        _ => None,
    }
}

fn behind_key(depth: usize, key: Word, lexeme: Lexeme) -> Option<Move>
    requires { depth < 2 ^ 64 - 1 }
    ensures made { result ≡ key_moved depth key lexeme }
    ensures depth { IfSome result (λ m. m.parser.depth ≤ depth + 1) }
{
    match lexeme {
        Lexeme::Bare(name, _) | Lexeme::Quoted(name) => {
            let head = Head {
                word: key,
                name: Some(name),
            };
            goes(depth, Next::BehindName(head), Output::Nothing)
        }
        Lexeme::Assign(mark) => goes(depth, Next::Value(key, mark), Output::Nothing),
        Lexeme::OpenBrace(_) => {
            let head = Head {
                word: key,
                name: None,
            };
            goes(depth + 1, Next::Item, Output::Open(head))
        }
        _ => None,
    }
}

fn behind_name(depth: usize, head: Head, lexeme: Lexeme) -> Option<Move>
    requires { depth < 2 ^ 64 - 1 }
    ensures made { result ≡ name_moved depth head lexeme }
    ensures depth { IfSome result (λ m. m.parser.depth ≤ depth + 1) }
{
    match lexeme {
        Lexeme::OpenBrace(_) => goes(depth + 1, Next::Item, Output::Open(head)),
        _ => None,
    }
}

fn behind_mark(alloc: Global, depth: usize, key: Word, mark: Mark, lexeme: Lexeme) -> Option<Move>
    ensures made { result ≡ value_moved depth key mark lexeme }
    ensures depth { IfSome result (λ m. m.parser.depth ≤ depth + 1) }
{
    match lexeme {
        Lexeme::Bare(word, _) | Lexeme::Quoted(word) => {
            let given = mark.given(Value::One(word));
            goes(depth, Next::Item, Output::Setting(Setting { key, given }))
        }
        Lexeme::OpenBrace(place) => {
            let list = OpenList {
                key,
                mark,
                place,
                words: List::new(alloc),
            };
            goes(depth, Next::Element(list), Output::Nothing)
        }
        _ => None,
    }
}

// Where a value or the end of a list may stand.
fn in_list(depth: usize, mut list: OpenList, lexeme: Lexeme) -> Result<Option<Move>, NoMemory>
    ensures made { IfOk result (λ made. made ≡ element_moved depth list lexeme) }
    ensures depth { IfOk result (λ made. IfSome made (λ m. m.parser.depth ≤ depth + 1)) }
{
    match lexeme {
        Lexeme::Bare(word, _) | Lexeme::Quoted(word) => {
            list.words.push(word)?;
            Ok(goes(depth, Next::Separator(list), Output::Nothing))
        }
        Lexeme::CloseBrace => Ok(goes(depth, Next::Item, Output::Setting(list.setting()))),
        _ => Ok(None),
    }
}

fn behind_element(depth: usize, list: OpenList, lexeme: Lexeme) -> Option<Move>
    ensures made { result ≡ separator_moved depth list lexeme }
    ensures depth { IfSome result (λ m. m.parser.depth ≤ depth + 1) }
{
    match lexeme {
        Lexeme::Comma => goes(depth, Next::Element(list), Output::Nothing),
        Lexeme::CloseBrace => goes(depth, Next::Item, Output::Setting(list.setting())),
        _ => None,
    }
}

fn behind_include(depth: usize, lexeme: Lexeme) -> Option<Move>
    ensures made { result ≡ include_open_moved depth lexeme }
    ensures depth { IfSome result (λ m. m.parser.depth ≤ depth + 1) }
{
    match lexeme {
        Lexeme::OpenParen => goes(depth, Next::IncludeName, Output::Nothing),
        _ => None,
    }
}

fn behind_paren(depth: usize, lexeme: Lexeme) -> Option<Move>
    ensures made { result ≡ include_name_moved depth lexeme }
    ensures depth { IfSome result (λ m. m.parser.depth ≤ depth + 1) }
{
    match lexeme {
        Lexeme::Bare(name, _) | Lexeme::Quoted(name) => {
            goes(depth, Next::IncludeClose(name), Output::Nothing)
        }
        _ => None,
    }
}

fn behind_included(depth: usize, name: Word, lexeme: Lexeme) -> Option<Move>
    ensures made { result ≡ include_close_moved depth name lexeme }
    ensures depth { IfSome result (λ m. m.parser.depth ≤ depth + 1) }
{
    match lexeme {
        Lexeme::CloseParen => goes(depth, Next::Item, Output::Include(name)),
        _ => None,
    }
}
