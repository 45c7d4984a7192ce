use base_fields::{List, Name};

/// A place in the texts of a configuration.
#[derive(Clone, Copy, Debug, PartialEq, Eq)]
pub struct Place {
    /// The number of the text in the order of reading, from 0.
    pub text: usize,
    /// How many of its bytes stand in front.
    pub at: u64,
}

/// A word or a quoted text, with its variables replaced.
#[derive(Debug, Drop)]
pub struct Word {
    pub text: Name,
    pub place: Place,
}

/// What stands behind the mark of a setting.
#[derive(Debug, Drop)]
pub enum Value {
    One(Word),
    /// A list, with the place of its opening brace.
    Many(Place, List<Word>),
}

/// What a key is given.
#[derive(Debug, Drop)]
pub enum Given {
    /// A value behind `=`.
    Set(Value),
    /// A value behind `+=`.
    Added(Value),
}

/// A key and what it is given.
#[derive(Debug, Drop)]
pub struct Setting {
    pub key: Word,
    pub given: Given,
}

/// The word of a section and its name, where it has one.
#[derive(Debug, Drop)]
pub struct Head {
    pub word: Word,
    pub name: Option<Word>,
}
