ghost use Rattle.std.specs.Prelude.{◌≡◌, find};
ghost use Rattle.job_words.specs.Verbs.{name_of, verb_named};

/// A command, as the first word names it.
#[derive(Clone, Copy, Debug, PartialEq, Eq)]
pub(crate) enum Verb {
    Build,
    Map,
    Copy,
    Resume,
    Forget,
    Verify,
    List,
    Demo,
    Gang,
    GangResume,
    Cut,
    Expand,
    Nand,
}

static VERBS: [Verb; 13] = [
    Verb::Build,
    Verb::Map,
    Verb::Copy,
    Verb::Resume,
    Verb::Forget,
    Verb::Verify,
    Verb::List,
    Verb::Demo,
    Verb::Gang,
    Verb::GangResume,
    Verb::Cut,
    Verb::Expand,
    Verb::Nand,
];

impl Verb {
    /// The command of this name.
    pub(crate) fn named(word: &str) -> Option<Verb>
        ensures { result ≡ verb_named word.now }
    {
        VERBS.iter().copied().find(|verb| verb.name() == word)
    }

    fn name(self) -> &'static str
        ensures { result.now ≡ name_of self }
    {
        match self {
            Verb::Build => "build",
            Verb::Map => "map",
            Verb::Copy => "copy",
            Verb::Resume => "resume",
            Verb::Forget => "forget",
            Verb::Verify => "verify",
            Verb::List => "list",
            Verb::Demo => "demo",
            Verb::Gang => "gang",
            Verb::GangResume => "gang-resume",
            Verb::Cut => "cut",
            Verb::Expand => "expand",
            Verb::Nand => "nand",
        }
    }
}
