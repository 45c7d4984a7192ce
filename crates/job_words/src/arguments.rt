//! The arguments of each command: its places in their order, its options and its flags.
ghost use Rattle.std.specs.Prelude.{◌≡◌, IfOk, false, map};
ghost use Rattle.clap.specs.Walk.{rule_of};
ghost use Rattle.job_words.specs.Arguments.{rule_of_argument};
ghost use Rattle.job_words.specs.Jobs.{arguments_of};

use crate::given::Arguments;
use crate::verbs::Verb;
use Argument::{Flag, Place, Repeated, Valued};
use clap::{Arg, ArgAction};
use std::alloc::{AllocError, Global};

/// An argument of a command, by its name.
#[derive(Clone, Copy, Debug, PartialEq, Eq)]
pub(crate) enum Argument {
    /// A place, which has to be there.
    Place(&'static str),
    /// The last place, which has one value or more.
    Repeated(&'static str),
    /// An option with a value, `--NAME VALUE`.
    Valued(&'static str),
    /// A flag, `--NAME`.
    Flag(&'static str),
}

static BUILD: [Argument; 3] = [Place("CONF"), Valued("inputpath"), Valued("outputpath")];

static MAP: [Argument; 6] = [
    Place("CONF"),
    Place("IMAGE"),
    Place("OUT"),
    Valued("block"),
    Valued("inputpath"),
    Valued("outputpath"),
];

static COPY: [Argument; 7] = [
    Place("SOURCE"),
    Place("MAP"),
    Place("TARGET"),
    Place("JOURNAL"),
    Valued("unit"),
    Valued("window"),
    Flag("sparse"),
];

static RESUME: [Argument; 6] = [
    Place("SOURCE"),
    Place("MAP"),
    Place("TARGET"),
    Place("JOURNAL"),
    Valued("unit"),
    Flag("sparse"),
];

static FORGET: [Argument; 1] = [Place("JOURNAL")];

static VERIFY: [Argument; 2] = [Place("MAP"), Place("TARGET")];

static LIST: [Argument; 1] = [Place("IMAGE")];

static DEMO: [Argument; 1] = [Place("SEED")];

static GANG: [Argument; 4] = [
    Place("SOURCE"),
    Place("MAP"),
    Repeated("TARGETS"),
    Valued("unit"),
];

static CUT: [Argument; 3] = [Place("IMAGE"), Place("PREFIX"), Place("SIZE")];

static EXPAND: [Argument; 2] = [Place("OUT"), Repeated("PIECES")];

static NAND: [Argument; 5] = [
    Place("IMAGE"),
    Place("DEVICE"),
    Place("BADLIST"),
    Valued("block"),
    Valued("page"),
];

fn table(verb: Verb) -> &'static [Argument]
    ensures { map rule_of_argument result.now ≡ arguments_of verb }
{
    match verb {
        Verb::Build => &BUILD,
        Verb::Map => &MAP,
        Verb::Copy => &COPY,
        Verb::Resume => &RESUME,
        Verb::Forget => &FORGET,
        Verb::Verify => &VERIFY,
        Verb::List => &LIST,
        Verb::Demo => &DEMO,
        Verb::Gang | Verb::GangResume => &GANG,
        Verb::Cut => &CUT,
        Verb::Expand => &EXPAND,
        Verb::Nand => &NAND,
    }
}

// The argument as `clap` has it.
#[tactic(auto, unfolding(crate::specs::Arguments::place_rule, crate::specs::Arguments::repeated_rule, crate::specs::Arguments::option_rule, crate::specs::Arguments::flag_rule))]
fn arg_of<'a>(alloc: Global, argument: Argument) -> Arg<'a>
    ensures rule { rule_of result ≡ rule_of_argument argument }
    ensures own { result.global ≡ false }
{
    match argument {
        Place(id) => Arg::new(alloc, id).action(ArgAction::Set).required(true),
        Repeated(id) => Arg::new(alloc, id).action(ArgAction::Append).required(true),
        Valued(id) => Arg::new(alloc, id).long(id).action(ArgAction::Set),
        Flag(id) => Arg::new(alloc, id).long(id).action(ArgAction::SetTrue),
    }
}

/// The arguments of a command.
pub(crate) fn arguments<'a>(verb: Verb, alloc: Global) -> Result<Arguments<'a>, AllocError>
    ensures { IfOk result (λ r. r ≡ arguments_of verb) }
{
    let mut arguments = Arguments::new(alloc);
    for argument in table(verb) {
        arguments = arguments.with(arg_of(alloc, *argument))?;
    }
    Ok(arguments)
}
