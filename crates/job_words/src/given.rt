//! The arguments that words may have, and what a simple `clap` command finds of them.
ghost use Rattle.std.specs.Prelude.{◌≡◌, IfOk, List as list_of, map, option_map, string_bytes};
ghost use Rattle.std.specs.Prelude.{true, false, [], ◌∷◌, ◌++◌};
ghost use Rattle.clap.specs.Walk.{Row, Rule, all_of, first_of, rows_of, rule_of};
ghost use Rattle.clap.specs.Simple.{app_of};
ghost use Rattle.clap.specs.Matches.{found_of};
ghost use Rattle.clap.specs.Faults.{is_simple_and_free};
ghost use Rattle.job_words.specs.Arguments.{simple, taken, text_at, is_set, is_between};
ghost use Rattle.job_words.specs.Arguments.{is_power_between, number_or, numeral_of};
ghost use Rattle.job_words.specs.Jobs.{Reads};

use crate::WordFault;
use crate::numbers::{number, number_between, power_between};
use base_fields::{Name, NoMemory};
use clap::error::ErrorKind;
use clap::{Arg, ArgAction, ArgMatches, Command};
use std::alloc::{AllocError, Global};
use std::marker::Model;

/// The arguments of a command, in a simple `clap` command that has these and nothing else.
/// Contracts see the list of them.
#[derive(Drop)]
pub(crate) struct Arguments<'a> {
    alloc: Global,
    command: Command<'a>,
}

impl<'a> Model for Arguments<'a> {
    ghost Value = { list_of Rule };

    ghost view = { λ a. (app_of a.command).top.rules };

    ghost invariant = { λ a. app_of a.command ≡ simple (app_of a.command).top.rules };
}

impl<'a> Arguments<'a> {
    /// No argument yet.
    pub(crate) fn new(alloc: Global) -> Arguments<'a>
        ensures { result ≡ [] }
    {
        let command = Command::new(alloc, "genflash").disable_help_flag(true);
        Arguments { alloc, command }
    }

    /// One argument more.
    pub(crate) fn with(self, arg: Arg<'a>) -> Result<Arguments<'a>, AllocError>
        requires { arg.global ≡ false }
        ensures { IfOk result (λ r. r ≡ self.entry ++ rule_of arg.entry ∷ []) }
    {
        let command = self.command.arg(arg)?;
        Ok(Arguments {
            alloc: self.alloc,
            command,
        })
    }

    /// What the words give to the arguments. The first word stands as the program's name.
    pub(crate) fn read(self, words: &'a [String]) -> Result<Given<'a>, WordFault>
        requires { is_simple_and_free (simple self) ≡ true }
        ensures { Reads (taken (simple self.entry) (map string_bytes words.entry.now)) result }
    {
        match self.command.try_get_matches_from(words) {
            Ok(matches) => Ok(Given { matches }),
            Err(error) => match error.kind() {
                ErrorKind::OutOfMemory => Err(WordFault::NoMemory),
                _ => Err(WordFault::Usage),
            },
        }
    }
}

/// What the words give to the arguments of a simple command.
#[derive(Drop)]
pub(crate) struct Given<'a> {
    matches: ArgMatches<'a>,
}

impl<'a> Model for Given<'a> {
    ghost Value = { list_of Row };

    ghost view = { λ g. rows_of (found_of g.matches) };
}

impl<'a> Given<'a> {
    fn text(&self, id: &str) -> Option<&'a str>
        ensures { option_map (λ s. s.now) result ≡ first_of id.now self.now }
    {
        self.matches.get_str(id)
    }

    /// The text at a place.
    pub(crate) fn place(&self, id: &str) -> &'a str
        ensures { result.now ≡ text_at id.now self.now }
    {
        self.text(id).unwrap_or("")
    }

    /// The texts at the repeated place.
    pub(crate) fn places(&self, id: &str) -> Option<&[&'a str]>
        ensures { option_map (λ s. map (λ v. v.now) s.now) result ≡ all_of id.now self.now }
    {
        self.matches.get_strs(id)
    }

    /// Whether a flag was given.
    pub(crate) fn has(&self, id: &str) -> bool
        ensures { result ≡ is_set id.now self.now }
    {
        self.place(id) == "true"
    }

    /// A copy of the text at a place.
    pub(crate) fn name(&self, alloc: Global, id: &str) -> Result<Name, NoMemory>
        ensures { IfOk result (λ name. name ≡ text_at id.now self.now) }
    {
        Name::of(alloc, self.place(id))
    }

    /// A copy of the value of an option, where it was given.
    pub(crate) fn optional_name(&self, alloc: Global, id: &str) -> Result<Option<Name>, NoMemory>
        ensures { IfOk result (λ name. name ≡ first_of id.now self.now) }
    {
        match self.text(id) {
            Some(text) => Ok(Some(Name::of(alloc, text)?)),
            None => Ok(None),
        }
    }

    /// The number at a place.
    pub(crate) fn number(&self, id: &str) -> Result<u64, WordFault>
        ensures { Reads (numeral_of (text_at id.now self.now)) result }
    {
        number(self.place(id)).ok_or(WordFault::Usage)
    }

    /// The number of an option, which has to be a power of two from `least` to `most`, or else its default.
    pub(crate) fn power(
        &self,
        id: &str,
        default: u32,
        least: u32,
        most: u32,
    ) -> Result<u32, WordFault>
        ensures { Reads (number_or default (is_power_between least most) (first_of id.now self.now)) result }
    {
        match self.text(id) {
            Some(text) => power_between(text, least, most).ok_or(WordFault::Usage),
            None => Ok(default),
        }
    }

    /// The number of an option, which has to be from `least` to `most`, or else its default.
    pub(crate) fn count(
        &self,
        id: &str,
        default: u32,
        least: u32,
        most: u32,
    ) -> Result<u32, WordFault>
        ensures { Reads (number_or default (is_between least most) (first_of id.now self.now)) result }
    {
        match self.text(id) {
            Some(text) => number_between(text, least, most).ok_or(WordFault::Usage),
            None => Ok(default),
        }
    }
}
