//! What the program hands to `run`.
ghost use Rattle.std.specs.Prelude.{◌≡◌, IfOk, drop, map};
ghost use Rattle.genflash.specs.Handing.{pair_of};

use base_fields::{List, Name, NoMemory, Pair};
use image_jobs::Vars;
use std::alloc::Global;

/// The words of a command, and the variables by their names.
#[derive(Drop)]
pub struct Handed {
    pub words: Vec<String>,
    pub vars: Vars,
}

/// The words behind the program's name, which is the first argument, and the variables of the environment, each a name
/// and its value.
pub fn hand_in(
    alloc: Global,
    arguments: Vec<String>,
    environment: Vec<(String, String)>,
) -> Result<Handed, NoMemory>
    ensures words { IfOk result (λ handed. handed.words.items ≡ drop 1 arguments.items) }
    ensures vars { IfOk result (λ handed. handed.vars ≡ map pair_of environment.items) }
{
    Ok(Handed {
        words: behind_the_first(arguments),
        vars: variables(alloc, environment)?,
    })
}

fn behind_the_first(arguments: Vec<String>) -> Vec<String>
    ensures { result.items ≡ drop 1 arguments.items }
{
    let mut words = arguments;
    if !words.is_empty() {
        words.remove(0);
    }
    words
}

fn variables(alloc: Global, environment: Vec<(String, String)>) -> Result<Vars, NoMemory>
    ensures { IfOk result (λ vars. vars ≡ map pair_of environment.items) }
{
    let mut vars = List::new(alloc);
    for (name, value) in environment {
        vars.push(Pair {
            name: Name::from_string(name),
            value: Name::from_string(value),
        })?;
    }
    Ok(vars)
}
