//! The job of each command, from what its arguments are given.
ghost use Rattle.std.specs.Prelude.{◌≡◌};
ghost use Rattle.job_words.specs.Jobs.{Reads, build_from, copy_from, cut_from, demo_from};
ghost use Rattle.job_words.specs.Jobs.{ends_differ, expand_from, forget_from};
ghost use Rattle.job_words.specs.Jobs.{gang_from, gang_resume_from, job_from};
ghost use Rattle.job_words.specs.Jobs.{list_from, map_from, nand_from, nand_places_differ};
ghost use Rattle.job_words.specs.Jobs.{pairs_from, resume_from, unit_of, verify_from};

use crate::given::Given;
use crate::places::{are_distinct, are_expandable, are_gang, names_of, pairs_of};
use crate::verbs::Verb;
use crate::{Job, WordFault};
use base_fields::{List, Pair};
use std::alloc::Global;

/// The job of a command, from what its arguments are given.
pub(crate) fn job(verb: Verb, alloc: Global, given: &Given<'_>) -> Result<Job, WordFault>
    ensures { Reads (job_from verb given.now) result }
{
    match verb {
        Verb::Build => build(alloc, given),
        Verb::Map => map(alloc, given),
        Verb::Copy => copy(alloc, given),
        Verb::Resume => resume(alloc, given),
        Verb::Forget => forget(alloc, given),
        Verb::Verify => verify(alloc, given),
        Verb::List => list(alloc, given),
        Verb::Demo => demo(given),
        Verb::Gang => gang(alloc, given),
        Verb::GangResume => gang_resume(alloc, given),
        Verb::Cut => cut(alloc, given),
        Verb::Expand => expand(alloc, given),
        Verb::Nand => nand(alloc, given),
    }
}

fn build(alloc: Global, given: &Given<'_>) -> Result<Job, WordFault>
    ensures { Reads (build_from given.now) result }
{
    Ok(Job::Build {
        conf: given.name(alloc, "CONF")?,
        inputpath: given.optional_name(alloc, "inputpath")?,
        outputpath: given.optional_name(alloc, "outputpath")?,
    })
}

fn map(alloc: Global, given: &Given<'_>) -> Result<Job, WordFault>
    ensures { Reads (map_from given.now) result }
{
    let block = given.power("block", 4096, 512, 65_536)?;
    Ok(Job::Map {
        conf: given.name(alloc, "CONF")?,
        image: given.name(alloc, "IMAGE")?,
        out: given.name(alloc, "OUT")?,
        block,
        inputpath: given.optional_name(alloc, "inputpath")?,
        outputpath: given.optional_name(alloc, "outputpath")?,
    })
}

fn copy(alloc: Global, given: &Given<'_>) -> Result<Job, WordFault>
    ensures { Reads (copy_from given.now) result }
{
    if !ends_are_distinct(given) {
        return Err(WordFault::Usage);
    }
    let unit = unit(given)?;
    let window = given.count("window", 1, 1, 16)?;
    Ok(Job::Copy {
        source: given.name(alloc, "SOURCE")?,
        map: given.name(alloc, "MAP")?,
        target: given.name(alloc, "TARGET")?,
        journal: given.name(alloc, "JOURNAL")?,
        unit,
        window,
        sparse: given.has("sparse"),
    })
}

fn resume(alloc: Global, given: &Given<'_>) -> Result<Job, WordFault>
    ensures { Reads (resume_from given.now) result }
{
    if !ends_are_distinct(given) {
        return Err(WordFault::Usage);
    }
    let unit = unit(given)?;
    Ok(Job::Resume {
        source: given.name(alloc, "SOURCE")?,
        map: given.name(alloc, "MAP")?,
        target: given.name(alloc, "TARGET")?,
        journal: given.name(alloc, "JOURNAL")?,
        unit,
        sparse: given.has("sparse"),
    })
}

fn forget(alloc: Global, given: &Given<'_>) -> Result<Job, WordFault>
    ensures { Reads (forget_from given.now) result }
{
    Ok(Job::Forget {
        journal: given.name(alloc, "JOURNAL")?,
    })
}

fn verify(alloc: Global, given: &Given<'_>) -> Result<Job, WordFault>
    ensures { Reads (verify_from given.now) result }
{
    if !are_distinct(&[given.place("MAP"), given.place("TARGET")]) {
        return Err(WordFault::Usage);
    }
    Ok(Job::Verify {
        map: given.name(alloc, "MAP")?,
        target: given.name(alloc, "TARGET")?,
    })
}

fn list(alloc: Global, given: &Given<'_>) -> Result<Job, WordFault>
    ensures { Reads (list_from given.now) result }
{
    Ok(Job::List {
        image: given.name(alloc, "IMAGE")?,
    })
}

fn demo(given: &Given<'_>) -> Result<Job, WordFault>
    ensures { Reads (demo_from given.now) result }
{
    Ok(Job::Demo {
        seed: given.number("SEED")?,
    })
}

fn gang(alloc: Global, given: &Given<'_>) -> Result<Job, WordFault>
    ensures { Reads (gang_from given.now) result }
{
    let unit = unit(given)?;
    let pairs = pairs(alloc, given)?;
    Ok(Job::Gang {
        source: given.name(alloc, "SOURCE")?,
        map: given.name(alloc, "MAP")?,
        pairs,
        unit,
    })
}

fn gang_resume(alloc: Global, given: &Given<'_>) -> Result<Job, WordFault>
    ensures { Reads (gang_resume_from given.now) result }
{
    let unit = unit(given)?;
    let pairs = pairs(alloc, given)?;
    Ok(Job::GangResume {
        source: given.name(alloc, "SOURCE")?,
        map: given.name(alloc, "MAP")?,
        pairs,
        unit,
    })
}

fn cut(alloc: Global, given: &Given<'_>) -> Result<Job, WordFault>
    ensures { Reads (cut_from given.now) result }
{
    let size = given.number("SIZE")?;
    Ok(Job::Cut {
        image: given.name(alloc, "IMAGE")?,
        prefix: given.name(alloc, "PREFIX")?,
        size,
    })
}

fn expand(alloc: Global, given: &Given<'_>) -> Result<Job, WordFault>
    ensures { Reads (expand_from given.now) result }
{
    let pieces = given.places("PIECES").ok_or(WordFault::Usage)?;
    if !are_expandable(given.place("OUT"), pieces) {
        return Err(WordFault::Usage);
    }
    Ok(Job::Expand {
        out: given.name(alloc, "OUT")?,
        pieces: names_of(alloc, pieces)?,
    })
}

fn nand(alloc: Global, given: &Given<'_>) -> Result<Job, WordFault>
    ensures { Reads (nand_from given.now) result }
{
    if !nand_places_are_distinct(given) {
        return Err(WordFault::Usage);
    }
    let block = given.power("block", 131_072, 1, 4_194_304)?;
    let page = given.power("page", 2048, 512, 16_384)?;
    if page > block {
        return Err(WordFault::Usage);
    }
    Ok(Job::Nand {
        image: given.name(alloc, "IMAGE")?,
        device: given.name(alloc, "DEVICE")?,
        bad_list: given.name(alloc, "BADLIST")?,
        block,
        page,
    })
}

// The targets of a gang with their journals.
fn pairs(alloc: Global, given: &Given<'_>) -> Result<List<Pair>, WordFault>
    ensures { Reads (pairs_from given.now) result }
{
    let places = given.places("TARGETS").ok_or(WordFault::Usage)?;
    if !are_gang(given.place("SOURCE"), given.place("MAP"), places) {
        return Err(WordFault::Usage);
    }
    Ok(pairs_of(alloc, places)?)
}

// The unit of a copy in bytes.
fn unit(given: &Given<'_>) -> Result<u32, WordFault>
    ensures { Reads (unit_of given.now) result }
{
    given.power("unit", 1_048_576, 65_536, 4_194_304)
}

// Whether no two places of a copy are equal.
fn ends_are_distinct(given: &Given<'_>) -> bool
    ensures { result ≡ ends_differ given.now }
{
    are_distinct(&[
        given.place("SOURCE"),
        given.place("MAP"),
        given.place("TARGET"),
        given.place("JOURNAL"),
    ])
}

fn nand_places_are_distinct(given: &Given<'_>) -> bool
    ensures { result ≡ nand_places_differ given.now }
{
    are_distinct(&[
        given.place("IMAGE"),
        given.place("DEVICE"),
        given.place("BADLIST"),
    ])
}
