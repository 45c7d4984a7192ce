ghost use Rattle.std.specs.Prelude.{◌≡◌, map, string_bytes, IfErr, IfOk, IsErrOf, None, Some};
ghost use Rattle.job_words.specs.declared.jobs.WordFault.{WordFault};
ghost use Rattle.image_jobs.specs.declared.request.Command.{Command};
ghost use Rattle.image_jobs.specs.Asked.{IsSound, asked, copy_unless, names_of};

use base_fields::{Name, NoMemory};
use copy_job::{CopyRequest, Mode};
use device_commands::DeviceNames;
use job_words::{Job, WordFault, jobs_are_in_range, read_words};
use std::alloc::Global;

/// A configuration that the words name, and the paths of its inputs and of its outputs, where they are given. A path of
/// the words goes before that of the configuration.
#[derive(Debug, Drop)]
pub struct Request {
    pub conf: Name,
    pub input: Option<Name>,
    pub output: Option<Name>,
}

/// A map that the words ask for: of the image of that name in a configuration, in blocks of `block` bytes, to be written
/// to the file `out`.
#[derive(Debug, Drop)]
pub struct MapRequest {
    pub request: Request,
    pub image: Name,
    pub out: Name,
    pub block: u32,
}

/// A job that `run` has an arm for.
#[derive(Debug, Drop)]
pub enum Command {
    /// Makes the images of a configuration.
    Build(Request),
    /// Writes the block map of one of them.
    Map(MapRequest),
    /// Copies the mapped bytes of a file to a target, from the beginning or going on.
    Copy(CopyRequest),
    /// Takes back what a journal holds.
    Forget { journal: Name },
    /// Compares a target with the digests of a map.
    Verify { map: Name, target: Name },
    /// Lists what stands in a file.
    List { image: Name },
}

/// The command that the words ask for. A job that `run` has no arm for yet is as no words.
pub fn asked(alloc: Global, words: &Vec<String>) -> Result<Command, WordFault>
    ensures ok { IfOk result (λ command. asked (map string_bytes words.now.items) ≡ Some command) }
    ensures sound { IfOk result IsSound }
    ensures usage { IsErrOf result WordFault.Usage → asked (map string_bytes words.now.items) ≡ None }
{
    jobs_are_in_range();
    match read_words(alloc, words)? {
        Job::Build {
            conf,
            inputpath,
            outputpath,
        } => Ok(Command::Build(request_of(conf, inputpath, outputpath))),
        Job::Map {
            conf,
            image,
            out,
            block,
            inputpath,
            outputpath,
        } => Ok(Command::Map(MapRequest {
            request: request_of(conf, inputpath, outputpath),
            image,
            out,
            block,
        })),
        Job::Copy {
            source,
            map,
            target,
            journal,
            unit,
            window,
            sparse,
        } => copy_unless(
            sparse,
            CopyRequest {
                source,
                map,
                target,
                journal,
                unit,
                mode: Mode::Fresh,
                window,
            },
        ),
        Job::Resume {
            source,
            map,
            target,
            journal,
            unit,
            sparse,
        } => copy_unless(
            sparse,
            CopyRequest {
                source,
                map,
                target,
                journal,
                unit,
                mode: Mode::Again,
                window: 1,
            },
        ),
        Job::Forget { journal } => Ok(Command::Forget { journal }),
        Job::Verify { map, target } => Ok(Command::Verify { map, target }),
        Job::List { image } => Ok(Command::List { image }),
        _ => Err(WordFault::Usage),
    }
}

// A copy, but for a sparse source.
fn copy_unless(sparse: bool, request: CopyRequest) -> Result<Command, WordFault>
    ensures ok { IfOk result (λ command. copy_unless sparse request ≡ Some command) }
    ensures copies { IfOk result (λ command. command ≡ Command.Copy request) }
    ensures usage { IfErr result (λ fault. (fault ≡ WordFault.Usage) × (copy_unless sparse request ≡ None)) }
{
    if sparse {
        Err(WordFault::Usage)
    } else {
        Ok(Command::Copy(request))
    }
}

fn request_of(conf: Name, input: Option<Name>, output: Option<Name>) -> Request
    ensures { result ≡ record { conf = conf; input = input; output = output } }
{
    Request {
        conf,
        input,
        output,
    }
}

/// The names under which the command of these words attaches the devices that it uses; none where they are no command.
/// A bench that has other names isn't handed to [`run`](crate::run).
pub fn device_names(alloc: Global, words: &Vec<String>) -> Result<DeviceNames, NoMemory>
    ensures { IfOk result (λ names. names ≡ names_of (asked (map string_bytes words.now.items))) }
{
    match asked(alloc, words) {
        Ok(Command::Copy(request)) => Ok(DeviceNames {
            target: Some(request.target),
            journal: Some(request.journal),
        }),
        Ok(Command::Forget { journal }) => Ok(DeviceNames {
            target: None,
            journal: Some(journal),
        }),
        Ok(Command::Verify { map: _, target }) => Ok(DeviceNames {
            target: Some(target),
            journal: None,
        }),
        Ok(_) | Err(WordFault::Usage) => Ok(DeviceNames {
            target: None,
            journal: None,
        }),
        Err(WordFault::NoMemory) => Err(NoMemory),
    }
}
