ghost use Rattle.std.specs.Prelude.{◌≡◌, ◌≤◌, IfOk, string_bytes};

use crate::mounts::lists;
use bench::Dev;
use std::fs::{Metadata, OpenFile, OpenOptions};
use std::io::{ErrorKind, Seek, SeekFrom};
use std::os::unix::fs::{FileTypeExt, MetadataExt};
use std::{fs, io, rt};

/// The kernel's list of what is mounted.
const MOUNTS: &str = "/proc/self/mountinfo";

/// An open file, and the name under which it is attached.
#[derive(Drop)]
pub struct Device<F> {
    pub file: F,
    pub name: String,
    pub node: Node,
    /// A sync has failed.
    pub lost: bool,
}

/// What a file is to the system: the number of its device and its own number there, and for a block device its own
/// number as one. A file whose numbers are not known has zeros.
#[derive(Clone, Copy, Debug)]
pub struct Node {
    device: u64,
    number: u64,
    block: u64,
}

impl Node {
    fn of(metadata: &Metadata) -> Node {
        let is_block = metadata.file_type().is_block_device();
        Node {
            device: metadata.dev(),
            number: metadata.ino(),
            block: if is_block { metadata.rdev() } else { 0 },
        }
    }

    /// Whether two names are known to lead to one file or one block device.
    pub fn is_same(self, other: Node) -> bool {
        let is_file = self.number != 0
            && self.device == other.device
            && self.number == other.number;
        let is_block = self.block != 0 && self.block == other.block;
        is_file || is_block
    }
}

/// Opens a device: a file or a block device. A journal that isn't there is made as an empty file. A target that can't
/// be opened for writing is opened for reading alone, and a block device that is mounted is refused.
pub fn open<R: rt::Files + AllocGlobal>(rt: &R, dev: Dev, name: &str) -> io::Result<Device<R::File>>
    ensures { IfOk result (λ d. string_bytes d.name ≡ name.now) }
{
    check_kind(rt, dev, name)?;
    let file = match dev {
        Dev::Target => open_target(rt, name)?,
        Dev::Journal => open_journal(rt, name)?,
    };
    let node = Node::of(&file.metadata()?);
    let name = String::from_str(rt.alloc(), name)?;
    Ok(Device {
        file,
        name,
        node,
        lost: false,
    })
}

/// Refuses what isn't a file or a block device, before it is opened, and a target that isn't there.
fn check_kind<R: rt::Files>(rt: &R, dev: Dev, name: &str) -> io::Result<()> {
    match fs::metadata(rt, name) {
        Ok(found) if found.is_file() || found.file_type().is_block_device() => Ok(()),
        Ok(_) => Err(io::Error::from(ErrorKind::InvalidInput)),
        Err(e) if e.kind() == ErrorKind::NotFound && dev == Dev::Journal => Ok(()),
        Err(e) => Err(e),
    }
}

fn open_target<R: rt::Files + AllocGlobal>(rt: &R, name: &str) -> io::Result<R::File> {
    let file = match OpenOptions::new().read(true).write(true).open(rt, name) {
        Ok(file) => file,
        Err(e) if is_protected(e.kind()) => OpenOptions::new().read(true).open(rt, name)?,
        Err(e) => return Err(e),
    };
    let block = Node::of(&file.metadata()?).block;
    if block != 0 && is_mounted(rt, block)? {
        return Err(io::Error::from(ErrorKind::ResourceBusy));
    }
    Ok(file)
}

fn is_protected(kind: ErrorKind) -> bool {
    kind == ErrorKind::PermissionDenied || kind == ErrorKind::ReadOnlyFilesystem
}

/// Whether a block device is mounted, by its number. Where the system has no list of mounts, none is.
fn is_mounted<R: rt::Files + AllocGlobal>(rt: &R, block: u64) -> io::Result<bool> {
    match fs::read(rt, MOUNTS) {
        Ok(text) => Ok(lists(text.as_slice(), block)),
        Err(e) if e.kind() == ErrorKind::NotFound => Ok(false),
        Err(e) => Err(e),
    }
}

/// Opens a journal, or makes it. The folder of one that is still empty is put on the disk, so that the journal is there
/// after a stop.
fn open_journal<R: rt::Files>(rt: &R, name: &str) -> io::Result<R::File> {
    let mut file = OpenOptions::new()
        .read(true)
        .write(true)
        .create(true)
        .open(rt, name)?;
    if file.seek(SeekFrom::End(0))? == 0 {
        let folder = OpenOptions::new().read(true).open(rt, folder_of(name))?;
        folder.sync_all()?;
    }
    Ok(file)
}

/// The folder in which a file stands.
fn folder_of(name: &str) -> &str {
    match name.rsplit_once('/') {
        None => ".",
        Some(("", _)) => "/",
        Some((folder, _)) => folder,
    }
}
