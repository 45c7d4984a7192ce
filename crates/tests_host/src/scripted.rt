use crate::script::{Content, SIZE, Script, count};
use std::alloc::{Allocator, Global};
use std::cell::Cell;
use std::fmt::Display;
use std::fs::{Metadata, OpenFile, OpenOptions};
use std::io::{ErrorKind, Read, Seek, SeekFrom, Write};
use std::os::unix::fs::FileExt;
use std::{io, rt};

/// A runtime that follows a script. It has the files `target` and `journal`, their folder `.`, and `pipe`, which is
/// neither a file nor a block device.
#[derive(Clone, Copy, Drop)]
pub struct Scripted<'a> {
    pub script: &'a Script,
}

#[derive(Clone, Copy, Drop, PartialEq, Eq)]
pub enum Place {
    Target,
    Journal,
    Folder,
}

/// An open file of the script.
#[derive(Drop)]
pub struct ScriptedFile<'a> {
    script: &'a Script,
    place: Place,
    writable: bool,
    position: u64,
}

impl<'a> Scripted<'a> {
    fn place(&self, path: &str) -> io::Result<Place> {
        match path {
            "target" => Ok(Place::Target),
            "journal" => Ok(Place::Journal),
            "." => Ok(Place::Folder),
            _ => Err(io::Error::from(ErrorKind::NotFound)),
        }
    }
}

fn cell(script: &Script, place: Place) -> &Cell<Content> {
    match place {
        Place::Target => &script.target,
        _ => &script.journal,
    }
}

impl Alloc for Scripted<'_> {
    type A = Global;

    fn alloc(&self) -> Global {
        self.script.alloc
    }
}

impl<'a> rt::Files for Scripted<'a> {
    type File = ScriptedFile<'a>;

    type Dir = ScriptedFile<'a>;

    fn open_file(&self, how: &OpenOptions, path: &str) -> io::Result<ScriptedFile<'a>> {
        self.script.step()?;
        count(&self.script.opened);
        let place = self.place(path)?;
        if how.asks_write() && place == Place::Target && self.script.protected.get() {
            return Err(io::Error::from(ErrorKind::PermissionDenied));
        }
        if place != Place::Folder {
            let mut content = cell(self.script, place).get();
            if !content.there && !how.asks_create() {
                return Err(io::Error::from(ErrorKind::NotFound));
            }
            content.there = true;
            if how.asks_truncate() {
                content.len = 0;
            }
            cell(self.script, place).set(content);
        }
        Ok(ScriptedFile {
            script: self.script,
            place,
            writable: how.asks_write(),
            position: 0,
        })
    }

    fn open_dir(&self, _path: &str) -> io::Result<ScriptedFile<'a>> {
        Err(io::Error::from(ErrorKind::Unsupported))
    }

    fn metadata(&self, path: &str) -> io::Result<Metadata> {
        if path == "pipe" {
            return Ok(Metadata::of_symlink(0));
        }
        let place = self.place(path)?;
        if place == Place::Folder {
            return Ok(Metadata::of_dir());
        }
        let content = cell(self.script, place).get();
        if !content.there {
            return Err(io::Error::from(ErrorKind::NotFound));
        }
        Ok(Metadata::of_file(content.len as u64))
    }

    fn symlink_metadata(&self, path: &str) -> io::Result<Metadata> {
        self.metadata(path)
    }

    fn copy(&self, _from: &str, _to: &str) -> io::Result<u64> {
        Err(io::Error::from(ErrorKind::Unsupported))
    }

    fn rename(&self, _from: &str, _to: &str) -> io::Result<()> {
        Err(io::Error::from(ErrorKind::Unsupported))
    }

    fn remove_file(&self, _path: &str) -> io::Result<()> {
        Err(io::Error::from(ErrorKind::Unsupported))
    }

    fn create_dir(&self, _path: &str) -> io::Result<()> {
        Err(io::Error::from(ErrorKind::Unsupported))
    }

    fn remove_dir(&self, _path: &str) -> io::Result<()> {
        Err(io::Error::from(ErrorKind::Unsupported))
    }

    fn remove_dir_all<B: Allocator>(&self, _alloc: B, _path: &str) -> io::Result<()> {
        Err(io::Error::from(ErrorKind::Unsupported))
    }
}

impl FileExt for ScriptedFile<'_> {
    fn read_at(&self, buf: &mut [u8], offset: u64) -> io::Result<usize> {
        self.script.step()?;
        count(&self.script.reads);
        let content = cell(self.script, self.place).get();
        Ok(content.give(offset, buf, self.script.most.get()))
    }

    fn write_at(&self, buf: &[u8], offset: u64) -> io::Result<usize> {
        self.script.step()?;
        if !self.writable {
            return Err(io::Error::from(ErrorKind::Other));
        }
        let mut content = cell(self.script, self.place).get();
        let n = content.put(offset, buf, self.script.most.get());
        cell(self.script, self.place).set(content);
        Ok(n)
    }
}

impl Read for ScriptedFile<'_> {
    fn read(&mut self, buf: &mut [u8]) -> io::Result<usize> {
        let n = self.read_at(buf, self.position)?;
        self.position = self.position.saturating_add(n as u64);
        Ok(n)
    }
}

impl Write for ScriptedFile<'_> {
    fn write(&mut self, buf: &[u8]) -> io::Result<usize> {
        let n = self.write_at(buf, self.position)?;
        self.position = self.position.saturating_add(n as u64);
        Ok(n)
    }

    fn flush(&mut self) -> io::Result<()> {
        Ok(())
    }
}

impl Seek for ScriptedFile<'_> {
    fn seek(&mut self, to: SeekFrom) -> io::Result<u64> {
        self.script.step()?;
        let end = cell(self.script, self.place).get().len as u64;
        self.position = match to {
            SeekFrom::Start(at) => at,
            SeekFrom::End(_) => end,
            SeekFrom::Current(_) => self.position,
        };
        Ok(self.position)
    }
}

impl OpenFile for ScriptedFile<'_> {
    fn metadata(&self) -> io::Result<Metadata> {
        Ok(Metadata::of_file(cell(self.script, self.place).get().len as u64))
    }

    fn set_len(&self, size: u64) -> io::Result<()> {
        self.script.step()?;
        let mut content = cell(self.script, self.place).get();
        content.len = size.min(SIZE as u64) as usize;
        cell(self.script, self.place).set(content);
        Ok(())
    }

    fn sync_all(&self) -> io::Result<()> {
        self.script.step()?;
        match self.place {
            Place::Target => count(&self.script.target_syncs),
            Place::Journal => count(&self.script.journal_syncs),
            Place::Folder => count(&self.script.folder_syncs),
        }
        Ok(())
    }

    fn sync_data(&self) -> io::Result<()> {
        self.sync_all()
    }
}

/// Standard output that puts its bytes into the script's target, and counts its writes among the reads.
#[derive(Clone, Copy, Drop)]
pub struct ScriptedOutput<'a> {
    pub script: &'a Script,
}

impl Alloc for ScriptedOutput<'_> {
    type A = Global;

    fn alloc(&self) -> Global {
        self.script.alloc
    }
}

impl Print for ScriptedOutput<'_> {
    fn print<D: Display + Drop>(&self, _value: D) -> io::Result<()> {
        Err(io::Error::from(ErrorKind::Unsupported))
    }

    fn println<D: Display + Drop>(&self, _value: D) -> io::Result<()> {
        Err(io::Error::from(ErrorKind::Unsupported))
    }

    fn write_all(&self, bytes: &[u8]) -> io::Result<()> {
        self.script.step()?;
        count(&self.script.reads);
        let mut content = self.script.target.get();
        let end = content.len as u64;
        let _ = content.put(end, bytes, SIZE);
        self.script.target.set(content);
        Ok(())
    }
}
