//! A file system that is cut off after some calls, for tests.

use crate::fuses::{Fuse, Trick, What};
use repo_files::HoldFile;
use std::alloc::{Allocator, Global};
use std::fs::{File, Files, Metadata, OpenFile, OpenOptions};
use std::io::{ErrorKind, Read, Seek, SeekFrom, Write};
use std::path::PathBuf;
use std::{fs, io};

/// A file system that passes calls on until its fuse has burnt down.
#[derive(Clone, Drop)]
pub struct Cut<'a> {
    inner: HostRuntime,
    fuse: &'a Fuse,
}

impl<'a> Cut<'a> {
    /// This file system, until the fuse has burnt down.
    pub(crate) fn new(inner: HostRuntime, fuse: &'a Fuse) -> Cut<'a> {
        Cut { inner, fuse }
    }

    /// Where a path leads.
    fn place(&self, path: &str) -> io::Result<String> {
        let alloc = self.fuse.alloc;
        match path.rsplit_once("/d/e") {
            Some((above, below)) if self.fuse.has_other_folder() => {
                Ok(format!(in alloc; "{above}/other{below}")?)
            }
            _ => Ok(String::from_str(alloc, path)?),
        }
    }
}

/// A file of a [`Cut`]. Its syncs are noted, and not made.
#[derive(Drop)]
pub struct CutFile<'a> {
    inner: File,
    path: String,
    fuse: &'a Fuse,
}

impl Read for CutFile<'_> {
    fn read(&mut self, buffer: &mut [u8]) -> io::Result<usize> {
        self.fuse.burn_or_interrupt(What::Look, self.path.as_str())?;
        self.inner.read(buffer)
    }
}

impl Write for CutFile<'_> {
    fn write(&mut self, buffer: &[u8]) -> io::Result<usize> {
        self.fuse
            .burn_or_interrupt(What::Write, self.path.as_str())?;
        self.inner.write(buffer)
    }

    fn flush(&mut self) -> io::Result<()> {
        self.inner.flush()
    }
}

impl Seek for CutFile<'_> {
    fn seek(&mut self, to: SeekFrom) -> io::Result<u64> {
        self.inner.seek(to)
    }
}

impl OpenFile for CutFile<'_> {
    fn metadata(&self) -> io::Result<Metadata> {
        self.fuse.burn_or_interrupt(What::Look, self.path.as_str())?;
        self.inner.metadata()
    }

    fn set_len(&self, size: u64) -> io::Result<()> {
        self.fuse.burn(What::Write, self.path.as_str())?;
        self.inner.set_len(size)
    }

    fn sync_all(&self) -> io::Result<()> {
        self.fuse.burn(What::Sync, self.path.as_str())
    }

    fn sync_data(&self) -> io::Result<()> {
        self.fuse.burn(What::Sync, self.path.as_str())
    }
}

impl HoldFile for CutFile<'_> {
    fn try_hold(&self) -> io::Result<()> {
        self.fuse.burn(What::Look, self.path.as_str())?;
        self.inner.try_hold()
    }
}

impl Alloc for Cut<'_> {
    type A = Global;

    fn alloc(&self) -> Global {
        self.inner.alloc()
    }
}

impl<'a> Files for Cut<'a> {
    type File = CutFile<'a>;

    type Dir = <HostRuntime as Files>::Dir;

    fn open_file(&self, how: &OpenOptions, path: &str) -> io::Result<CutFile<'a>> {
        self.fuse.burn(What::Look, path)?;
        let mut path = self.place(path)?;
        if matches!(self.fuse.trick, Trick::OtherFile) {
            path.push_str("-other")?;
        }
        let inner = self.inner.open_file(how, path.as_str())?;
        Ok(CutFile {
            inner,
            path,
            fuse: self.fuse,
        })
    }

    fn open_dir(&self, path: &str) -> io::Result<<HostRuntime as Files>::Dir> {
        self.fuse.burn_or_interrupt(What::Look, path)?;
        self.inner.open_dir(self.place(path)?.as_str())
    }

    fn metadata(&self, path: &str) -> io::Result<Metadata> {
        self.fuse.burn_or_interrupt(What::Look, path)?;
        self.inner.metadata(self.place(path)?.as_str())
    }

    fn symlink_metadata(&self, path: &str) -> io::Result<Metadata> {
        self.fuse.burn_or_interrupt(What::Look, path)?;
        self.inner.symlink_metadata(self.place(path)?.as_str())
    }

    fn copy(&self, _: &str, _: &str) -> io::Result<u64> {
        Err(io::Error::from(ErrorKind::Unsupported))
    }

    fn rename(&self, from: &str, to: &str) -> io::Result<()> {
        self.fuse.burn_or_interrupt(What::Leave, from)?;
        let before = fs::read(&self.inner, to).ok();
        self.fuse.note(What::Come, to, before)?;
        self.inner.rename(from, to)
    }

    fn remove_file(&self, path: &str) -> io::Result<()> {
        self.fuse.burn_or_interrupt(What::Look, path)?;
        let before = fs::read(&self.inner, path).ok();
        self.inner.remove_file(path)?;
        self.fuse.note(What::Remove, path, before)
    }

    fn create_dir(&self, path: &str) -> io::Result<()> {
        self.fuse.burn_or_interrupt(What::Look, path)?;
        self.inner.create_dir(path)?;
        self.fuse.note(What::Make, path, None)
    }

    fn create_dir_with_mode(&self, path: &str, mode: u32) -> io::Result<()> {
        self.fuse.burn_or_interrupt(What::Look, path)?;
        self.inner.create_dir_with_mode(path, mode)?;
        self.fuse.note(What::Make, path, None)
    }

    fn remove_dir(&self, _: &str) -> io::Result<()> {
        Err(io::Error::from(ErrorKind::Unsupported))
    }

    fn remove_dir_all<B: Allocator>(&self, _: B, _: &str) -> io::Result<()> {
        Err(io::Error::from(ErrorKind::Unsupported))
    }

    fn canonicalize<B: Allocator>(&self, alloc: B, path: &str) -> io::Result<PathBuf<B>> {
        self.fuse.burn_or_interrupt(What::Look, path)?;
        self.inner.canonicalize(alloc, path)
    }

    fn read_link<B: Allocator>(&self, alloc: B, path: &str) -> io::Result<PathBuf<B>> {
        self.fuse.burn_or_interrupt(What::Look, path)?;
        self.inner.read_link(alloc, path)
    }
}
