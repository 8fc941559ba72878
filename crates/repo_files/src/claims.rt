//! What a folder has at the names that are a store's own, before anything is made or removed there.

ghost use Rattle.std.specs.Prelude.{IfOk, IsFalse};
ghost use Rattle.repo_tree.specs.ConfigText.{IsConfigText};
ghost use Rattle.repo_tree.specs.declared.configs.Config.{Config};

use crate::folders::Folder;
use crate::holding::HoldFile;
use crate::identities::{Links, look};
use crate::listings::entries_at_rest;
use crate::own_names::{FOLDERS, LOCK, TEMPORARY};
use crate::system::PRIVATE_FILE;
use repo_folder::{CONFIG, LEDGER, is_draft};
use repo_name::TEXT_LIMIT;
use repo_tree::{Config, TextError};
use std::alloc::{AllocError, AllocGlobal, Global};
use std::fs::{Files, OpenOptions};
use std::io::ErrorKind;
use std::os::unix::fs::OpenOptionsExt;
use std::{fs, io};

/// What has a name. A link is neither a file nor a folder.
#[derive(Clone, Copy, PartialEq, Eq)]
enum Sort {
    Nothing,
    File,
    Folder,
    Other,
}

/// Whether these bytes are those of a config, of this version of the program or of a newer one.
fn is_config(alloc: Global, bytes: &[u8]) -> Result<bool, AllocError>
    ensures { IfOk result (λ is. IsFalse is → (config : Config) → ¬ IsConfigText bytes.now config) }
{
    match Config::read(alloc, bytes) {
        Ok(_) | Err(TextError::Version) => Ok(true),
        Err(TextError::Memory) => Err(AllocError),
        Err(_) => Ok(false),
    }
}

impl<R: Files + AllocGlobal + Clone + Drop> Folder<R> {
    /// Whether it is a store: it has a file `config` that reads as a config, or no such file and a ledger.
    pub fn is_store(&self) -> io::Result<bool> {
        if self.has_file(CONFIG)? {
            return self.has_config_text();
        }
        self.has_file(LEDGER)
    }

    /// Whether the file `config` reads as a config. No more of it is read than the longest config has.
    fn has_config_text(&self) -> io::Result<bool> {
        let path = self.path("", CONFIG)?;
        if look(&self.rt, path.as_str(), Links::Followed)?.len() > TEXT_LIMIT as u64 {
            return Ok(false);
        }
        let text = fs::read(&self.rt, path.as_str())?;
        Ok(is_config(self.rt.alloc(), text.as_slice())?)
    }

    /// Whether anything has the name of the config.
    pub fn has_config(&self) -> io::Result<bool> {
        Ok(self.sort_of(CONFIG)? != Sort::Nothing)
    }

    /// Whether nothing of somebody else's has one of a store's own names: there is a ledger already, or each
    /// name has nothing, or what a making that was cut off can have left.
    pub fn is_free(&self) -> io::Result<bool> {
        match self.sort_of(LEDGER)? {
            Sort::File => return Ok(true),
            Sort::Nothing => {}
            _ => return Ok(false),
        }
        if !matches!(self.sort_of(LOCK)?, Sort::Nothing | Sort::File) {
            return Ok(false);
        }
        for below in FOLDERS {
            if !self.is_free_folder(below)? {
                return Ok(false);
            }
        }
        Ok(true)
    }

    /// Holds the folder by its file `lock`, which is made where it isn't there, and never replaced. Its owner alone may open
    /// a lock that is made here, so that no other user can hold it.
    pub fn hold(&self) -> io::Result<R::File>
    where
        R::File: HoldFile,
    {
        let path = self.path("", LOCK)?;
        let file = OpenOptions::new()
            .read(true)
            .write(true)
            .create(true)
            .mode(PRIVATE_FILE)
            .open(&self.rt, path.as_str())?;
        file.try_hold()?;
        Ok(file)
    }

    /// Whether a file has this name, or a link to one.
    fn has_file(&self, name: &str) -> io::Result<bool> {
        let path = self.path("", name)?;
        match look(&self.rt, path.as_str(), Links::Followed) {
            Ok(found) => Ok(found.is_file()),
            Err(error) if error.kind() == ErrorKind::NotFound => Ok(false),
            Err(error) => Err(error),
        }
    }

    /// What has this name.
    fn sort_of(&self, name: &str) -> io::Result<Sort> {
        let path = self.path("", name)?;
        match look(&self.rt, path.as_str(), Links::NotFollowed) {
            Ok(found) if found.is_file() => Ok(Sort::File),
            Ok(found) if found.is_dir() => Ok(Sort::Folder),
            Ok(_) => Ok(Sort::Other),
            Err(error) if error.kind() == ErrorKind::NotFound => Ok(Sort::Nothing),
            Err(error) => Err(error),
        }
    }

    /// Whether nothing has the name of one of a store's folders, or a folder that has no file in it.
    fn is_free_folder(&self, below: &str) -> io::Result<bool> {
        match self.sort_of(below)? {
            Sort::Nothing => Ok(true),
            Sort::Folder => self.has_no_file(below),
            _ => Ok(false),
        }
    }

    /// Whether a folder has nothing in it but folders, however deep, and what was being written.
    fn has_no_file(&self, below: &str) -> io::Result<bool> {
        let mut waiting = Vec::new(self.rt.alloc());
        waiting.push(String::from_str(self.rt.alloc(), below)?)?;
        for _ in 0..u64::MAX {
            let Some(below) = waiting.pop() else {
                return Ok(true);
            };
            if !self.add_folders(below.as_str(), &mut waiting)? {
                return Ok(false);
            }
        }
        Ok(false)
    }

    /// Adds the folders in a folder; whether nothing else is in it but what was being written.
    fn add_folders(&self, below: &str, folders: &mut Vec<String>) -> io::Result<bool> {
        let path = self.path(below, "")?;
        let found = entries_at_rest(&self.rt, path.as_str())?;
        for name in &found.names {
            let child = self.child(below, name.as_str())?;
            match self.sort_of(child.as_str())? {
                Sort::Folder => folders.push(child)?,
                Sort::File if below == TEMPORARY && is_draft(name.as_str()) => {}
                _ => return Ok(false),
            }
        }
        Ok(found.unnamed == 0)
    }

    /// The path of an entry of a folder, below this one.
    fn child(&self, below: &str, name: &str) -> Result<String, AllocError> {
        format!(in self.rt.alloc(); "{below}/{name}")
    }
}
