//! The config that a store begins with.

ghost use Rattle.std.specs.Prelude.{◌≡◌, ◌≤◌, ◌+◌, IsErrOf};
ghost use Rattle.repo_tree.specs.ConfigText.{config_text, IsTarget};
ghost use Rattle.repo_tree.specs.Versions.{greatest_version, IsKnownTo};
ghost use Rattle.repo_store.specs.Making.{Makes, MakingHasCause, making_error};
ghost use Rattle.repo_store.specs.declared.making.InitError.{InitError};

use crate::shelves::{Shelf, ShelfError};
use repo_tree::Config;
use std::alloc::Global;
use thiserror::Error;

/// Why a store wasn't made.
#[derive(Clone, Copy, Debug, PartialEq, Eq, Error)]
pub enum InitError {
    /// There is a config already, whatever it holds. Nothing changed.
    #[error("exists")]
    Exists,
    /// The shelf failed. The config may be kept, whole, or not.
    #[error("shelf failed")]
    Fault,
    /// There was no memory. Nothing changed.
    #[error("out of memory")]
    Memory,
}

/// The error of a shelf's call that failed.
fn making_error(error: ShelfError) -> InitError
    ensures { result ≡ making_error error }
{
    match error {
        ShelfError::Fault => InitError::Fault,
        ShelfError::Memory => InitError::Memory,
    }
}

/// Keeps the config on a shelf that has none. The config's version has to be one that there is, and its target within
/// its limits.
///
/// `Exists` comes first, and then nothing was written. `Fault` comes only where the shelf failed in this call. It makes one reading
/// call and one writing call at most.
pub fn init<S: Shelf>(alloc: Global, shelf: &mut S, config: &Config) -> Result<(), InitError>
    requires version { IsKnownTo greatest_version config.now.version }
    requires target { IsTarget config.now.target }
    ensures law { S.honest shelf.old → Makes (config_text config.now) (S.store shelf.old) result (S.store shelf.new) }
    ensures cause { S.honest shelf.old → MakingHasCause (S.failed shelf.old) result (S.failed shelf.new) }
    ensures honest { S.honest shelf.old → S.honest shelf.new }
    ensures read { S.reads shelf.new ≤ S.reads shelf.old + 1 }
    ensures once { S.writes shelf.new ≤ S.writes shelf.old + 1 }
    ensures exists { IsErrOf result InitError.Exists → S.writes shelf.new ≡ S.writes shelf.old }
{
    match shelf.config() {
        Ok(None) => {}
        Ok(Some(_)) => return Err(InitError::Exists),
        Err(error) => return Err(making_error(error)),
    }
    let text = match config.write(alloc) {
        Ok(text) => text,
        Err(_) => return Err(InitError::Memory),
    };
    match shelf.save_config(text.as_slice()) {
        Ok(()) => Ok(()),
        Err(error) => Err(making_error(error)),
    }
}
