//! What clients are for.

ghost use Rattle.std.specs.Prelude.{◌≡◌, ◌↔◌, IfOk, IsErrOf};
ghost use Rattle.repo_name.specs.Rows.{IsHost};
ghost use Rattle.repo_world.specs.declared.jobs.HostError.{HostError};

use repo_name::{Name, Text, is_host};
use repo_prune::Choice;
use repo_tree::Entry;
use std::alloc::{AllocError, Global};
use std::marker::Model;
use thiserror::Error;

/// The entries that a backup is handed. A clause sees the list of them.
#[derive(Debug, Drop)]
pub struct Entries {
    inner: Vec<Entry>,
}

impl Model for Entries {
    ghost use Rattle.std.specs.Prelude.{List};
    ghost use Rattle.repo_tree.specs.declared.entries.Entry.{Entry};

    ghost Value = { List Entry };

    ghost view = { λ e. e.inner.items };
}

impl Entries {
    /// The list of some entries.
    pub fn of(inner: Vec<Entry>) -> Entries
        ensures { result ≡ inner.items }
    {
        Entries { inner }
    }

    /// The entries, lent.
    pub fn as_slice(&self) -> &[Entry]
        ensures { result.now ≡ self.now }
    {
        self.inner.as_slice()
    }

    /// The entries.
    pub fn into_inner(self) -> Vec<Entry>
        ensures { result.items ≡ self }
    {
        self.inner
    }
}

/// What a client is for, with all that it is handed.
#[derive(Debug, Drop)]
pub enum Job {
    /// It backs up entries.
    Backup(Entries),
    /// It backs up what it is fed, item by item.
    Pieces,
    /// It restores the snapshot of this name.
    Restore(Name),
    /// It lists the snapshots.
    List,
    /// It forgets the chosen snapshots.
    Forget(Choice),
    /// It removes what no snapshot needs.
    Prune,
    /// It tells what is at fault in the store.
    Check,
    /// It makes the store's config one of version 2.
    Upgrade,
}

/// Why a client isn't begun.
#[derive(Clone, Copy, Debug, PartialEq, Eq, Error)]
pub enum Refusal {
    /// An entry's path has no component, or one that can't be.
    #[error("an entry's path is none")]
    BadPath,
    /// An entry isn't above the one before it, or its parent is no directory among them.
    #[error("the entries aren't in order")]
    Order,
    /// An entry's path has more than 100 components.
    #[error("an entry is nested too deep")]
    TooDeep,
    /// A file has 2^48 bytes or more.
    #[error("a file is too large")]
    TooLarge,
    /// The policy of a forget keeps neither last ones nor days.
    #[error("the policy keeps nothing")]
    NoPolicy,
}

/// The name of a client's machine, 1 to 255 bytes of UTF-8. A clause sees the list of its bytes.
#[derive(Debug, Drop)]
pub struct Host {
    text: Text,
}

impl Model for Host {
    ghost use Rattle.std.specs.Prelude.{ℕ, List};
    ghost use Rattle.repo_name.specs.Rows.{IsHost};

    ghost Value = { List ℕ };

    ghost view = { λ h. h.text };

    ghost invariant = { λ h. IsHost h.text };
}

/// Why a text is no host.
#[derive(Clone, Copy, Debug, PartialEq, Eq, Error)]
pub enum HostError {
    /// It hasn't 1 to 255 bytes.
    #[error("a host has 1 to 255 bytes")]
    Length,
    #[error("out of memory")]
    Memory,
}

impl From<AllocError> for HostError {
    ghost use Rattle.std.specs.Prelude.{◌≡◌};
    ghost use Rattle.repo_world.specs.declared.jobs.HostError.{HostError};

    ghost from_gives = { λ e r. r ≡ HostError.Memory };

    fn from(_: AllocError) -> HostError {
        HostError::Memory
    }
}

impl Host {
    /// The host of this text. `Length` comes exactly where it hasn't 1 to 255 bytes, and first.
    pub fn new(alloc: Global, text: &str) -> Result<Host, HostError>
        ensures ok { IfOk result (λ host. host ≡ text.now) }
        ensures length { IsErrOf result HostError.Length ↔ ¬ IsHost text.now }
    {
        if !is_host(text) {
            return Err(HostError::Length);
        }
        let text = Text::of(String::from_str(alloc, text)?);
        Ok(Host { text })
    }

    /// An equal host. It fails for memory alone.
    pub fn copy(&self) -> Result<Host, AllocError>
        ensures { IfOk result (λ copy. copy ≡ self.now) }
    {
        let text = self.text.clone()?;
        Ok(Host { text })
    }

    /// The text, lent.
    pub fn as_str(&self) -> &str
        ensures text { result.now ≡ self.now }
        ensures host { IsHost self.now }
    {
        self.text.as_str()
    }
}
