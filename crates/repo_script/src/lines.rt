//! The lines of scripts.

use crate::sorts::AskSort;
use repo_name::{Bytes, Text, Token};
use repo_prune::Policy;
use repo_store::Fail;
use repo_tree::Entry;
use std::marker::Model;

/// The numbers of some clients. A clause sees their list.
#[derive(Clone, Debug, Drop)]
pub struct Clients {
    inner: Vec<usize>,
}

impl Model for Clients {
    ghost use Rattle.std.specs.Prelude.{ℕ, List};

    ghost Value = { List ℕ };

    ghost view = { λ c. c.inner.items };
}

impl Clients {
    ghost use Rattle.std.specs.Prelude.{◌≡◌};

    /// The numbers of a `Vec`.
    pub fn of(inner: Vec<usize>) -> Clients
        ensures { result ≡ inner.items }
    {
        Clients { inner }
    }

    /// The numbers, lent.
    pub fn as_slice(&self) -> &[usize]
        ensures { result.now ≡ self.now }
    {
        self.inner.as_slice()
    }
}

/// A line of a script. Clients and messages go by their numbers, from 0 on.
#[derive(Clone, Debug, Drop)]
pub enum Line {
    /// One more entry for the next backup. Its path is what stands between slashes, whether or not a path can be so.
    Entry(Entry),
    /// A client starts: an old one knows version 1 alone.
    Start { start: Start, old: bool },
    /// This client's pending request is delivered, and then the reply to it.
    Step(usize),
    /// So it goes on until nothing is pending.
    Finish(usize),
    /// So it goes on until the pending request is of this sort, or nothing is pending.
    Until { client: usize, sort: AskSort },
    /// This client's last request is delivered, and the reply to nobody.
    Late(usize),
    /// A step in which the store's device fails so.
    Fault { client: usize, fail: Fail },
    /// The message of this number is delivered.
    Deliver(usize),
    /// This client is fed this.
    Feed { client: usize, item: FeedItem },
    /// Somebody removes the lock of this token.
    Unlock(Token),
    /// Somebody asks the store for this.
    Ask(Question),
    /// This client stops for good.
    Crash(usize),
    /// The store is closed and opened.
    Restart,
    /// Tells how things stand.
    Report,
    /// Each request sent so far is delivered once more, and the replies to nobody.
    Replay,
    /// The store deletes nothing.
    AppendOnly,
}

/// What a backup is fed. A name is a word, whether or not a path can have it.
#[derive(Clone, Debug, Drop)]
pub enum FeedItem {
    /// A directory of this name begins in the open one, and is open then.
    Dir(Text),
    /// A file of this name begins in the open directory.
    File(Text),
    /// More bytes of the open file.
    Bytes(Bytes),
    /// The end of the open file, else of the open directory.
    Close,
    /// The end of all.
    End,
    /// The backup is given up.
    Abandon,
}

/// What somebody who is no client asks the store for.
#[derive(Clone, Copy, Debug, PartialEq, Eq)]
pub enum Question {
    /// A new token.
    Ticket,
    /// The lock of this token, exclusive or not.
    Lock { token: Token, exclusive: bool },
    /// A later time, in seconds since 1970, for this token's live lock.
    Refresh { token: Token, time: u64 },
    /// The rows of all live locks.
    Locks,
}

/// What a client starts for.
#[derive(Clone, Debug, Drop)]
pub enum Start {
    /// It backs up the entries, from a machine of this name at this moment, in seconds since 1970.
    Backup { host: Text, time: u64 },
    /// It backs up what it is fed, from a machine of this name at this moment, in seconds since 1970.
    Pieces { host: Text, time: u64 },
    /// It restores the snapshot that this client stored.
    Restore(usize),
    /// It lists the snapshots.
    List,
    /// It removes what no snapshot needs.
    Prune,
    /// It tells what is at fault in the store.
    Check,
    /// It forgets the snapshots that these clients stored: one client or more.
    Forget(Clients),
    /// It forgets the snapshots that this policy doesn't keep.
    Keep(Policy),
    /// It makes the store's config one of version 2.
    Upgrade,
}
