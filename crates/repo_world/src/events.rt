//! What may happen in a world, and what comes of it.

use crate::jobs::{Host, Job, Refusal};
use repo_backup::{FeedError, Item};
use repo_store::Fail;
use repo_wire::Request;

/// What may happen in a world. Clients and messages are numbered from 0 on, as they come.
#[derive(Debug, Drop)]
pub enum Event<'a> {
    /// A client starts, under the name of its machine and at a moment, in seconds since 1970, and asks for its ticket.
    /// An old one knows version 1 alone.
    Start {
        job: Job,
        host: Host,
        time: u64,
        old: bool,
    },
    /// The message of this number is delivered.
    Deliver(usize),
    /// It is delivered, and the store's device fails in a call of this sort, where it is asked for one.
    Fault {
        message: usize,
        fail: Fail,
    },
    /// Somebody who is no client asks the store for something, under any instance and with any number; the reply goes to
    /// nobody. It is no put, no deletion and no upgrade.
    Ask(Request),
    /// An item is given to the client of this number, a backup that is fed. It takes the item, of a piece maybe the first
    /// bytes alone, or it doesn't.
    Feed {
        client: usize,
        item: Item<'a>,
    },
    /// The client of this number stops for good.
    Crash(usize),
    /// The store is closed and opened: what it keeps outside its device is lost.
    Restart,
}

/// What came of an event.
#[derive(Clone, Copy, Debug, PartialEq, Eq)]
pub enum Applied {
    /// It happened.
    Done,
    /// There is no such message, or no such client runs; or the client that an item is given to is none that is fed; or
    /// nobody may send such a request. Nothing changed.
    Ignored,
    /// The client isn't begun, for this reason. Nothing changed.
    Refused(Refusal),
    /// So many bytes of a piece were taken, at least one and fewer than given, as a pack became due: it is being put now,
    /// or the client ended.
    Took(usize),
    /// The client doesn't take the item, for this reason, which is never want of memory. Nothing changed.
    Unfed(FeedError),
}
