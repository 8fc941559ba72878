//! A backup that feeds itself from a source.
//!
//! A [`Source`] gives the items of a backup, one after another: what stands in a folder, say. A [`FedBackup`] is a client
//! of repo_session around a backup of repo_backup that is fed: whenever that wants input, it takes the next items from its
//! source, until something is pending or it has ended. So it never wants anything of its driver: `drive`, and `drive_again`
//! of repo_dial with its retries, go over it as over any client, and what was fed isn't asked for again.
//!
//! While the reply to a put is awaited it goes ahead: it supposes that the put is done, and makes what it puts next of the
//! items that come next. If the reply says that it is done, that is what it would have made then; by any other reply it
//! ends.
//!
//! If there is no memory for an item, the item waits, and the reply that was to be taken may be taken again. Behind the last
//! reply of the reading, nothing is put yet: there the source begins again. If it can't, the backup is given up.
//!
//! Promised: what it asks for, and how it ends, is what a backup may that was fed some items in their places between its
//! exchanges, and no snapshot is put except of items that ended. If the source fails, or an item isn't taken, the backup is
//! given up; there is a reason then, and a true one, unless it came ahead of a reply by which the backup ends. It is given up
//! for want of memory only if its source can't begin again. Its last reason is that it was fed without end. While it goes on,
//! and if its snapshot is stored, a source that failed wasn't asked again. If it is known what a source was made to give, the
//! items so far are on the way to that, its bytes in any parts; the one that isn't taken is the next of it; without end is at
//! least 2^127 items and bytes; and a snapshot spells just that.
//! Not promised: that a source ends. But each reply is taken in fewer than 2^128 turns. Nor how much is fed ahead of a reply: 12 MiB
//! at most, where an item counts for 256 bytes at least.
//!
//! The definitions are in `specs/`: `Sources` (what comes from a source), `Unfed` and `FedRules` (what such a backup may
//! ask for, and how it may end), `Reasons` (why it was given up), `FedStates` (its states), `FedLaws` (what it stored). `Unseen` and `FedObedience` say
//! that what was fed isn't seen in its exchanges, and that it obeys.
#![tactic(auto)]

mod fed_backups;
mod laws;
mod reasons;
mod rooms;
mod sources;

pub use fed_backups::FedBackup;
pub use laws::{fed_clients_are_fed, stored_is_spelled};
pub use reasons::GivenUp;
pub use sources::{Found, Source};
