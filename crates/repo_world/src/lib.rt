//! The world: one store, any number of clients, and all messages that were ever sent between them; the law of all
//! its runs; and a value that makes them.
//!
//! A [`World`] has a store in a device, its clients and all messages. An [`Event`] happens to it by [`World::apply`], and what
//! comes of that is an [`Applied`]; what the store says to somebody who is no client is given by [`World::ask`]. A client is started with a [`Job`], under a [`Host`]; a [`Message`] stands for a request or
//! a reply, by its place. A report is a [`client_line`] for each client, by its [`Role`], and a [`store_line`]. What a client gave out
//! ([`World::emitted`]) and what the store has under a name ([`World::object`]) can be looked at, too.
//!
//! Promised: from a store without objects, over every list of events (clients start and stop for good, a backup that is fed is
//! given an item, messages are delivered late, again, in any order or never, calls of the store's device fail, anybody asks the store for anything that is no
//! put, no deletion and no upgrade, such as a lock or a lock's end, the store is closed and opened), every world is safe ([`every_run_is_safe`]): each snapshot in the store has all its blobs there and
//! spells just the names and the bytes that were handed to its backup, at its start or as the items spell them that it was fed,
//! whose host and time its text was put with, each restore that is complete gave out just these, and a snapshot that was reported as stored is there
//! until a forget that chose it asks for its deletion.
//!
//! A [`World`] makes just such runs, and is safe at every moment; and each of its clients goes by its job's whole rule (`Rules`).
//!
//! Premises: no two of the byte lists that were sent, that stand as blobs in these, or that a backup made, have one name. Of the laws
//! alone: the store makes steps of the store machine; each client is dutiful (`Duties`): it asks in order, what it owes holds where it
//! puts or deletes, and what it tells is so. Of a [`World`] both are proved, over a device that keeps what it was given.
//!
//! Not promised: that a client ever ends, that a message arrives, that what a crashed client put is freed before a prune.
//!
//! The definitions stand in `specs/`, in the order in which they are read: `Clients`, `Duties`, `World`, `Events` (with the store's `Failing`), `Safe`,
//! `Laws`; `Stages` with `Flows` and `Seats`, for what a [`World`] stands for, `Calmness` (which events take no memory) and `Reports`; what
//! becomes of a seat (`Seating`), clients of any job by its whole rule (`Rules`, `AnyClients`, `Starting`); then, for why every run is safe, `Bag` and `BagLaws`. More
//! laws of all runs, and that the definitions can be met, stand in `repo_runs`.
#![tactic(auto)]

mod any_clients;
mod bag_laws;
mod copies;
mod events;
mod fed_items;
mod jobs;
mod laws;
mod messages;
mod pasts;
mod reports;
mod seats;
mod traffic;
mod worlds;

pub use any_clients::{AnyClient, NotBegun};
pub use bag_laws::{bag_gives_safety, beginning_has_bag, each_event_keeps_bag};
pub use events::{Applied, Event};
pub use jobs::{Entries, Host, HostError, Job, Refusal};
pub use laws::{every_run_is_safe, no_clash_goes_back};
pub use messages::Message;
pub use reports::{Role, client_line, store_line};
pub use worlds::{RunError, World};
