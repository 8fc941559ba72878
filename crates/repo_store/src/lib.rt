//! The store: a device that keeps what clients put, and the answer to each request.
//!
//! A [`Shelf`] is the device: it keeps objects, a config and the ledger of locks, and counts its own
//! failures. [`MemShelf`] is one in memory, and [`FaultShelf`] one that fails as it is told. [`init`]
//! keeps a config where none was. [`answer`] answers a request over any shelf; a [`Service`] answers
//! those of a stream, and [`serve`] those of a connection.
//!
//! Promised: over an honest shelf, `answer` is a step of the store machine; it tells that the device
//! failed only where the device's count of failures rose in that call, or stands at its greatest.
//! `serve` is a run of that machine over the requests of the stream that was read, and what it wrote is
//! their replies' frames. Not promised: that a device of the outside world is honest.
//!
//! The definitions stand in `specs/`: `Stores` (the machine's state and its changes), `Pages` and
//! `Slices` (what a page of names and a part of a pack are), `Laws` (what a call of an honest shelf
//! does), `StoreMachine` (the step for each request), `Upgrades` (what an upgrade does to the config),
//! `Runs` (steps one after another), `Serving` (what serving an input gives), `Making` (what making a
//! store gives), `Faults` (the call that is armed).
#![tactic(auto)]

mod answers;
mod append_only;
mod channels;
mod faults;
mod forms;
mod kept;
mod known;
mod laws;
mod lock_answers;
mod making;
mod memory;
mod object_answers;
mod output;
mod pages;
mod services;
mod serving;
mod shelves;
mod upgrades;

pub use answers::answer;
pub use append_only::AppendOnly;
pub use channels::{Channel, Ends, Speaker, Unheard};
pub use faults::{Armed, Fail, FaultShelf};
pub use forms::{Form, Plain, ServiceError};
pub use kept::Kept;
pub use laws::{mode_stays, refusals_change_nothing, runs_compose, runs_only_append, serving_runs};
pub use making::{InitError, init};
pub use memory::{MemShelf, page_after};
pub use output::{Unwritten, write_whole};
pub use pages::{all_names, rises};
pub use services::Service;
pub use serving::{ServeError, room, serve, serve_over};
pub use shelves::{Page, Shelf, ShelfError, Slice};
