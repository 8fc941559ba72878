//! The program's engines and commands, as functions over readers, writers and values.
//!
//! [`frames`] answers request frames in hexadecimal from an empty store in memory. [`play`], which is `repo_play`'s, plays
//! scripts of clients over a store in memory; [`play_command`] and [`loop_command`] do so as commands, the second over
//! connections of the machine to itself. [`init_command`] makes a store, and [`serve_connections`] serves one.
//!
//! The others are a client's: [`backup_command`], [`snapshots_command`], [`restore_command`], [`forget_command`],
//! [`foresee_command`], [`prune_command`], [`upgrade_command`] and [`check_command`] bring a job to its end, over the
//! connections of a [`Route`], which are made one after another ([`Dial`]), by [`drive_again`]; [`locks_command`],
//! [`refresh_command`] and [`unlock_command`] ask themselves, over one. [`run_errand`] connects, and [`run`] goes by the
//! words. A command tells on a [`Console`].
//!
//! Promised: what `frames` writes is the lines of the replies of a run of the store machine, from the
//! empty store, over the requests of the stream that the input's lines spell; each of its errors comes
//! only for its cause, after the replies to all requests before it. A client's command that is done told no fault, and
//! wrote the line of what it did: that of a job that went to its end by its own rules, over just the requests that were
//! sent and the replies that were read; or of a reply. However it ends, a job's rules are kept. Not promised: what a terminal or a
//! file gives or takes.
//!
//! The definitions stand in `specs/`: `Addresses` (what an address is, as a text), `HexLines` (lines, and the bytes that they spell), `FramesRun`
//! (what `frames` gives), `Talks` (what holds while it runs), `Commands` (what the commands give), `Tellings` (the lines
//! of the clients' commands), `Printing` (texts of others as they are printed), `Asking` (what those do that ask), `Jobs`
//! (what those do that bring a job to its end, or as far as it comes), `Shown` (what is shown of a job's outcome), `Errands` (what
//! a client's errand gives).
#![tactic(auto)]

mod addresses;
mod backup;
mod callers;
mod check;
mod choosing;
mod commands;
mod connecting;
mod consoles;
mod errands;
mod errors;
mod folder_words;
mod foresee;
mod forget;
mod frames_engine;
mod help;
mod init;
mod listeners;
mod locks;
mod meanings;
mod output;
mod playing;
mod printing;
mod prune;
mod restore;
mod routes;
mod serve;
mod snapshots;
mod status;
mod talks;
mod telling;
mod upgrade;
mod words;

pub use addresses::is_address;
pub use backup::{LeavesOut, Origin, backup_command, backup_from};
pub use callers::{Caller, caller_now};
pub use check::check_command;
pub use commands::{frames_command, perform, run};
pub use connecting::{do_errand, run_errand};
pub use consoles::Console;
pub use errands::{Errand, LockErrand};
pub use errors::FramesError;
pub use foresee::foresee_command;
pub use forget::forget_command;
pub use frames_engine::frames;
pub use init::{init_command, init_folder, random_instance};
pub use listeners::{Arrivals, Listen};
pub use locks::{locks_command, refresh_command, unlock_command};
pub use playing::{Loopback, loop_command, play_command};
pub use prune::prune_command;
pub use repo_dial::{Address, Dial, KnownChannel, Once, Pair, TryError, drive_again};
pub use repo_play::{PlayError, play};
pub use restore::{Restoring, restore_command};
pub use routes::Route;
pub use serve::{Serving, serve_connections, serve_folder};
pub use snapshots::snapshots_command;
pub use status::{Status, refuse_unread};
pub use telling::fault_word;
pub use upgrade::upgrade_command;
pub use words::{Making, Order, OrderError, WordsError, order_of};
