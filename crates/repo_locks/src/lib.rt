//! The ledger of locks: a store's only state beside its objects.
//!
//! A number is not yet issued, fresh, live or dead, and goes that way only. A [`Ledger`] issues numbers,
//! makes fresh ones live as shared or exclusive locks, brings their times up, and lets them die. [`stale`]
//! tells the locks whose clients may be gone.
//!
//! Promised: each call is one step of the token machine, and a refused call changes nothing; every ledger
//! is lawful, an exclusive lock is alone, a dead number stays dead ([`laws`]); the bytes of a ledger read
//! as that ledger and as no other. Not promised: who holds a lock, or that a time is true.
//!
//! The definitions stand in `specs/`: `TokenMachine` (the state and its steps), `Lawful` (what every
//! ledger is), `Laws`, `LedgerBytes` (the form in bytes), `TokenMaps` (rows in a map, each under its token),
//! `Ages` (stale).
#![tactic(auto)]

mod ages;
mod checks;
pub mod laws;
mod ledgers;
mod limits;
mod making;
mod outcomes;
mod reading;
mod searches;
mod writing;

pub use ages::stale;
pub use ledgers::Ledger;
pub use outcomes::{Grant, LedgerError, LockError, RefreshError, TicketError};
