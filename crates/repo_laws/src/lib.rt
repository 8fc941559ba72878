//! Laws of several jobs together.
//!
//! Promised: a restore of the snapshot that a backup reported as stored, one after the other alone with their store, gives
//! out the entries that were handed to the backup, where it reports that it gave out all, and the first of them however far it
//! came; and so of a backup that fed itself what the items spell that it was fed, and that is what its source was made to give,
//! where that is known. Premise: no two of the byte lists that the two speak of have one name.
//!
//! Not promised: anything of clients that share their store with others at once.
//!
//! The definitions are in `specs/`: `Laws`. What a backup and a restore are, and what is alone and apart, is defined with the jobs.
#![tactic(auto)]

mod laws;

pub use laws::{restored_is_fed, restored_is_first, restored_is_first_of_fed, restored_is_handed};
