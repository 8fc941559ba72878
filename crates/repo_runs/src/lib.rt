//! Laws of all runs of the world, by the definitions alone; that these can be met; and what wrong rules break.
//!
//! Promised, of a world that began with a store without objects: a snapshot that a client once reported as stored is there, or a forget that chose
//! it asked for its deletion, at every later time ([`each_report_holds`]); a store at rest is one in which a client alone finds all that it
//! wants, and each snapshot there can be restored ([`every_snapshot_is_restored`]); each snapshot is of a version that the
//! config has, or of a lower one, and an upgrade that was reported holds ([`each_upgrade_holds`]). Of any world: which requests and events
//! keep the bag of messages in order, and what each of them leaves as it was.
//!
//! And that what clients owe can be met: what a client does that is alone with its store is a part of a run ([`lone_talk_is_a_run`]), and so is
//! what a backup does that feeds itself ([`fed_backup_is_a_run`], [`fed_backup_goes`]), and
//! all that a server answers over connections, one after another or many at once ([`connections_are_a_run`]), to clients that may
//! be fed between their exchanges; a run
//! in which a call of the device fails, a message is delivered late and a lock is removed ([`example_is_a_run`]); runs of a backup, a
//! restore, a forget and prunes to their ends ([`backup_is_a_run`]), in whose last worlds nothing clashes
//! ([`nothing_clashes_in_runs`]). And wrong rules, with what they break.
//!
//! Premise of the laws that begin with a store without objects: no two byte lists clash in the last world.
//!
//! Not promised: anything of code. A world in code is `repo_world`'s, which stands on none of these laws; that every run is safe is a
//! law of that crate.
//!
//! The definitions of the world stand in `repo_world`. Those of the laws stand in `specs/`: `Laws`, `BagLaws`; for how it is met,
//! `Fed`, `Lone`, `Connected`, `Example`, `Backed`, `SomeTexts`; and wrong rules, a file each.
#![tactic(auto)]

mod bag_laws;
mod connections;
mod examples;
mod laws;
mod wrong_rules;

pub use bag_laws::{
    crashes_keep_bag, dead_tokens_keep_bag, delete_keeps_bag, each_upgrade_holds,
    every_snapshot_is_versioned, feeds_keep_bag, locks_keep_bag, old_clients_are_fenced,
    put_keeps_bag, puts_are_of_version, reads_keep_bag, removed_locks_are_gone, replies_keep_bag,
    starts_keep_bag, strangers_keep_bag, strangers_tickets_are_theirs, upgrade_keeps_bag,
    upgraded_is_of_version,
};
pub use connections::{
    connections_are_a_run, fed_backup_goes, goes_in_parts, hall_parts_go, owned_guests_go,
    serving_is_hosting,
};
pub use examples::{
    backup_is_a_run, example_is_a_run, fed_backup_is_a_run, forget_is_a_run, lone_talk_is_a_run,
    nothing_clashes_in_runs, prune_is_a_run, restore_is_a_run, some_texts_are_apart,
};
pub use laws::{
    each_event_keeps_reports, each_report_holds, events_only_append, every_snapshot_is_restored,
    every_store_is_fit, failing_is_a_step,
};
pub use wrong_rules::{
    deletes_for_ever_break_bag, grants_again_break_bag, packs_first_break_sound,
    snapshot_first_breaks_sound, takes_any_break_bag, unkept_break_sound,
};
