//! The check of a store: that every snapshot can be restored, or what is at fault.
//!
//! What a check may ask, and how it may end, are definitions: it reads alone, of places those of trees, and asks for no object again, nor for a
//! place that is one tree's; `Clean` comes only where all was received and each thing is found well, `Faults` only with just the
//! things that are at fault, each once and in order. What is found of a thing goes by what was received, and no more than
//! one thing is found of each ([`found_once`]); whatever was said to a request counts as received ([`heard_once`]). A snapshot of a
//! version that isn't known is no fault: it ends the check.
//!
//! [`Check`] is the job, and `Session<Check>` its client. Its survey receives all that a check needs: the objects, kind by kind, each noted as well or at
//! fault, and then the trees, each asked for once, at its least place. Each tree is visited at each depth at which a snapshot
//! reaches it, and in each way: below a snapshot of version 2 directories go on along `next`, at their own depth; below
//! another each is one tree. That takes no second request, and each visit is made once, so cycles end. A part that breaks its
//! directory is unreadable, and the walk goes on into what it lists. Each pack's bytes are hashed once for its name and once
//! for its blobs, and one pack is held at a time.
//!
//! Promised: a check goes by its rule: over any replies, whoever answers, `Clean` and
//! `Faults` say what they say of the bytes received ([`clean_is_what_came`], [`faults_are_what_came`]), and a reply that wants
//! memory may be taken again. Where each thing is found well, the objects received are a sound store, if no two of what was
//! received have one name ([`well_is_sound`], [`clean_is_sound`]), and what is reached in what was received is what their
//! snapshots reach ([`clean_counts_reached`]); and none is at fault ([`well_has_no_fault`]). By its rule, a
//! check alone with its store changes nothing, is clean only where the store is sound, and with the store's own numbers, and on
//! a sound store whose device doesn't fail ends clean, or for want of memory ([`check_changes_nothing`], [`clean_is_of_sound`],
//! [`clean_tells_counts`], [`check_ends_well`]).
//!
//! The survey is over once it received just what a check has to ([`surveyed_is_received`]); its visits are then what the
//! snapshots reach ([`visits_are_reached`], [`content_is_reached`]), and what is told of each sort of thing by what is known
//! of it is what is found of it ([`snapshots_are_told`] and those beside it).
//!
//! The definitions stand in `specs/`: `Answers` (what was received, and what that gives and reaches), `Findings` (what is
//! found of each thing), `Checking` (faults, their order, clean, and the rule), `Laws` and `LoneLaws`; those of the survey:
//! `Rounds` (the objects of one kind), `Walks` (trees), `Gathering` (what the notes of objects and the visits give together),
//! `Surveys` (all of it), `Verdicts` (what is told of it); those of the job: `CheckStates`; and those of
//! the parts: `Arrivals` (what a reply tells of an object), `Measures` (of a tree), `Keeping` (what is kept of a tree),
//! `Visiting` (what a visit gives), `Fitting`, `Telling`.
#![tactic(auto)]

mod arrivals;
mod checks;
mod fitting;
mod gathering;
mod keeping;
mod knowing;
mod laws;
mod measures;
mod objects;
mod queues;
mod reaching;
mod rounds;
mod surveys;
mod taking;
mod telling;
mod trees;
mod verdicts;
mod visiting;
mod visits;
mod walks;

pub use checks::Check;
pub use laws::{
    check_changes_nothing, check_ends_well, clean_counts_reached, clean_is_of_sound,
    clean_is_sound, clean_is_what_came, clean_tells_counts, content_is_reached, content_is_told,
    faults_are_what_came, fits_as_found, found_once, heard_once, indexes_are_told, packs_are_told,
    places_are_told, snapshots_are_told, surveyed_is_received, trees_are_told, visits_are_reached,
    well_has_no_fault, well_is_sound,
};
pub use telling::{ranks_ascend, told_are_found, told_ascend};
