//! The words that every other crate shares: names, kinds, tokens, lock rows and small payloads.
//!
//! A [`Name`] is the SHA-256 (FIPS 180-4) of the bytes that it names. An [`Instance`] tells one client
//! from another, a [`Token`] one lock from another. A [`LockRow`] is a live lock, and has one form in
//! bytes, which frames and the ledger share. [`Bytes`], [`Names`], [`LockRows`] and [`Text`] are a `Vec` or a
//! `String` that contracts see as the list that it holds.
//!
//! Promised: `name_of` is the object name, hexadecimal goes both ways, a row's bytes read as that row
//! and as no other. Not promised: that SHA-256 has no clashes, or that two instances differ.
//!
//! The definitions stand in `specs/`: `Naming` (object name, order of names, hexadecimal), `Ranges`
//! (the bytes at an offset and a length), `Rows` (a row's bytes, a host within its limits), `NameMaps`
//! (what stands in a map under each name, and how a map changes under one), `Limits` (the greatest lengths
//! and counts that crates share).
#![tactic(auto)]

mod fields;
mod kinds;
mod limits;
mod name_maps;
mod names;
mod payloads;
mod rows;
mod tokens;

pub use fields::{
    append_count, count_at, host_at, hosts_are_one, is_host, number_at, numbers_are_one, truth_at,
};
pub use kinds::{BlobKind, Kind, Thing};
pub use limits::{
    BLOB_LIMIT, BLOBS_LIMIT, CONTENTS_LIMIT, FACTS_LIMIT, FIELDS_LIMIT, FILE_END, GREATEST_TARGET,
    HEADER_LIMIT, INDEX_LIMIT, LEAST_TARGET, MAPPED, PACK_LIMIT, PUT_LIMIT, TEXT_LIMIT,
};
pub use name_maps::{insert_named, remove_named};
pub use names::{Instance, Name, NameError, name_of};
pub use payloads::{Bytes, LockRows, Names, Text};
pub use rows::{LockRow, RowError, append_row, append_rows, read_row, read_rows, rows_are_one};
pub use tokens::Token;
