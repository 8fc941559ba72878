//! Snapshots of several hosts, and which of them a policy keeps.

use crate::lines::ScriptError;
use repo_name::{Name, Text, Token, name_of};
use repo_prune::{Policy, keep};
use repo_tree::Snapshot;
use std::alloc::{AllocError, Global};

/// The seconds within which all snapshots lie, some three years.
const SPAN: u64 = 100_000_000;

/// What is kept of each host.
const POLICY: Policy = Policy {
    last: 10,
    daily: 30,
};

/// The host of a snapshot, by a byte of its name.
fn host_of(byte: u8) -> &'static str {
    match byte % 5 {
        0 => "desktop",
        1 => "laptop",
        2 => "mail",
        3 => "phone",
        _ => "server",
    }
}

/// A snapshot: its name is that of its number, by which its host and its time are.
fn row(alloc: Global, number: u64) -> Result<(Name, Snapshot), AllocError> {
    let name = name_of(&number.to_be_bytes());
    let [first, a, b, c, d, ..] = name.0;
    let snapshot = Snapshot {
        host: Text::of(String::from_str(alloc, host_of(first))?),
        time: u64::from(u32::from_be_bytes([a, b, c, d])) % SPAN,
        token: Token(1),
        tree: name,
        version: 1,
    };
    Ok((name, snapshot))
}

/// So many snapshots.
fn rows_of(alloc: Global, count: usize) -> Result<Vec<(Name, Snapshot)>, AllocError> {
    let mut rows = Vec::with_capacity(alloc, count)?;
    for number in 0..count {
        rows.push(row(alloc, number as u64)?)?;
    }
    Ok(rows)
}

/// The name of the last of so many snapshots.
pub fn last_row(alloc: Global, count: usize) -> Result<Name, ScriptError> {
    let rows = rows_of(alloc, count)?;
    match rows.as_slice().last() {
        Some((name, _)) => Ok(*name),
        None => Ok(name_of(&[])),
    }
}

/// The name of the names of those that the policy keeps, one behind another.
pub fn kept(alloc: Global, count: usize) -> Result<Name, ScriptError> {
    let rows = rows_of(alloc, count)?;
    let mut bytes = Vec::new(alloc);
    for name in keep(alloc, rows.as_slice(), &POLICY)?.as_slice() {
        bytes.extend_from_slice(&name.0)?;
    }
    Ok(name_of(&bytes))
}
