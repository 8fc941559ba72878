//! Which snapshots a policy keeps, and which policy keeps nothing.

use repo_name::{Instance, Name, Text, Token};
use repo_prune::{Choice, Forget, ForgetError, Policy, keep};
use repo_session::Who;
use repo_tree::Snapshot;
use std::alloc::{AllocError, Global};

/// The snapshots, each by the byte of which its name is, with its host and its time.
const ROWS: [(u8, &str, u64); 5] = [
    (0x11, "a", 86_399),
    (0x22, "a", 86_400),
    (0x33, "a", 86_400),
    (0x44, "a", 100),
    (0x55, "b", 5),
];

/// One last snapshot of each host, and the last of each of two days.
const POLICY: Policy = Policy { last: 1, daily: 2 };

/// A policy that keeps nothing.
const NOTHING: Policy = Policy { last: 0, daily: 0 };

/// The name of which each byte is this one.
fn name(byte: u8) -> Name {
    Name([byte; 32])
}

/// These snapshots.
fn rows(alloc: Global, rows: &[(u8, &str, u64)]) -> Result<Vec<(Name, Snapshot)>, AllocError> {
    let mut made = Vec::new(alloc);
    for (byte, host, time) in rows {
        let snapshot = Snapshot {
            host: Text::of(String::from_str(alloc, host)?),
            time: *time,
            token: Token(1),
            tree: name(*byte),
            version: 1,
        };
        made.push((name(*byte), snapshot))?;
    }
    Ok(made)
}

/// The names of those that the policy keeps.
fn kept(alloc: Global, given: &[(u8, &str, u64)]) -> Result<Vec<Name>, AllocError> {
    let rows = rows(alloc, given)?;
    keep(alloc, rows.as_slice(), &POLICY)
}

/// Whether just these are kept.
fn are_kept(alloc: Global, given: &[(u8, &str, u64)], wanted: &[Name]) -> bool {
    match kept(alloc, given) {
        Ok(names) => names.as_slice() == wanted,
        Err(_) => false,
    }
}

/// Why a forget by a policy isn't begun.
fn refusal(alloc: Global, policy: Policy) -> Option<ForgetError> {
    match Who::new(alloc, Instance([1; 16]), "a", 5) {
        Ok(who) => Forget::new(alloc, who, Choice::Keep(policy)).err(),
        Err(_) => None,
    }
}

#[test]
fn a_policy_keeps_the_last_of_each_day(rt: HostRuntime) {
    let is_row = are_kept(rt.alloc(), &ROWS, &[name(0x11), name(0x33), name(0x55)]);
    let is_none = are_kept(rt.alloc(), &[], &[]);
    assert_eq!(rt; (is_row, is_none), (true, true));
}

#[test]
fn a_policy_that_keeps_nothing_is_refused(rt: HostRuntime) {
    let came = (refusal(rt.alloc(), NOTHING), refusal(rt.alloc(), POLICY));
    assert!(rt; came == (Some(ForgetError::NoPolicy), None));
}
