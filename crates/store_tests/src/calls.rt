//! The calls that each ask makes of a device, in order, and what comes of it if one of them is armed by its number.

use crate::asks::Case;

/// An ask with its calls: of a device that is read each time, and of one whose ledger and names are known. A letter `r` is
/// a reading call, and `w` the writing one.
pub const ROWS: [(Case, &str, &str); 15] = [
    (Case::Ticket, "rw", "w"),
    (Case::Lock, "rw", "w"),
    (Case::Refresh, "rw", "w"),
    (Case::Unlock, "rw", "w"),
    (Case::PutOfANewName, "rw", "w"),
    (Case::PutOfANameThatIsThere, "rw", "w"),
    (Case::DeleteOfWhatIsThere, "rw", "w"),
    (Case::DeleteOfNothing, "rw", "w"),
    (Case::Locks, "r", ""),
    (Case::List, "r", ""),
    (Case::Get, "r", "r"),
    (Case::Range, "r", "r"),
    (Case::Config, "r", "r"),
    (Case::UpgradeOfVersion1, "rrw", "rw"),
    (Case::UpgradeOfVersion2, "rr", "r"),
];

/// What has to come of an ask.
#[derive(Clone, Copy)]
pub struct Outcome {
    /// Whether the reply is a fault; else it is that of a device that doesn't fail.
    pub is_fault: bool,
    /// Whether the store is as after the ask, or as before.
    pub is_made: bool,
}

/// What has to come of an ask that makes these calls, while the one of this number is armed, counted from 1: a reading
/// call fails before any change, and the writing one fails after its change if that is applied.
pub fn outcome_of(calls: &str, number: u64, applied: bool) -> Outcome {
    match calls.as_bytes().get(number.saturating_sub(1) as usize) {
        None => Outcome {
            is_fault: false,
            is_made: true,
        },
        Some(b'w') => Outcome {
            is_fault: true,
            is_made: applied,
        },
        Some(_) => Outcome {
            is_fault: true,
            is_made: false,
        },
    }
}
