//! What is on the disk behind some calls.

use crate::fuses::{Step, What};

/// The path of the folder in which a path stands.
pub(crate) fn parent_of(path: &str) -> &str {
    match path.rsplit_once('/') {
        Some((parent, _)) => parent,
        None => ".",
    }
}

/// Whether a file or folder is synced in these steps.
pub(crate) fn is_synced(steps: &[Step], path: &str) -> bool {
    steps.iter().any(|step| matches!(step.what, What::Sync) && step.path.as_str() == path)
}

/// Whether the last of these steps that writes to a file, or syncs it, is a sync.
fn was_synced(steps: &[Step], path: &str) -> bool {
    let mut is_synced = false;
    for step in steps {
        match step.what {
            What::Sync if step.path.as_str() == path => is_synced = true,
            What::Write if step.path.as_str() == path => is_synced = false,
            _ => {}
        }
    }
    is_synced
}

/// Whether a file that came to a place with the first of these steps is there to stay, or made again: the first sync of its
/// folder succeeds, or a file comes there once more.
fn stays(steps: &[Step], place: &str) -> bool {
    let mut is_lost = false;
    for (i, step) in steps.iter().enumerate() {
        match step.what {
            What::Come if i > 0 && step.path.as_str() == place => return true,
            What::Sync if !is_lost && step.path.as_str() == parent_of(place) => return true,
            What::Lose if step.path.as_str() == parent_of(place) => is_lost = true,
            _ => {}
        }
    }
    false
}

/// How often a file left this place in these steps, and how often a file that was opened there was synced.
fn leavings_and_syncs(steps: &[Step], place: &str) -> (usize, usize) {
    let (mut leavings, mut syncs) = (0usize, 0usize);
    for step in steps {
        match step.what {
            What::Leave if step.path.as_str() == place => leavings = leavings.saturating_add(1),
            What::Sync if step.path.as_str() == place => syncs = syncs.saturating_add(1),
            _ => {}
        }
    }
    (leavings, syncs)
}

/// Whether each file that leaves this place in these steps is synced behind that, by the handle that was opened there to write it.
fn are_synced_later(steps: &[Step], place: &str) -> bool {
    let (leavings, syncs) = leavings_and_syncs(steps, place);
    leavings <= syncs
}

/// Whether all that these steps change is on the disk at their end. Each folder was synced after a name in it changed. Each file
/// of a store was synced before it was renamed, so that its name never stands without its bytes; what a restore made is synced
/// behind that, a file by the handle that wrote it.
pub(crate) fn last(steps: &[Step], is_store: bool) -> bool {
    for (i, step) in steps.iter().enumerate() {
        let (path, after) = (step.path.as_str(), &steps[i..]);
        let lasts = match step.what {
            What::Leave if is_store => was_synced(&steps[..i], path),
            What::Leave => are_synced_later(after, path),
            What::Come if is_store => stays(after, path),
            What::Make if is_store => is_synced(after, parent_of(path)),
            What::Make => is_synced(after, path) && is_synced(after, parent_of(path)),
            What::Come => is_synced(after, parent_of(path)),
            What::Remove => parent_of(path).ends_with("/tmp") || is_synced(after, parent_of(path)),
            _ => true,
        };
        if !lasts {
            return false;
        }
    }
    true
}
