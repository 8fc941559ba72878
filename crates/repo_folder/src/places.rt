//! Where the files of a store stand.

ghost use Rattle.std.specs.Prelude.{◌≡◌, ◌↔◌, IfOk, IsTrue, string_bytes};
ghost use Rattle.repo_disk.specs.Drafts.{IsDraft, draft_of};
ghost use Rattle.repo_folder.specs.Folders.{IsKept};
ghost use Rattle.repo_folder.specs.Spelling.{room_of};

use repo_disk::Room;
use repo_name::{Kind, Name};
use std::alloc::{AllocError, Global};

/// The file of the ledger, and the one of the config, and what they are called while they are written.
pub const LEDGER: &str = "ledger";

pub const CONFIG: &str = "config";

pub const LEDGER_DRAFT: &str = "ledger.vault-part";

pub const CONFIG_DRAFT: &str = "config.vault-part";

/// What the name of a file ends with while it is written. Nobody else gives such names.
const ENDING: &str = ".vault-part";

/// The folder of an object.
pub fn room_of(kind: Kind, name: &Name) -> Room
    ensures room { result ≡ room_of kind name.now }
    ensures kept { IsKept result }
{
    match kind {
        Kind::Pack => Room::Packs(name.to_bytes()[0]),
        Kind::Index => Room::Indexes,
        Kind::Snapshot => Room::Snapshots,
    }
}

/// The name of a file while it is written.
pub fn draft_of(alloc: Global, name: &str) -> Result<String, AllocError>
    ensures name { IfOk result (λ draft. string_bytes draft ≡ draft_of name.now) }
    ensures draft { IfOk result (λ draft. IsDraft (string_bytes draft)) }
{
    let mut draft = String::from_str(alloc, name)?;
    draft.push_str(ENDING)?;
    Ok(draft)
}

/// Whether a file of this name is one that is being written, or was when its writing was cut off.
pub fn is_draft(name: &str) -> bool
    ensures { IsTrue result ↔ IsDraft name.now }
{
    name.as_bytes().ends_with(ENDING.as_bytes())
}
