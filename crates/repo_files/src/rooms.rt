//! Where the folders of a store lie in the file system.

ghost use Rattle.std.specs.Prelude.{◌≡◌, IfOk, length};

use crate::own_names::{INDEXES, PACKS, SNAPSHOTS, TEMPORARY};
use repo_disk::Room;
use std::alloc::{AllocError, Global};

/// The paths of a store's folders, made before any of them is wanted.
#[derive(Drop)]
pub struct Rooms {
    top: String,
    temporary: String,
    data: String,
    indexes: String,
    snapshots: String,
    packs: Vec<String>,
    ghost all: { length packs.items ≡ 256 },
}

/// The path of a file or folder in a folder.
pub fn path_in(alloc: Global, folder: &str, name: &str) -> Result<String, AllocError> {
    format!(in alloc; "{folder}/{name}")
}

/// The paths of the folders of packs, by the first bytes of their names, in the one in which they stand.
fn packs_in(alloc: Global, data: &str) -> Result<Vec<String>, AllocError>
    ensures { IfOk result (λ paths. length paths.items ≡ 256) }
{
    let mut paths = Vec::new(alloc);
    for first in 0..=255u8 {
        let digits = hex::encode(alloc, &[first])?;
        paths.push(path_in(alloc, data, digits.as_str())?)?;
    }
    Ok(paths)
}

impl Rooms {
    /// The paths of the folders of a store in the folder of this path.
    pub fn of(alloc: Global, root: &str) -> Result<Rooms, AllocError> {
        let data = path_in(alloc, root, PACKS)?;
        let packs = packs_in(alloc, data.as_str())?;
        Ok(Rooms {
            top: String::from_str(alloc, root)?,
            temporary: path_in(alloc, root, TEMPORARY)?,
            data,
            indexes: path_in(alloc, root, INDEXES)?,
            snapshots: path_in(alloc, root, SNAPSHOTS)?,
            packs,
        })
    }

    /// The path of a folder. It takes no memory.
    pub fn path(&self, room: Room) -> &str {
        match room {
            Room::Top => self.top.as_str(),
            Room::Temporary => self.temporary.as_str(),
            Room::Data => self.data.as_str(),
            Room::Indexes => self.indexes.as_str(),
            Room::Snapshots => self.snapshots.as_str(),
            Room::Packs(first) => self.packs[first as usize].as_str(),
        }
    }
}
