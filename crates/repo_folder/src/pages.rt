//! Pages of the names of the objects in a store's folders.

ghost use Rattle.std.specs.Prelude.{◌≡◌, ◌≤◌, ◌<◌, true, IfOk, IfSome, length, All, Option, option_map};
ghost use Rattle.std.specs.BTreeMap.{IsOrdered};
ghost use Rattle.repo_name.specs.Naming.{IsName, name_cmp};
ghost use Rattle.repo_name.specs.declared.kinds.Kind.{Kind};
ghost use Rattle.repo_name.specs.declared.names.Name.{Name};
ghost use Rattle.repo_store.specs.Laws.{HasCause};
ghost use Rattle.repo_store.specs.Memory.{above, IsFirstPart};
ghost use Rattle.repo_store.specs.Pages.{ReadsPage};
ghost use Rattle.repo_disk.specs.declared.rooms.Room.{Room};
ghost use Rattle.repo_folder.specs.Folders.{IsKept, IsHonest, Stays};
ghost use Rattle.repo_folder.specs.Listings.{least_first};
ghost use Rattle.repo_folder.specs.Spelling.{room_of, spelled};

use crate::dir_shelf::DirShelf;
use crate::listing::add_room;
use repo_disk::{Disk, Room};
use repo_name::{Kind, Name};
use repo_store::{Page, ShelfError, page_after};
use std::alloc::{AllocError, Global};
use std::collections::BTreeMap;

/// The least first byte of a name above this one.
fn least_first(after: Option<&Name>) -> u8
    ensures { result ≡ least_first (option_map (λ name. name.now) after.entry) }
{
    match after {
        None => 0,
        Some(name) => name.to_bytes()[0],
    }
}

/// The folder of packs of this number.
fn packs_at(first: u16) -> Room
    requires { first < 256 }
    ensures room { result ≡ Room.Packs first }
    ensures kept { IsKept result }
{
    Room::Packs(first as u8)
}

/// The page of these names, where more of them follow it.
fn full_page(
    alloc: Global,
    names: &BTreeMap<Name, ()>,
    after: Option<&Name>,
    limit: usize,
) -> Result<Option<Page>, AllocError>
    ensures page { IfOk result (λ found. IfSome found (λ page. IsFirstPart (above (option_map (λ name. name.now) after.entry) names.now) limit page.names page.more)) }
    ensures ordered { IfOk result (λ found. IfSome found (λ page. IsOrdered name_cmp names.now)) }
    ensures names { IfOk result (λ found. IfSome found (λ page. All IsName page.names)) }
    ensures more { IfOk result (λ found. IfSome found (λ page. page.more ≡ true)) }
{
    if names.len() <= limit {
        return Ok(None);
    }
    let page = page_after(alloc, names, after, limit)?;
    if page.more {
        return Ok(Some(page));
    }
    Ok(None)
}

impl<D: Disk> DirShelf<D> {
    /// A page of the names of objects of a kind, all of which stand in one folder.
    pub(crate) fn room_page(
        &mut self,
        kind: Kind,
        room: Room,
        after: Option<&Name>,
        limit: usize,
    ) -> Result<Page, ShelfError>
        requires { IsKept room }
        ensures law { IsHonest (D.faithful self.old.folder.disk) self.old.folder.standing (D.state self.old.folder.disk) → ((n : Name) → room_of kind n ≡ room)
            → ReadsPage kind (option_map (λ name. name.now) after.entry) limit (spelled (D.state self.old.folder.disk).fate) result (spelled (D.state self.new.folder.disk).fate) }
        ensures stays { IsHonest (D.faithful self.old.folder.disk) self.old.folder.standing (D.state self.old.folder.disk)
            → Stays (D.state self.old.folder.disk) (D.state self.new.folder.disk) }
        ensures honest { IsHonest (D.faithful self.old.folder.disk) self.old.folder.standing (D.state self.old.folder.disk)
            → IsHonest (D.faithful self.new.folder.disk) self.new.folder.standing (D.state self.new.folder.disk) }
        ensures cause { HasCause (D.failed self.old.folder.disk) result (D.failed self.new.folder.disk) }
        ensures few { IfOk result (λ page. length page.names ≤ limit) }
        ensures names { IfOk result (λ page. All IsName page.names) }
    {
        let mut names = BTreeMap::new(self.alloc);
        add_room(&mut self.folder, kind, room, after, &mut names)?;
        Ok(page_after(self.alloc, &names, after, limit)?)
    }

    /// A page of the names of packs. Folder after folder is looked at, until more names are there than are wanted.
    pub(crate) fn pack_page(
        &mut self,
        after: Option<&Name>,
        limit: usize,
    ) -> Result<Page, ShelfError>
        ensures law { IsHonest (D.faithful self.old.folder.disk) self.old.folder.standing (D.state self.old.folder.disk)
            → ReadsPage Kind.Pack (option_map (λ name. name.now) after.entry) limit (spelled (D.state self.old.folder.disk).fate) result (spelled (D.state self.new.folder.disk).fate) }
        ensures stays { IsHonest (D.faithful self.old.folder.disk) self.old.folder.standing (D.state self.old.folder.disk)
            → Stays (D.state self.old.folder.disk) (D.state self.new.folder.disk) }
        ensures honest { IsHonest (D.faithful self.old.folder.disk) self.old.folder.standing (D.state self.old.folder.disk)
            → IsHonest (D.faithful self.new.folder.disk) self.new.folder.standing (D.state self.new.folder.disk) }
        ensures cause { HasCause (D.failed self.old.folder.disk) result (D.failed self.new.folder.disk) }
        ensures few { IfOk result (λ page. length page.names ≤ limit) }
        ensures names { IfOk result (λ page. All IsName page.names) }
    {
        let mut names = BTreeMap::new(self.alloc);
        for first in least_first(after) as u16..256 {
            let room = packs_at(first);
            add_room(&mut self.folder, Kind::Pack, room, after, &mut names)?;
            if let Some(page) = full_page(self.alloc, &names, after, limit)? {
                return Ok(page);
            }
        }
        Ok(page_after(self.alloc, &names, after, limit)?)
    }
}
