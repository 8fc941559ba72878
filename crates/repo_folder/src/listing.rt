//! The names of the objects in a store's folders, page by page.

ghost use Rattle.std.specs.Prelude.{◌↔◌, ◌∷◌, [], OnOk, IsTrue, option_map};
ghost use Rattle.repo_store.specs.Laws.{HasCause};
ghost use Rattle.repo_store.specs.Pages.{Above};
ghost use Rattle.repo_folder.specs.Folders.{IsKept, IsHonest, Stays};
ghost use Rattle.repo_folder.specs.Listings.{JoinsListed, JoinsRoom};

use crate::folders::Folder;
use crate::places::room_of;
use crate::telling::told;
use repo_disk::{Disk, Room};
use repo_name::{Kind, Name, Text, insert_named};
use repo_store::ShelfError;
use std::alloc::{AllocError, Global};
use std::cmp::Ordering;
use std::collections::BTreeMap;

/// Whether a name is above this one, if one is given.
fn is_above(after: Option<&Name>, name: &Name) -> bool
    ensures { IsTrue result ↔ Above (option_map (λ name. name.now) after.entry) name.now }
{
    match after {
        None => true,
        Some(after) => after.cmp(name) == Ordering::Less,
    }
}

/// A name joins, if it is one of a kind that belongs into a folder, and above the given one.
fn add_name(
    kind: Kind,
    room: Room,
    after: Option<&Name>,
    text: &str,
    names: &mut BTreeMap<Name, ()>,
) -> Result<(), AllocError>
    ensures { OnOk result (JoinsListed kind room (option_map (λ name. name.now) after.entry) (text.now ∷ []) names.old names.new) }
{
    let Ok(name) = Name::from_hex(text) else {
        return Ok(());
    };
    if room_of(kind, &name) != room {
        return Ok(());
    }
    if !is_above(after, &name) {
        return Ok(());
    }
    insert_named(names, name, ())
}

/// The names of a kind that belong into a folder join, of those that are listed and above the given one.
fn add_listed(
    kind: Kind,
    room: Room,
    after: Option<&Name>,
    listing: &[Text],
    names: &mut BTreeMap<Name, ()>,
) -> Result<(), AllocError>
    ensures { OnOk result (JoinsListed kind room (option_map (λ name. name.now) after.entry) listing.now names.old names.new) }
{
    for text in listing {
        add_name(kind, room, after, text.as_str(), names)?;
    }
    Ok(())
}

/// The names of the objects in a folder join, of those above the given one.
pub fn add_room<D: Disk>(
    folder: &mut Folder<D>,
    kind: Kind,
    room: Room,
    after: Option<&Name>,
    names: &mut BTreeMap<Name, ()>,
) -> Result<(), ShelfError>
    requires { IsKept room }
    ensures joins { IsHonest (D.faithful folder.old.disk) folder.old.standing (D.state folder.old.disk)
        → OnOk result (JoinsRoom kind room (option_map (λ name. name.now) after.entry) ((D.state folder.old.disk).fate room) names.old names.new) }
    ensures stays { IsHonest (D.faithful folder.old.disk) folder.old.standing (D.state folder.old.disk)
        → Stays (D.state folder.old.disk) (D.state folder.new.disk) }
    ensures honest { IsHonest (D.faithful folder.old.disk) folder.old.standing (D.state folder.old.disk)
        → IsHonest (D.faithful folder.new.disk) folder.new.standing (D.state folder.new.disk) }
    ensures cause { HasCause (D.failed folder.old.disk) result (D.failed folder.new.disk) }
{
    let listing = told(folder.names(room))?;
    Ok(add_listed(kind, room, after, &listing, names)?)
}
