//! The log of what the names of a disk in memory were given.

ghost use Rattle.std.specs.Prelude.{◌≡◌, ◌++◌, IfOk, OnOk, Some, None, option_map, is_some, map};
ghost use Rattle.repo_disk.specs.Memory.{rank, is_at, latest, has_of, comes_to, fate_of, IsChosen, IsGiven, is_as_now, is_decided, listed, left_of};

use crate::choices::Comes;
use crate::files::File;
use crate::rooms::Room;
use repo_name::{Bytes, Text};
use std::alloc::{AllocError, Global};
use std::mem;

/// What a name comes to.
#[derive(Clone, Debug, Drop)]
pub enum Fate {
    /// What it has.
    AsNow,
    /// Something else, or nothing.
    Other(Option<Bytes>),
}

/// A change of a name: what it is given, or `None` where it loses what it has, and what that comes to.
#[derive(Debug, Drop)]
pub struct Change {
    pub given: Option<File>,
    pub comes: Comes,
}

impl Change {
    /// The change that gives a name this, and lasts.
    pub fn lasting(given: Option<File>) -> Change
        ensures { result.given ≡ given }
    {
        Change {
            given,
            comes: Comes::ToThis,
        }
    }
}

/// What a name of a folder was given, and what it comes to.
#[derive(Debug, Drop)]
pub struct Cell {
    pub room: Room,
    pub name: Text,
    pub has: Option<File>,
    pub fate: Fate,
}

impl Room {
    /// A folder's number.
    fn rank(self) -> u16
        ensures { result ≡ rank self }
    {
        match self {
            Room::Top => 0,
            Room::Temporary => 1,
            Room::Data => 2,
            Room::Indexes => 3,
            Room::Snapshots => 4,
            Room::Packs(first) => 5 + first as u16,
        }
    }
}

/// Whether a cell is one of this name in this folder.
fn is_at(cell: &Cell, room: Room, name: &str) -> bool
    ensures { result ≡ is_at room name.now cell.now }
{
    cell.room.rank() == room.rank() && cell.name.as_str() == name
}

/// The newest cell of a name.
fn latest<'a>(cells: &'a [Cell], room: Room, name: &str) -> Option<&'a Cell>
    ensures { option_map (λ cell. cell.now) result ≡ latest cells.now room name.now }
{
    match cells {
        [] => None,
        [first, rest @ ..] => {
            if is_at(first, room, name) {
                Some(first)
            } else {
                latest(rest, room, name)
            }
        }
    }
}

/// A copy of what a name has.
pub fn file_at(cells: &[Cell], room: Room, name: &str) -> Result<Option<File>, AllocError>
    ensures { IfOk result (λ file. file ≡ has_of (latest cells.now room name.now)) }
{
    match latest(cells, room, name) {
        Some(
            Cell {
                has: Some(file),
                ..
            },
        ) => Ok(Some(file.clone()?)),
        _ => Ok(None),
    }
}

/// A copy of what a name comes to.
fn fate_at(cells: &[Cell], room: Room, name: &str) -> Result<Option<Bytes>, AllocError>
    ensures { IfOk result (λ left. left ≡ fate_of (latest cells.now room name.now)) }
{
    let Some(cell) = latest(cells, room, name) else {
        return Ok(None);
    };
    match (&cell.fate, &cell.has) {
        (Fate::Other(Some(bytes)), _) => Ok(Some(bytes.clone()?)),
        (Fate::AsNow, Some(file)) => Ok(Some(file.bytes.clone()?)),
        _ => Ok(None),
    }
}

/// What a name that is given this comes to, as chosen, where it came to this before.
fn chosen(comes: Comes, given: &Option<File>, before: Option<Bytes>) -> Fate
    ensures { IsChosen given.now before result }
{
    match (comes, given) {
        (Comes::ToBefore, _) => Fate::Other(before),
        (Comes::ToBytes(bytes), Some(file)) if !file.lasts => Fate::Other(Some(bytes)),
        _ => Fate::AsNow,
    }
}

/// The cell of a name that is changed so.
pub fn cell_of(
    alloc: Global,
    cells: &[Cell],
    room: Room,
    name: &str,
    change: Change,
) -> Result<Cell, AllocError>
    ensures { IfOk result (IsGiven cells.now room name.now change.given) }
{
    let before = fate_at(cells, room, name)?;
    let fate = chosen(change.comes, &change.given, before);
    let name = Text::of(String::from_str(alloc, name)?);
    Ok(Cell {
        room,
        name,
        has: change.given,
        fate,
    })
}

/// Whether a cell's name comes to what it has.
fn is_as_now(cell: Option<&Cell>) -> bool
    ensures { result ≡ is_as_now (option_map (λ cell. cell.now) cell.entry) }
{
    match cell {
        Some(cell) => matches!(cell.fate, Fate::AsNow),
        None => true,
    }
}

/// Whether of each of these cells in a folder the newest one of its name comes to what it has.
pub fn is_decided(all: &[Cell], room: Room, cells: &[Cell]) -> bool
    ensures { result ≡ is_decided all.now room cells.now }
{
    let [first, rest @ ..] = cells else {
        return true;
    };
    if first.room.rank() == room.rank() && !is_as_now(latest(all, room, first.name.as_str())) {
        return false;
    }
    is_decided(all, room, rest)
}

/// Adds the names of these cells in a folder that have something.
pub fn list_names(
    all: &[Cell],
    room: Room,
    cells: &[Cell],
    names: &mut Vec<Text>,
) -> Result<(), AllocError>
    ensures { OnOk result (names.new.items ≡ names.old.items ++ listed all.now room cells.now) }
{
    let [first, rest @ ..] = cells else {
        return Ok(());
    };
    if first.room.rank() == room.rank() && has_something(all, room, first.name.as_str()) {
        names.push(first.name.clone()?)?;
    }
    list_names(all, room, rest, names)
}

/// Whether a name has something.
pub fn has_something(cells: &[Cell], room: Room, name: &str) -> bool
    ensures { result ≡ is_some (has_of (latest cells.now room name.now)) }
{
    match latest(cells, room, name) {
        Some(cell) => cell.has.is_some(),
        None => false,
    }
}

/// A cell after a cut.
fn cut_cell(cell: &mut Cell)
    ensures { cell.new ≡ left_of cell.old }
{
    match mem::replace(&mut cell.fate, Fate::AsNow) {
        Fate::AsNow => {
            if let Some(file) = &mut cell.has {
                file.lasts = true;
            }
        }
        Fate::Other(None) => cell.has = None,
        Fate::Other(Some(bytes)) => cell.has = Some(File { bytes, lasts: true }),
    }
}

/// Cells after a cut.
pub fn cut_cells(cells: &mut Vec<Cell>)
    ensures { cells.new.items ≡ map left_of cells.old.items }
{
    for i in 0..cells.len() {
        cut_cell(&mut cells[i]);
    }
}
