//! A disk in memory.

ghost use Rattle.std.specs.Prelude.{◌≡◌, ◌⊎◌, ◌≤◌, ◌<◌, ◌∷◌, ℕ, List, Some, None, true, IfOk, OnOk, OnErr};
ghost use Rattle.repo_disk.specs.Disks.{ChangesDrafts, Gives, HasCause, IsPart, HasLength, greatest_count};
ghost use Rattle.repo_disk.specs.Memory.{state_of};
ghost use Rattle.repo_disk.specs.declared.rooms.Room.{Room};

use crate::choices::{Choice, Comes};
use crate::disks::{Cuts, Disk, DiskError};
use crate::files::{File, Part};
use crate::logs::{
    Cell, Change, cell_of, cut_cells, file_at, has_something, is_decided, list_names,
};
use crate::rooms::Room;
use crate::young::Young;
use repo_name::{Bytes, Text};
use std::alloc::{AllocError, Global};

/// A disk in memory. What its coming calls do, and what a cut leaves, is chosen before: each call but `discard` takes
/// the next choice, and succeeds and lasts where none is left. No clause says so: it is read off the code.
#[derive(Debug, Drop)]
pub struct MemDisk {
    /// What the names were given, the newest first.
    cells: Vec<Cell>,
    young: Young,
    /// The next one is the last.
    choices: Vec<Choice>,
    count: u64,
    alloc: Global,
}

impl MemDisk {
    /// A disk on which a store's folders are empty, with these choices, the next one last.
    pub fn new(alloc: Global, choices: Vec<Choice>) -> MemDisk
        ensures now { (r : Room) (n : List ℕ) → (state_of result).now r n ≡ None }
        ensures fate { (r : Room) (n : List ℕ) → (state_of result).fate r n ≡ None }
        ensures lasting { (r : Room) → (state_of result).lasting r ≡ true }
    {
        MemDisk {
            cells: Vec::new(alloc),
            young: Young::none(alloc),
            choices,
            count: 0,
            alloc,
        }
    }

    /// Chooses what the coming calls do, the next one last.
    pub fn choose(&mut self, choices: Vec<Choice>)
        ensures { state_of self.new ≡ state_of self.old }
    {
        self.choices = choices;
    }

    /// Takes the next choice.
    fn next(&mut self) -> Choice
        ensures cells { self.new.cells ≡ self.old.cells }
        ensures young { self.new.young ≡ self.old.young }
        ensures count { self.new.count ≡ self.old.count }
    {
        match self.choices.pop() {
            Some(choice) => choice,
            None => Choice::Succeeds(Comes::ToThis),
        }
    }

    /// Counts a failure.
    fn fail(&mut self)
        ensures cells { self.new.cells ≡ self.old.cells }
        ensures young { self.new.young ≡ self.old.young }
        ensures count { self.old.count ≤ self.new.count }
        ensures more { (self.old.count < self.new.count) ⊎ (self.new.count ≡ greatest_count) }
    {
        self.count = self.count.saturating_add(1);
    }

    /// Begins a call that changes no name.
    fn look(&mut self) -> Result<(), DiskError>
        ensures cells { self.new.cells ≡ self.old.cells }
        ensures young { self.new.young ≡ self.old.young }
        ensures cause { HasCause self.old.count result self.new.count }
    {
        match self.next() {
            Choice::Succeeds(_) => Ok(()),
            _ => {
                self.fail();
                Err(DiskError::Failed)
            }
        }
    }

    /// Adds a cell to the log. It fails for memory alone.
    fn log(&mut self, cell: Cell) -> Result<(), AllocError>
        ensures ok { OnOk result (self.new.cells.items ≡ cell ∷ self.old.cells.items) }
        ensures err { OnErr result (self.new.cells.items ≡ self.old.cells.items) }
        ensures young { self.new.young ≡ self.old.young }
        ensures count { self.new.count ≡ self.old.count }
    {
        self.cells.insert(0, cell)?;
        Ok(())
    }

    /// A name of a folder is changed so. It fails for memory alone.
    fn change(&mut self, room: Room, name: &str, change: Change) -> Result<(), AllocError>
        ensures ok { OnOk result (Gives room name.now change.given (state_of self.old) (state_of self.new)) }
        ensures err { OnErr result (ChangesDrafts (state_of self.old) (state_of self.new)) }
        ensures count { self.new.count ≡ self.old.count }
    {
        let cell = cell_of(self.alloc, &self.cells, room, name, change)?;
        self.log(cell)
    }

    /// A name of a folder is changed so, by the file that was written there. It fails for memory alone.
    fn rename(
        &mut self,
        draft: &str,
        room: Room,
        name: &str,
        change: Change,
    ) -> Result<(), AllocError>
        ensures ok { OnOk result (Gives room name.now change.given (state_of self.old) (state_of self.new)) }
        ensures err { OnErr result (ChangesDrafts (state_of self.old) (state_of self.new)) }
        ensures count { self.new.count ≡ self.old.count }
    {
        self.change(Room::Temporary, draft, Change::lasting(None))?;
        self.change(room, name, change)
    }
}

impl Disk for MemDisk {
    ghost use Rattle.std.specs.Prelude.{⊤};
    ghost use Rattle.repo_disk.specs.Memory.{state_of};

    ghost state = { state_of };

    ghost failed = { λ disk. disk.count };

    ghost faithful = { λ disk. ⊤ };

    fn read(&mut self, room: Room, name: &str) -> Result<Option<Bytes>, DiskError> {
        self.look()?;
        match file_at(&self.cells, room, name)? {
            Some(file) => Ok(Some(file.bytes)),
            None => Ok(None),
        }
    }

    fn has(&mut self, room: Room, name: &str) -> Result<bool, DiskError> {
        self.look()?;
        Ok(has_something(&self.cells, room, name))
    }

    fn read_part(
        &mut self,
        room: Room,
        name: &str,
        offset: u32,
        length: u32,
    ) -> Result<Part, DiskError> {
        self.look()?;
        match file_at(&self.cells, room, name)? {
            Some(file) => Ok(part_of(self.alloc, file.bytes.as_slice(), offset, length)?),
            None => Ok(Part::Missing),
        }
    }

    fn names(&mut self, room: Room) -> Result<Vec<Text>, DiskError> {
        self.look()?;
        let mut names = Vec::new(self.alloc);
        list_names(&self.cells, room, &self.cells, &mut names)?;
        Ok(names)
    }

    fn draft(&mut self, name: &str, bytes: &[u8]) -> Result<(), DiskError> {
        self.look()?;
        let file = File {
            bytes: Bytes::of(bytes.to_vec(self.alloc)?),
            lasts: false,
        };
        Ok(self.change(Room::Temporary, name, Change::lasting(Some(file)))?)
    }

    fn sync_draft(&mut self, name: &str) -> Result<(), DiskError> {
        self.look()?;
        let Some(file) = file_at(&self.cells, Room::Temporary, name)? else {
            self.fail();
            return Err(DiskError::Failed);
        };
        let file = File {
            bytes: file.bytes,
            lasts: true,
        };
        Ok(self.change(Room::Temporary, name, Change::lasting(Some(file)))?)
    }

    fn discard(&mut self, name: &str) {
        let _ = self.change(Room::Temporary, name, Change::lasting(None));
    }

    fn place(&mut self, draft: &str, room: Room, name: &str) -> Result<(), DiskError> {
        let choice = self.next();
        let Some(file) = file_at(&self.cells, Room::Temporary, draft)? else {
            self.fail();
            return Err(DiskError::Failed);
        };
        match choice {
            Choice::Succeeds(comes) => Ok(self.rename(
                draft,
                room,
                name,
                Change {
                    given: Some(file),
                    comes,
                },
            )?),
            Choice::Fails => {
                self.fail();
                Err(DiskError::Failed)
            }
            Choice::FailsAfter(comes) => {
                self.rename(
                    draft,
                    room,
                    name,
                    Change {
                        given: Some(file),
                        comes,
                    },
                )?;
                self.fail();
                Err(DiskError::Failed)
            }
        }
    }

    fn unlink(&mut self, room: Room, name: &str) -> Result<bool, DiskError> {
        let was_there = has_something(&self.cells, room, name);
        match self.next() {
            Choice::Succeeds(comes) => {
                if was_there {
                    self.change(room, name, Change { given: None, comes })?;
                }
                Ok(was_there)
            }
            Choice::Fails => {
                self.fail();
                Err(DiskError::Failed)
            }
            Choice::FailsAfter(comes) => {
                self.change(room, name, Change { given: None, comes })?;
                self.fail();
                Err(DiskError::Failed)
            }
        }
    }

    fn make(&mut self, room: Room) -> Result<(), DiskError> {
        match self.next() {
            Choice::Succeeds(_) => Ok(self.young.make(room)?),
            Choice::Fails => {
                self.fail();
                Err(DiskError::Failed)
            }
            Choice::FailsAfter(_) => {
                self.young.make(room)?;
                self.fail();
                Err(DiskError::Failed)
            }
        }
    }

    fn sync(&mut self, room: Room) -> Result<(), DiskError> {
        let choice = self.next();
        if !is_success(&choice) || !is_decided(&self.cells, room, &self.cells) {
            self.fail();
            return Err(DiskError::Failed);
        }
        self.young.sync(room);
        Ok(())
    }

    fn failures(&self) -> u64 {
        self.count
    }
}

impl Cuts for MemDisk {
    fn cut(self) -> Self {
        let mut disk = self;
        cut_cells(&mut disk.cells);
        disk.young = Young::none(disk.alloc);
        disk
    }
}

/// Whether a choice is that a call succeeds.
fn is_success(choice: &Choice) -> bool {
    matches!(choice, Choice::Succeeds(_))
}

/// A copy of some bytes' part at an offset.
fn part_of(alloc: Global, bytes: &[u8], offset: u32, length: u32) -> Result<Part, AllocError>
    ensures { IfOk result (λ part. IsPart (Some bytes.now) offset length part × HasLength length part) }
{
    let (start, end) = (offset as usize, offset as usize + length as usize);
    if end > bytes.len() {
        return Ok(Part::Outside);
    }
    Ok(Part::Found(Bytes::of(bytes[start..end].to_vec(alloc)?)))
}
