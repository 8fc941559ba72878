//! Writes what a restore gives out into a folder.

ghost use Rattle.std.specs.Prelude.{◌≡◌, ◌⊎◌, IfOk, IsTrue, IsFalse, OnOk};
ghost use Rattle.repo_files.specs.Restoring.{standing_of, StandsBetween, TakesEmission};
ghost use Rattle.repo_files.specs.declared.phases.Standing.{Standing};
ghost use Rattle.repo_session.specs.declared.driving.DriveError.{DriveError};

use crate::drafts::{fill, remove, settle};
use crate::grounds::Ground;
use crate::phases::Phase;
use crate::safe_targets::is_safe_target;
use repo_session::{DriveError, Emission};
use std::alloc::{AllocError, AllocGlobal};
use std::fs::Files;
use std::io::ErrorKind;
use std::marker::Model;
use std::{io, mem};

/// Writes what a restore gives out into a folder. A clause sees where it stands.
///
/// The folder is made, with all above it, when the first part is written, or else at the end. Before that nothing is made, and what
/// may be made is only looked at.
///
/// A file is written under a temporary name, `!restoring-` and a number, in the directory where it is to
/// stand, and gets its own name when it ends. So what stands under its own name is whole, whenever the
/// program is ended. A temporary file is made exclusively: where its name is taken, by an entry that was
/// restored before, the next number is tried. It has its name only until its own file ends, so no later
/// entry meets it. Where the writing is cut off it may stay; then it can't be taken for an entry of the
/// snapshot, since names come ascending, and one that is below the open file's and isn't there doesn't
/// come any more. (Of a file whose name begins with a space, `!` or a control character this isn't so, if
/// the snapshot holds a file of that temporary name beside it.)
///
/// Nothing that is there is written to or replaced: each directory is made, each file is new, and no link can be on the way, as long
/// as no other program puts one there. One directory may be there before: the `lost+found` of a new file system. For root the way to
/// the folder is looked at first ([`is_safe_target`]). What is made is its owner's alone.
///
/// Each file is synced by the handle that wrote it, once it has its own name. Up to 100 files wait for that and stay open; they are
/// synced earlier if they have 64 MiB together, or if the process can open no further file. Then they are closed, and each has to have
/// the length that was written to it: a file system may refuse bytes at the close. [`Restorer::finish`] syncs those that are
/// left, and then every directory, each once. Only then is all of it on the disk: a power cut before the end may leave any part of it,
/// even a file under its own name that is cut short. If the file system can't sync directories, that is no error.
pub struct Restorer<R: Files> {
    ground: Ground<R>,
    phase: Phase<R::File>,
    /// There was no memory for the part that was refused.
    lacks_memory: bool,
}

/// Why a folder can't be restored into.
#[derive(Clone, Copy, Debug, PartialEq, Eq)]
pub enum RestorerError {
    /// It holds something already.
    NotEmpty,
    /// Root restores, and another user could lead that elsewhere: [`is_safe_target`].
    NotSafe,
    /// It can't be read, and not because it isn't there: it is a file, say, or is to stand below one.
    Unwritable,
    /// There was no memory.
    Memory,
}

impl<R: Files> Model for Restorer<R> {
    ghost use Rattle.repo_files.specs.Restoring.{standing_of};
    ghost use Rattle.repo_files.specs.declared.phases.Standing.{Standing};

    ghost Value = { Standing };

    ghost view = { λ r. standing_of r.phase };
}

impl<R: Files + AllocGlobal + Clone + Drop> Restorer<R> {
    /// A restorer into the folder of this path, which isn't there, is empty, or has a directory `lost+found` alone. Nothing is made.
    /// A link to a folder is followed. For root it has to be safe from other users. If that can't be looked at now, it is an error once
    /// the folder is made.
    pub fn new(rt: R, folder: &str) -> Result<Restorer<R>, RestorerError>
        ensures { IfOk result (λ restorer. restorer ≡ Standing.Untouched) }
    {
        if let Ok(false) = is_safe_target(&rt, folder) {
            return Err(RestorerError::NotSafe);
        }
        match Ground::of(rt, folder) {
            Ok(Some(ground)) => Ok(Restorer {
                ground,
                phase: Phase::Untouched,
                lacks_memory: false,
            }),
            Ok(None) => Err(RestorerError::NotEmpty),
            Err(error) if error.kind() == ErrorKind::OutOfMemory => Err(RestorerError::Memory),
            Err(_) => Err(RestorerError::Unwritable),
        }
    }

    /// Writes the next part. It returns false if the folder, a file or a directory can't be made or written, or if a file that was
    /// written before can't be synced, or has another length once it is closed. It also returns false if a path isn't one, or if a part
    /// doesn't belong there. Nothing more is taken then. A file that is open then is removed; what was written before it stays.
    pub fn write(&mut self, emission: &Emission) -> bool
        ensures taken { IsTrue result → TakesEmission self.old emission.now self.new }
        ensures stopped { IsFalse result → self.new ≡ Standing.Stopped }
    {
        let phase = mem::replace(&mut self.phase, Phase::Stopped);
        match step(&mut self.ground, phase, emission) {
            Ok(next) => {
                self.phase = next;
                true
            }
            Err(error) => {
                self.note(&error);
                false
            }
        }
    }

    /// Notes whether an error is one for memory.
    fn note(&mut self, error: &io::Error)
        ensures { self.new ≡ self.old }
    {
        if error.kind() == ErrorKind::OutOfMemory {
            self.lacks_memory = true;
        }
    }

    /// Why a part was refused, or the end was: `Memory` if there was no memory for it, else `Sink`.
    pub fn refusal(&self) -> DriveError
        ensures { (result ≡ DriveError.Memory) ⊎ (result ≡ DriveError.Sink) }
    {
        if self.lacks_memory {
            DriveError::Memory
        } else {
            DriveError::Sink
        }
    }

    /// Syncs all that was written and isn't synced yet, and takes no more. If nothing was written, it makes the folder. It returns false
    /// if the folder can't be made, or if something can't be synced, except a directory whose file system has no sync of directories. It
    /// also returns false if a file has another length once it is closed, if a file is open, which is removed then, or if a part was
    /// refused before.
    pub fn finish(&mut self) -> bool
        ensures whole { IsTrue result → StandsBetween self.old }
        ensures ended { self.new ≡ Standing.Stopped }
    {
        let phase = mem::replace(&mut self.phase, Phase::Stopped);
        match end(&mut self.ground, phase) {
            Ok(()) => true,
            Err(error) => {
                self.note(&error);
                false
            }
        }
    }
}

/// Syncs all that was written. The folder is made if nothing was. A file that is open is removed, and that is an error.
fn end<R: Files + AllocGlobal + Clone + Drop>(
    ground: &mut Ground<R>,
    phase: Phase<R::File>,
) -> io::Result<()>
    ensures { OnOk result (StandsBetween (standing_of phase)) }
{
    match phase {
        Phase::Untouched => {
            ground.open()?;
            ground.sync()
        }
        Phase::Between => ground.sync(),
        Phase::InFile(draft) => {
            remove(&ground.rt, draft);
            Err(io::Error::from(ErrorKind::InvalidInput))
        }
        Phase::Stopped => Err(io::Error::from(ErrorKind::InvalidInput)),
    }
}

/// Writes a part, and tells what follows. The folder is made before the first one.
fn step<R: Files + AllocGlobal + Clone + Drop>(
    ground: &mut Ground<R>,
    phase: Phase<R::File>,
    emission: &Emission,
) -> io::Result<Phase<R::File>>
    ensures { IfOk result (λ next. TakesEmission (standing_of phase) emission.now (standing_of next)) }
{
    if let Phase::Untouched = &phase {
        ground.open()?;
    }
    match (phase, emission) {
        (Phase::Untouched | Phase::Between, Emission::Dir(path)) => {
            ground.make(path)?;
            Ok(Phase::Between)
        }
        (Phase::Untouched | Phase::Between, Emission::File(path)) => {
            Ok(Phase::InFile(ground.begin(path)?))
        }
        (Phase::InFile(draft), Emission::Piece(bytes)) => {
            Ok(Phase::InFile(fill(&ground.rt, draft, bytes.as_slice())?))
        }
        (Phase::InFile(draft), Emission::Close) => {
            let written = settle(&ground.rt, draft)?;
            ground.keep(written)?;
            Ok(Phase::Between)
        }
        (Phase::InFile(draft), _) => {
            remove(&ground.rt, draft);
            Err(io::Error::from(ErrorKind::InvalidInput))
        }
        _ => Err(io::Error::from(ErrorKind::InvalidInput)),
    }
}

/// A file that is open when the restorer goes is removed, as far as that can be done.
impl<R: Files + Drop> Drop for Restorer<R> {
    fn drop(self) {
        let Restorer {
            ground,
            phase,
            lacks_memory: _,
        } = self;
        if let Phase::InFile(draft) = phase {
            remove(&ground.rt, draft);
        }
    }
}
