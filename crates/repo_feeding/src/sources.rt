//! Where the items of a backup come from.

ghost use Rattle.std.specs.Prelude.{◌≡◌, ◌≤◌, ℕ, IsTrue, IsFalse, IfOk, List, Option, length};
ghost use Rattle.repo_feeding.specs.Sources.{Told, FitsRoom, Comes, Fails, IsSound, Rewinds, came};

/// What comes next from a source.
#[derive(Clone, Copy, Debug, Drop)]
pub enum Found {
    /// A directory begins in the open one, and is open then. The source has its name.
    Dir,
    /// A file begins in the open directory. The source has its name.
    File,
    /// More bytes of the open file: so many are at the front of the room.
    Bytes(usize),
    /// The end of the open file, else of the open directory.
    Close,
    /// The end of all.
    End,
}

/// Where the items of a backup come from, one after another: directories and files in order, each name above the last one
/// of its directory.
pub trait Source {
    /// Why no more come.
    type Error: Drop;

    /// What it was made to give, and what of it is still to come, where that is known.
    ghost told: { Self → Option Told };

    /// It failed, for this reason.
    ghost failed: { Self → Self.Error → Type 0 };

    /// It can begin again.
    ghost rewinds: { Type 0 };

    /// The name of the directory or file that was found last.
    ghost name: { Self → List ℕ };

    /// The next one. Bytes of the open file are read to the front of the room, at most as many as it has, which is one at
    /// least. After an error, and behind the end, it isn't asked again.
    fn next(&mut self, room: &mut [u8]) -> Result<Found, Self::Error>
        requires { 1 ≤ length room.old }
        ensures room { IfOk result (FitsRoom (length room.new)) }
        ensures comes { Comes (told self.old) (came (name self.new) room.new result) (told self.new) }
        ensures fails { Fails (failed self.old) result (failed self.new) };

    /// The name of what was found last, if that is a directory or a file.
    fn name(&self) -> &str
        ensures { result.now ≡ name self.now };

    /// Begins again at the first item, if it can, and returns whether it did. If it can't, nothing changes. It takes no memory.
    fn rewind(&mut self) -> bool
        ensures again { IsTrue result → Rewinds (told self.old) (told self.new) }
        ensures still { IsFalse result → self.new ≡ self.old }
        ensures cant { IsFalse result → ¬ rewinds }
        ensures sound { IsSound (failed self.old) → IsSound (failed self.new) };
}
