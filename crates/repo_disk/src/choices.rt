//! What is chosen of a disk in memory before its calls are made.

use repo_name::Bytes;

/// What a change comes to.
#[derive(Debug, Drop)]
pub enum Comes {
    /// It lasts: the name comes to what it was given.
    ToThis,
    /// A cut undoes it: the name comes to what it came to before. Until then no sync of the folder succeeds.
    ToBefore,
    /// Where the file's bytes weren't synced: the name comes to a file with these bytes. Else it lasts.
    ToBytes(Bytes),
}

/// What a call does. What a change comes to is chosen of the calls that change a name in a folder.
#[derive(Debug, Drop)]
pub enum Choice {
    /// It succeeds, if it can.
    Succeeds(Comes),
    /// It fails, and nothing is done.
    Fails,
    /// It fails, and a change is made all the same.
    FailsAfter(Comes),
}
