//! Files that one program at a time can hold.

use std::fs::File;
use std::io;

/// A file that one program at a time can hold.
pub trait HoldFile {
    /// Holds the file until it is closed, as the end of its program does. Where somebody holds it already, the
    /// error is of the kind `WouldBlock`.
    fn try_hold(&self) -> io::Result<()>;
}

impl HoldFile for File {
    fn try_hold(&self) -> io::Result<()> {
        self.try_lock()?;
        Ok(())
    }
}
