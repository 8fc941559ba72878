//! How the program ends, and what it says then.

ghost use Rattle.std.specs.Prelude.{◌≡◌, ◌≢◌};
ghost use Rattle.std.specs.declared.io.ErrorKind.TheVariants.{OutOfMemory};
ghost use Rattle.repo_prog.specs.Commands.{status_code};
ghost use Rattle.repo_prog.specs.declared.status.Status.{Status};

use std::fmt::Display;
use std::io;
use std::io::{ErrorKind, Write};

/// How the program ends.
#[derive(Clone, Copy, Debug, PartialEq, Eq)]
pub enum Status {
    /// 0: it did what was asked.
    Done,
    /// 1: it ended without completing; standard error says why.
    Failed,
    /// 2: the words make no command; standard error says why.
    Usage,
    /// 3: it did what was asked, and something isn't as it should be: what a check found, which stands on the output; or
    /// what a backup left out, which standard error names.
    Flawed,
}

impl Status {
    /// The exit status.
    pub fn code(self) -> u8
        ensures { result ≡ status_code self }
    {
        match self {
            Status::Done => 0,
            Status::Failed => 1,
            Status::Usage => 2,
            Status::Flawed => 3,
        }
    }
}

/// The status of what is done, where something wasn't as it should be; a failure stays one.
pub fn flawed(status: Status) -> Status
    ensures done { status ≡ Status.Done → result ≡ Status.Flawed }
    ensures same { status ≢ Status.Done → result ≡ status }
{
    match status {
        Status::Done => Status::Flawed,
        other => other,
    }
}

/// Writes a fault's text on a line. A text that can't be written is lost.
pub fn tell<F: Write, T: Display>(faults: &mut F, text: &T) {
    let _ = writeln!(faults, "{text}");
}

/// Tells why a command failed.
pub fn failed<F: Write, T: Display>(faults: &mut F, text: &T) -> Status
    ensures { result ≡ Status.Failed }
{
    tell(faults, text);
    Status::Failed
}

/// Tells why a folder, a socket or a listener failed: want of memory as such, all else by this text.
pub fn failed_by<F: Write>(faults: &mut F, error: &io::Error, text: &str) -> Status
    ensures { result ≡ Status.Failed }
{
    if error.kind() == ErrorKind::OutOfMemory {
        return failed(faults, &"out of memory");
    }
    failed(faults, &text)
}

/// Tells why the words couldn't be read: want of memory as such; else that one isn't text.
pub fn refuse_unread<F: Write>(kind: ErrorKind, faults: &mut F) -> Status
    ensures memory { kind ≡ OutOfMemory → result ≡ Status.Failed }
    ensures other { kind ≢ OutOfMemory → result ≡ Status.Usage }
{
    if kind == ErrorKind::OutOfMemory {
        return failed(faults, &"out of memory");
    }
    refuse_words(faults)
}

/// Tells that a word isn't as it should be, where `clap` itself has no text for it.
pub fn refuse_words<F: Write>(faults: &mut F) -> Status
    ensures { result ≡ Status.Usage }
{
    tell(faults, &"bad argument");
    Status::Usage
}

/// Tells that snapshots are chosen either by their names or by a policy.
pub fn refuse_both<F: Write>(faults: &mut F) -> Status
    ensures { result ≡ Status.Usage }
{
    tell(faults, &"names and a policy exclude each other");
    Status::Usage
}
