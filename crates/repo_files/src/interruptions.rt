//! Calls of the system that are interrupted.

ghost use Rattle.std.specs.Prelude.{◌≡◌, ◌≢◌, ◌⊎◌, IfErr, IfOk, Err, Ok};
ghost use Rattle.std.specs.IoError.{error_kind};
ghost use Rattle.std.specs.declared.io.ErrorKind.{ErrorKind};

use std::io;
use std::io::ErrorKind;

/// So often a call is made at most.
pub const MOST_TRIES: u32 = 1_000;

/// Makes a call of the system, and makes it again if it was interrupted. If all of 1,000 calls were interrupted, the error is of the
/// kind `TimedOut`.
///
/// A signal interrupts such a call before it did anything. This program has no handlers of signals, so a call on a local file system
/// isn't interrupted; one on a network file system, or on one in user space, may be. The kit itself makes an opening, a sync, a change
/// of a file's length and a lock again, and so do its whole reads and writes.
pub fn retry_interrupted<T, F: Fn() -> io::Result<T>>(call: F) -> io::Result<T>
    requires { F.IsAlwaysCallable call }
    ensures value { IfOk result (λ value. F.post call (Ok value)) }
    ensures error { IfErr result (λ error. F.post call (Err error) ⊎ (error_kind error ≡ ErrorKind.TimedOut)) }
    ensures interrupted { IfErr result (λ error. error_kind error ≢ ErrorKind.Interrupted) }
{
    for _ in 0..MOST_TRIES {
        match call() {
            Err(error) if error.kind() == ErrorKind::Interrupted => {}
            outcome => return outcome,
        }
    }
    Err(io::Error::from(ErrorKind::TimedOut))
}
