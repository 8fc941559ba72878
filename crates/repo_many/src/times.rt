//! The time that counts, in nanoseconds, and how a server's connections went.

ghost use Rattle.std.specs.Prelude.{◌≡◌, ◌≤◌, ◌-◌, min};
ghost use Rattle.std.specs.Duration.{as_nanos};
ghost use Rattle.std.specs.Time.{instant_nanos};
ghost use Rattle.repo_many.specs.Times.{most, time_after};
ghost use Rattle.repo_many.specs.declared.times.Served.{Served};

use std::fmt::Display;
use std::io::Write;
use std::time::{Duration, Instant};

/// A round in which something moved counts only if it took fewer nanoseconds, a tenth of a second: what longer ones take is the
/// server's own work.
const SHORT: u64 = 100_000_000;

/// How the connections of a server went.
#[derive(Clone, Copy, Debug, PartialEq, Eq)]
pub enum Served {
    /// None ended by an error, and each that waited could be taken.
    Well,
    /// One did, or couldn't be taken, and the text of the error was told.
    WithErrors,
}

/// A clock that stands still while requests are answered that take long.
#[derive(Clone, Copy, Debug)]
pub struct Watch {
    /// When it was looked at last.
    last: Instant,
    /// The time that counted so far.
    pub time: u64,
}

/// How many nanoseconds a time has, 2^64 - 1 at most.
pub fn nanos_of(time: Duration) -> u64
    ensures { result ≡ min (as_nanos time) most }
{
    time.as_nanos().min(u64::MAX as u128) as u64
}

impl Watch {
    /// A watch at the beginning.
    pub fn new(now: Instant) -> Watch
        ensures last { result.last ≡ now }
        ensures time { result.time ≡ 0 }
    {
        Watch { last: now, time: 0 }
    }

    /// Goes on to this moment, after a round in which something moved, or a wait. The time never falls.
    pub fn go_on(&mut self, now: Instant, moved: bool)
        ensures last { self.new.last ≡ now }
        ensures time { self.new.time ≡ time_after self.old.time (instant_nanos now - instant_nanos self.old.last) moved }
        ensures rises { self.old.time ≤ self.new.time }
    {
        let passed = nanos_of(now.duration_since(self.last));
        self.last = now;
        if moved && passed >= SHORT {
            return;
        }
        self.time = self.time.saturating_add(passed);
    }
}

/// What a round came to, and how the connections went so far.
#[derive(Clone, Copy, Debug)]
pub struct Tally {
    /// A connection moved, came or ended.
    pub moved: bool,
    pub served: Served,
}

impl Tally {
    /// Nothing so far.
    pub fn new() -> Tally
        ensures { result.served ≡ Served.Well }
    {
        Tally {
            moved: false,
            served: Served::Well,
        }
    }

    /// Tells how a connection ended, or why one couldn't be taken.
    pub fn tell<F: Write, E: Display>(&mut self, faults: &mut F, error: &E)
        ensures { self.new.served ≡ Served.WithErrors }
    {
        self.served = Served::WithErrors;
        let _ = writeln!(faults, "{error}");
    }
}
