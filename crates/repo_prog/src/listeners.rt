//! Listeners, which give one connection after another.

ghost use Rattle.std.specs.Prelude.{◌≡◌, Bool, false, Option, Some};

use crate::status::tell;
use repo_dial::{Pair, pair_of};
use repo_store::{Channel, ServeError};
use std::io::{Read, Write};
use std::net::{OpenListener, OpenStream};
use std::rt::Clock;
use std::thread::sleep;
use std::time::Duration;

/// How many milliseconds pass until the next try if a connection couldn't be taken.
const PAUSE: u64 = 100;

/// A connection that was waited for.
#[derive(Drop)]
pub struct Arrival<E: Drop> {
    /// Both ends of it. `None` if it was taken, and can't be served.
    pub ends: Option<E>,
    /// Taking one failed before, and that was reported.
    pub refused: bool,
}

/// A listener, at which one connection after another is waited for.
pub trait Listen {
    /// Both ends of a connection.
    type Ends: Channel + Drop;

    /// What the connections come from, for who waits for several at once.
    type Listener;

    /// Where waiting for the next connection leads, whether taking one failed before, and what was had: `None` if it can't be served.
    ghost accepts: { Self → Bool → Option Self.Ends → Self → Type 0 };

    /// Where giving a connection back leads, as it was left.
    ghost leaves: { Self → Self.Ends → Self → Type 0 };

    /// Waits for the next connection, and returns its ends. If taking one fails, it is reported once, and tried again.
    fn accept<F: Write>(&mut self, faults: &mut F) -> Arrival<Self::Ends>
        ensures accepted { accepts self.old result.refused result.ends self.new }
        ensures silent { result.refused ≡ false → faults.new ≡ faults.old };

    /// Takes a connection back over which nothing more is said or heard.
    fn hang_up(&mut self, connection: Self::Ends)
        ensures { leaves self.old connection self.new };

    /// Gives away what the connections come from, if it is still there.
    fn give_up(&mut self) -> Option<Self::Listener>;
}

/// Takes the next connection of a listener, and returns whether taking one failed before. If it fails, as without free descriptors,
/// that is reported the first time, and tried again after each pause.
fn take<C: Clock, L: OpenListener, F: Write>(
    clock: &C,
    listener: &L,
    faults: &mut F,
) -> Arrival<L::Stream>
    ensures silent { result.refused ≡ false → faults.new ≡ faults.old }
{
    let mut refused = false;
    for tried in 0..u64::MAX {
        if let Ok((stream, _)) = listener.accept() {
            return Arrival {
                ends: Some(stream),
                refused,
            };
        }
        if !refused {
            tell(faults, &ServeError::Read);
            refused = true;
        }
        sleep(clock, Duration::from_millis(PAUSE));
    }
    Arrival {
        ends: None,
        refused,
    }
}

/// The connections that arrive at a bound listener, each of which ends once it is idle for so long. A connection that was taken
/// can't be served if no second handle of it can be made.
#[derive(Drop)]
pub struct Arrivals<'a, C, L: Drop> {
    clock: &'a C,
    /// The listener, unless it was given away.
    listener: Option<L>,
    idle: Option<Duration>,
}

impl<'a, C, L: Drop> Arrivals<'a, C, L> {
    /// Those of this listener. With a time for `idle` each read and each write of one fails that waits for longer.
    pub fn at(clock: &'a C, listener: L, idle: Option<Duration>) -> Arrivals<'a, C, L>
        ensures { result ≡ record { clock = clock.entry; listener = Some listener; idle = idle } }
    {
        Arrivals {
            clock,
            listener: Some(listener),
            idle,
        }
    }
}

impl<C: Clock, L: OpenListener + Drop> Listen for Arrivals<'_, C, L>
where
    L::Stream: Read + Write + OpenStream,
{
    ghost use Rattle.std.specs.Prelude.{◌≡◌};

    type Ends = Pair<L::Stream, L::Stream>;

    type Listener = L;

    ghost accepts = { λ old refused had new. new ≡ old };

    ghost leaves = { λ old left new. new ≡ old };

    fn accept<F: Write>(&mut self, faults: &mut F) -> Arrival<Pair<L::Stream, L::Stream>> {
        let Some(listener) = &self.listener else {
            return Arrival {
                ends: None,
                refused: false,
            };
        };
        let Arrival { ends, refused } = take(self.clock, listener, faults);
        Arrival {
            ends: match ends {
                Some(stream) => pair_of(stream, self.idle),
                None => None,
            },
            refused,
        }
    }

    /// The connection is closed.
    fn hang_up(&mut self, _connection: Pair<L::Stream, L::Stream>) {}

    fn give_up(&mut self) -> Option<L> {
        self.listener.take()
    }
}
