//! How connections are served.

ghost use Rattle.std.specs.Prelude.{◌≡◌};
ghost use Rattle.repo_many.specs.Rooms.{limit_of};

use crate::large_frames::HEAD;
use std::time::Duration;

/// How connections are served.
#[derive(Clone, Copy, Debug)]
pub struct Manner {
    /// How many are taken in all.
    pub connections: u64,
    /// How many are served at once, at most.
    pub at_once: usize,
    /// How many bytes the large frames take together that are being read; one alone may take more. `None`: enough for the greatest
    /// frame of each connection.
    pub memory: Option<u64>,
    /// A connection on which nothing moves for longer ends; `None`: none does. The time in which requests are
    /// answered that take long doesn't count.
    pub idle: Option<Duration>,
}

/// The most bytes of a frame's body.
const GREATEST: u64 = 26_214_400;

/// How many bytes large frames may take together.
pub fn limit_of(manner: Manner) -> u64
    ensures { result ≡ limit_of manner }
{
    match manner.memory {
        Some(bytes) => bytes,
        None => (HEAD as u64 + GREATEST).saturating_mul(manner.at_once as u64),
    }
}
