//! The room into which a source reads bytes.

ghost use Rattle.std.specs.Prelude.{◌≡◌, ◌≤◌, ◌↔◌, [], IsTrue, IfOk, IfErr, drop, length};
ghost use Rattle.repo_feeding.specs.Sources.{Comes, Fails, whole_of};
ghost use Rattle.repo_feeding.specs.inner.Rooms.{Fills};

use crate::sources::{Found, Source};
use std::alloc::{AllocError, Global};
use std::marker::Model;

/// The bytes of a room.
const SIZE: usize = 65_536;

/// The bytes that a source read and that weren't fed yet, in a room for 65,536.
#[derive(Drop)]
pub struct Room {
    bytes: Vec<u8>,
    /// So many at the front were fed.
    fed: usize,
    /// So many were read.
    read: usize,
}

impl Model for Room {
    ghost use Rattle.std.specs.Prelude.{ℕ, ◌≡◌, ◌≤◌, List, drop, take, length};

    ghost Value = { List ℕ };

    ghost view = { λ r. drop r.fed (take r.read r.bytes.items) };

    ghost invariant = { λ r. (r.fed ≤ r.read) × (r.read ≤ length r.bytes.items) × (length r.bytes.items ≡ 65536) };
}

impl Room {
    /// A room in which nothing was read.
    pub fn new(alloc: Global) -> Result<Room, AllocError>
        ensures { IfOk result (λ room. room ≡ []) }
    {
        let bytes = vec![in alloc; 0u8; SIZE]?;
        Ok(Room {
            bytes,
            fed: 0,
            read: 0,
        })
    }

    /// The bytes that weren't fed yet.
    pub fn rest(&self) -> &[u8]
        ensures { result.now ≡ self.now }
    {
        let (read, _) = self.bytes.split_at(self.read);
        let (_, rest) = read.split_at(self.fed);
        rest
    }

    /// So many more were fed.
    pub fn pass(&mut self, count: usize)
        requires { count ≤ length self.old }
        ensures { self.new ≡ drop count self.old }
    {
        self.fed += count;
    }

    /// Nothing waits any more.
    pub fn clear(&mut self)
        ensures { self.new ≡ [] }
    {
        self.fed = 0;
        self.read = 0;
    }

    /// Takes what comes next from a source; bytes are the room's then, and else it is empty.
    pub fn fill<S: Source>(&mut self, source: &mut S) -> Result<Found, S::Error>
        ensures found { IfOk result (Fills (S.name source.new) (S.told source.old) self.new (S.told source.new)) }
        ensures failed { IfErr result (λ error. (self.new ≡ []) × (whole_of (S.told source.new) ≡ whole_of (S.told source.old))) }
        ensures fails { Fails (S.failed source.old) result (S.failed source.new) }
    {
        self.fed = 0;
        self.read = 0;
        match source.next(self.bytes.as_mut_slice()) {
            Ok(found) => {
                if let Found::Bytes(count) = &found {
                    self.read = *count;
                }
                Ok(found)
            }
            Err(error) => Err(error),
        }
    }
}
