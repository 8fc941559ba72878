//! A piece of some bytes on its way through a lane.

ghost use Rattle.std.specs.Prelude.{◌≡◌, ◌+◌, ◌-◌, ◌≤◌};
ghost use Rattle.sha2.specs.Sha256.{sha256};
ghost use Rattle.repo_sha.specs.inner.Messages.{hash_to};

use crate::constants::INITIAL_HASH;
use crate::messages::Message;
use crate::rounds::Hash;
use crate::streams::finish;

/// A piece of which some blocks were taken in.
#[derive(Clone, Copy)]
pub struct Piece<'a> {
    /// Which of the pieces it is, from 0 on.
    pub number: usize,
    /// The piece.
    pub message: Message<'a>,
    /// How many of its blocks were taken in.
    pub place: usize,
    /// The hash value after those blocks.
    pub hash: Hash,
    ghost within: { place ≤ message.count },
    ghost hashed: { hash ≡ hash_to message.bytes.now place },
}

impl<'a> Piece<'a> {
    ghost use Rattle.repo_sha.specs.inner.Batches.{IsOnBy};

    /// A piece of which no block was taken in.
    #[tactic(auto, unfolding(sha2::specs::Sha256::hash_after))]
    pub fn begin(number: usize, bytes: &'a [u8]) -> Piece<'a>
        ensures number { result.number ≡ number }
        ensures bytes { result.message.bytes.now ≡ bytes.now }
    {
        Piece {
            number,
            message: Message::of(bytes),
            place: 0,
            hash: INITIAL_HASH,
        }
    }

    /// How many of its blocks are left.
    pub fn left(&self) -> usize
        ensures { self.now.place + result ≡ self.now.message.count }
    {
        self.message.count - self.place
    }

    /// The piece after so many blocks more, which gave this hash value.
    pub fn moved(self, steps: usize, hash: Hash) -> Piece<'a>
        requires within { self.place + steps ≤ self.message.count }
        requires hash { hash ≡ hash_to self.message.bytes.now (self.place + steps) }
        ensures { IsOnBy steps self.entry result }
    {
        Piece {
            number: self.number,
            message: self.message,
            place: self.place + steps,
            hash,
        }
    }

    /// The digest of the piece, of which the rest is taken in alone.
    pub fn finish(&self) -> [u8; 32]
        ensures { result ≡ sha256 self.now.message.bytes.now }
    {
        finish(self.hash, &self.message, self.place)
    }
}
