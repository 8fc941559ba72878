//! One message, whose schedules are made eight at a time.

ghost use Rattle.std.specs.Prelude.{◌≡◌, ℕ, ◌+◌, ◌<◌, ◌≤◌, min};
ghost use Rattle.sha2.specs.Sha256.{digest_bytes, sha256};
ghost use Rattle.repo_sha.specs.inner.Messages.{block_at, hash_to};
ghost use Rattle.repo_sha.specs.inner.Schedules.{HasSums};

use crate::constants::INITIAL_HASH;
use crate::messages::Message;
use crate::rounds::{Hash, compress};
use crate::schedules::{Sums, put_sums};
use sha2::{Digest, Sha256};

/// Below so many bytes eight schedules cost more than they save.
const SHORT: usize = 256;

// Puts the sums of the eight blocks from a place on, where there are so many.
#[inline(always)]
fn put_sums_at(message: &Message<'_>, place: usize, sums: &mut Sums)
    requires { place < message.now.count }
    ensures { (j : ℕ) → j < 8 → place + j < message.now.count → HasSums j sums.new (block_at message.now.bytes.now (place + j)) 64 }
{
    let blocks = [
        message.block(place),
        message.block(place + 1),
        message.block(place + 2),
        message.block(place + 3),
        message.block(place + 4),
        message.block(place + 5),
        message.block(place + 6),
        message.block(place + 7),
    ];
    put_sums(blocks, sums);
}

// The hash value after eight blocks more, or fewer where the message ends.
fn take_eight(hash: Hash, message: &Message<'_>, place: usize, sums: &mut Sums) -> Hash
    requires place { place < message.now.count }
    requires hash { hash ≡ hash_to message.now.bytes.now place }
    ensures { result ≡ hash_to message.now.bytes.now (min (place + 8) message.now.count) }
{
    put_sums_at(message, place, sums);
    let mut hash = hash;
    'lanes: for lane in 0..8.min(message.count - place) {
        let after = compress(hash, sums, lane);
        hash = after;
    }
    hash
}

// The hash value after all blocks of a message, from that after its blocks below a place.
fn take_rest(hash: Hash, message: &Message<'_>, place: usize) -> Hash
    requires place { place ≤ message.now.count }
    requires hash { hash ≡ hash_to message.now.bytes.now place }
    ensures { result ≡ hash_to message.now.bytes.now message.now.count }
{
    let mut sums = [[0u32; 8]; 64];
    let mut hash = hash;
    'groups: for group in 0..(message.count - place).div_ceil(8) {
        let after = take_eight(hash, message, place + 8 * group, &mut sums);
        hash = after;
    }
    hash
}

// A hash value in bytes, of each word the highest first.
fn bytes_of(hash: Hash) -> [u8; 32]
    ensures { result ≡ digest_bytes hash 8 }
{
    let mut bytes = [0; 32];
    'words: for i in 0..8 {
        bytes[4 * i..4 * i + 4].copy_from_slice(&hash[i].to_be_bytes());
    }
    bytes
}

/// The digest of a message, from the hash value after its blocks below a place.
pub fn finish(hash: Hash, message: &Message<'_>, place: usize) -> [u8; 32]
    requires place { place ≤ message.now.count }
    requires hash { hash ≡ hash_to message.now.bytes.now place }
    ensures { result ≡ sha256 message.now.bytes.now }
{
    bytes_of(take_rest(hash, message, place))
}

/// The SHA-256 of these bytes. It takes no memory and always succeeds.
#[tactic(auto, unfolding(sha2::specs::Sha256::hash_after))]
pub fn digest(bytes: &[u8]) -> [u8; 32]
    ensures { result ≡ sha256 bytes.now }
{
    if bytes.len() < SHORT {
        return Sha256::digest(bytes);
    }
    let message = Message::of(bytes);
    finish(INITIAL_HASH, &message, 0)
}
