//! Pieces that go through eight lanes side by side.

ghost use Rattle.std.specs.Prelude.{◌≡◌, ℕ, ◌+◌, ◌^◌, ◌<◌, ◌≤◌, [], None, IfNone, IfSome, IsSomeAnd, slice_index_or};
ghost use Rattle.sha2.specs.Sha256.{compress};
ghost use Rattle.repo_sha.specs.inner.Batches.{GoesOn, HasLeft, at};
ghost use Rattle.repo_sha.specs.inner.Lanes.{lane};
ghost use Rattle.repo_sha.specs.inner.Messages.{block_at, hash_to};

use crate::lane_rounds::{Hashes, compress_each, one_by_one, side_by_side};
use crate::pieces::Piece;
use crate::rounds::Hash;
use crate::schedules::first_words;

/// How many lanes there are.
pub const LANES: usize = 8;

/// What eight lanes have: each a piece, or nothing.
pub type Lanes<'a> = [Option<Piece<'a>>; LANES];

// What a lane without a piece is fed with.
static NOTHING: [u8; 64] = [0; 64];

// The block of a lane's piece so many steps on.
#[inline(always)]
fn block_of<'a>(lane: &'a Option<Piece<'_>>, step: usize) -> &'a [u8; 64]
    requires { step ≤ 2 ^ 60 }
    ensures { IfSome lane.now (λ piece. piece.place + step < piece.message.count
        → result.now ≡ block_at piece.message.bytes.now (piece.place + step)) }
{
    match lane {
        Some(piece) => piece.message.block(piece.place + step),
        None => &NOTHING,
    }
}

// The hash value of a lane's piece.
#[inline(always)]
fn hash_of(lane: &Option<Piece<'_>>) -> Hash
    ensures { IfSome lane.now (λ piece. result ≡ piece.hash) }
{
    match lane {
        Some(piece) => piece.hash,
        None => [0; 8],
    }
}

/// A lane whose piece ends after so many steps, and no lane's before.
#[derive(Clone, Copy)]
pub struct Turn {
    pub lane: usize,
    pub steps: usize,
}

/// The next turn; none where no lane has a piece.
pub fn next_turn(lanes: &Lanes<'_>) -> Option<Turn>
    ensures none { IfNone result ((j : ℕ) → j < 8 → at lanes.now j ≡ None) }
    ensures lane { IfSome result (λ turn. turn.lane < 8) }
    ensures steps { IfSome result (λ turn. turn.steps ≤ 2 ^ 60) }
    ensures ends { IfSome result (λ turn. IsSomeAnd (at lanes.now turn.lane)
        (λ piece. piece.place + turn.steps ≡ piece.message.count)) }
    ensures least { IfSome result (λ turn. (j : ℕ) → j < 8 → HasLeft turn.steps (at lanes.now j)) }
{
    let mut soonest = None;
    let mut steps = usize::MAX;
    'lanes: for lane in 0..LANES {
        if let Some(piece) = &lanes[lane] {
            if piece.left() < steps {
                soonest = Some(lane);
                steps = piece.left();
            }
        }
    }
    match soonest {
        Some(lane) => Some(Turn { lane, steps }),
        None => None,
    }
}

// The hash values of all lanes a step further: each with the block of its piece.
#[inline(always)]
fn step_each(hashes: Hashes, lanes: &Lanes<'_>, step: usize) -> Hashes
    requires { step ≤ 2 ^ 60 }
    ensures { (j : ℕ) → j < 8 → IfSome (at lanes.now j) (λ piece. piece.place + step < piece.message.count
        → lane j result ≡ compress (lane j hashes) (block_at piece.message.bytes.now (piece.place + step))) }
{
    let blocks = [
        block_of(&lanes[0], step),
        block_of(&lanes[1], step),
        block_of(&lanes[2], step),
        block_of(&lanes[3], step),
        block_of(&lanes[4], step),
        block_of(&lanes[5], step),
        block_of(&lanes[6], step),
        block_of(&lanes[7], step),
    ];
    compress_each(hashes, first_words(blocks))
}

// The hash values of all lanes side by side.
fn hashes_of(lanes: &Lanes<'_>) -> Hashes
    ensures { (j : ℕ) → j < 8 → IfSome (at lanes.now j) (λ piece. lane j result ≡ piece.hash) }
{
    side_by_side([
        hash_of(&lanes[0]),
        hash_of(&lanes[1]),
        hash_of(&lanes[2]),
        hash_of(&lanes[3]),
        hash_of(&lanes[4]),
        hash_of(&lanes[5]),
        hash_of(&lanes[6]),
        hash_of(&lanes[7]),
    ])
}

// The hash values of all lanes after so many steps, which each lane with a piece has left.
fn hashes_after(lanes: &Lanes<'_>, steps: usize) -> [Hash; 8]
    requires steps { steps ≤ 2 ^ 60 }
    requires left { (j : ℕ) → j < 8 → HasLeft steps (at lanes.now j) }
    ensures { (j : ℕ) → j < 8 → IfSome (at lanes.now j) (λ piece.
        slice_index_or result j [] ≡ hash_to piece.message.bytes.now (piece.place + steps)) }
{
    let mut hashes = hashes_of(lanes);
    'steps: for step in 0..steps {
        let after = step_each(hashes, lanes, step);
        hashes = after;
    }
    one_by_one(hashes)
}

// What a lane has after so many steps, which gave this hash value.
fn moved<'a>(lane: Option<Piece<'a>>, steps: usize, hash: Hash) -> Option<Piece<'a>>
    requires left { HasLeft steps lane }
    requires hash { IfSome lane (λ piece. hash ≡ hash_to piece.message.bytes.now (piece.place + steps)) }
    ensures { GoesOn steps lane.entry result }
{
    match lane {
        Some(piece) => Some(piece.moved(steps, hash)),
        None => None,
    }
}

/// Takes so many blocks more of each piece into its hash value, which each lane with a piece has left.
pub fn advance(lanes: &mut Lanes<'_>, steps: usize)
    requires steps { steps ≤ 2 ^ 60 }
    requires left { (j : ℕ) → j < 8 → HasLeft steps (at lanes.old j) }
    ensures { (j : ℕ) → j < 8 → GoesOn steps (at lanes.old j) (at lanes.new j) }
{
    let hashes = hashes_after(lanes, steps);
    'lanes: for lane in 0..LANES {
        let after = moved(lanes[lane], steps, hashes[lane]);
        lanes[lane] = after;
    }
}
