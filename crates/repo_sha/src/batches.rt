//! The digests of many pieces, eight side by side.

ghost use Rattle.std.specs.Prelude.{◌≡◌, ℕ, ◌<◌, List, None, IfOk, IfSome, length, map, slice_set};
ghost use Rattle.sha2.specs.Sha256.{sha256};
ghost use Rattle.repo_sha.specs.inner.Batches.{AreAmong, GoesOn, IsUnderWay, at, with_digest};
ghost use Rattle.repo_sha.specs.Pieces.{pieces};

use crate::pieces::Piece;
use crate::turns::{LANES, Lanes, advance, next_turn};
use std::alloc::{AllocError, Global};

/// So few pieces are faster one after another than side by side.
const ALONE: usize = 2;

// Puts the digest of a lane's piece at its number, and leaves the lane empty.
fn release(lanes: &mut Lanes<'_>, lane: usize, digests: &mut [[u8; 32]])
    requires lane { lane < 8 }
    requires number { IfSome (at lanes.old lane) (λ piece. piece.number < length digests.old) }
    ensures lanes { lanes.new ≡ slice_set lanes.old lane None }
    ensures digests { digests.new ≡ with_digest (at lanes.old lane) digests.old }
{
    if let Some(piece) = lanes[lane] {
        digests[piece.number] = piece.finish();
    }
    lanes[lane] = None;
}

// Goes on in all lanes until a piece ends, and answers its lane.
fn go_on(lanes: &mut Lanes<'_>) -> usize
    ensures lane { result < 8 }
    ensures same { (steps : ℕ) × ((j : ℕ) → j < 8 → GoesOn steps (at lanes.old j) (at lanes.new j)) }
    ensures ended { IfSome (at lanes.new result) (λ piece. piece.place ≡ piece.message.count) }
{
    match next_turn(lanes) {
        Some(turn) => {
            advance(lanes, turn.steps);
            turn.lane
        }
        None => 0,
    }
}

// Begins all pieces, each in a lane of its own: the first eight in the empty ones, the others where a piece ends.
fn begin_all<'a>(
    bytes: &'a [u8],
    lengths: &[usize],
    lanes: &mut Lanes<'a>,
    digests: &mut [[u8; 32]],
)
    requires count { length digests.old ≡ length lengths.now }
    requires empty { (j : ℕ) → j < 8 → at lanes.old j ≡ None }
    ensures { IsUnderWay (pieces bytes.now lengths.now) (length lengths.now) lanes.new digests.new }
{
    let mut rest = bytes;
    'pieces: for number in 0..lengths.len() {
        let lane = if number < LANES { number } else { go_on(lanes) };
        release(lanes, lane, digests);
        let (piece, behind) = rest.split_at(lengths[number].min(rest.len()));
        lanes[lane] = Some(Piece::begin(number, piece));
        rest = behind;
    }
}

// Ends so many pieces, in all lanes side by side.
fn end_some(count: usize, lanes: &mut Lanes<'_>, digests: &mut [[u8; 32]])
    requires { AreAmong (length digests.old) lanes.old }
    ensures among { AreAmong (length digests.new) lanes.new }
    ensures held { (texts : List (List ℕ)) → IsUnderWay texts (length texts) lanes.old digests.old
        → IsUnderWay texts (length texts) lanes.new digests.new }
{
    'turns: for _ in 0..count {
        let lane = go_on(lanes);
        release(lanes, lane, digests);
    }
}

// Ends each piece that is left, for itself.
fn end_all(lanes: &mut Lanes<'_>, digests: &mut [[u8; 32]])
    requires { AreAmong (length digests.old) lanes.old }
    ensures { (texts : List (List ℕ)) → IsUnderWay texts (length texts) lanes.old digests.old
        → digests.new ≡ map sha256 texts }
{
    'lanes: for lane in 0..LANES {
        release(lanes, lane, digests);
    }
}

/// The SHA-256 of each piece, in their order. The pieces stand one after another in the bytes, each of its length: where
/// the bytes end early, the last pieces are shorter or empty, and bytes behind the last piece belong to none.
///
/// It fails for memory alone.
pub fn digests(alloc: Global, bytes: &[u8], lengths: &[usize]) -> Result<Vec<[u8; 32]>, AllocError>
    ensures { IfOk result (λ digests. digests.items ≡ map sha256 (pieces bytes.now lengths.now)) }
{
    let mut digests = vec![in alloc; [0; 32]; lengths.len()]?;
    let mut lanes = [None; LANES];
    begin_all(bytes, lengths, &mut lanes, &mut digests);
    end_some(
        lengths.len().min(LANES).saturating_sub(ALONE),
        &mut lanes,
        &mut digests,
    );
    end_all(&mut lanes, &mut digests);
    Ok(digests)
}
