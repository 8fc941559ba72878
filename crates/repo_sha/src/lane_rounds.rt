//! The rounds over a block of each of eight messages side by side (6.2.2, steps 2 to 4).

ghost use Rattle.std.specs.Prelude.{◌≡◌, ℕ, ◌+◌, ◌*◌, ◌<◌, ◌≤◌, List, [], slice_index, slice_index_or};
ghost use Rattle.sha2.specs.Sha256.{IsRoundsAt, compress, round, rounds};
ghost use Rattle.repo_sha.specs.inner.Lanes.{lane, lane_word, words_in};
ghost use Rattle.repo_sha.specs.inner.Schedules.{Begins, schedule_of};

use crate::constants::ROUND_CONSTANTS;
use crate::lanes::{add, big_sigma0, big_sigma1, ch, maj};
use crate::rounds::Hash;
use crate::schedules::{Window, next_word};
use std::simd::prelude::*;

/// Eight hash values side by side: each word is a vector, with a lane for each.
pub type Hashes = [u32x8; 8];

// One round of each lane (6.2.2, step 3).
#[inline(always)]
fn round(v: Hashes, constant: u32, word: u32x8) -> Hashes
    ensures { (j : ℕ) → j < 8 → lane j result ≡ round (lane j v) constant (slice_index word j) }
{
    let [a, b, c, d, e, f, g, h] = v;
    let constants = u32x8::splat(constant);
    let temp1 = add(
        add(add(add(h, big_sigma1(e)), ch(e, f, g)), constants),
        word,
    );
    let temp2 = add(big_sigma0(a), maj(a, b, c));
    [add(temp1, temp2), a, b, c, add(d, temp1), e, f, g]
}

// One of the first 16 rounds, whose words are the blocks' own.
#[inline(always)]
fn first_step(window: &Window, v: Hashes, t: usize) -> Hashes
    requires { t < 16 }
    ensures { (j : ℕ) → j < 8 → (block h : List ℕ) → Begins j window.now block
        → lane j v ≡ rounds h (schedule_of block) t → lane j result ≡ rounds h (schedule_of block) (t + 1) }
{
    round(v, ROUND_CONSTANTS[t], window[t])
}

#[inline(always)]
fn four_first_steps(window: &Window, v: Hashes, t: usize) -> Hashes
    requires { t + 4 ≤ 16 }
    ensures { (j : ℕ) → j < 8 → (block h : List ℕ) → Begins j window.now block
        → lane j v ≡ rounds h (schedule_of block) t → lane j result ≡ rounds h (schedule_of block) (t + 4) }
{
    let v = first_step(window, v, t);
    let v = first_step(window, v, t + 1);
    let v = first_step(window, v, t + 2);
    first_step(window, v, t + 3)
}

// Round 16 * turn + place, from round 16 on.
#[inline(always)]
fn step(window: &mut Window, v: Hashes, turn: usize, place: usize) -> Hashes
    requires turn { (1 ≤ turn) × (turn < 4) }
    requires place { place < 16 }
    ensures { (j : ℕ) → j < 8 → (block h : List ℕ)
        → IsRoundsAt block h (words_in j window.old) (lane j v) (16 * turn + place)
        → IsRoundsAt block h (words_in j window.new) (lane j result) (16 * turn + (place + 1)) }
{
    let word = next_word(window, place);
    round(v, ROUND_CONSTANTS[16 * turn + place], word)
}

#[inline(always)]
fn four_steps(window: &mut Window, v: Hashes, turn: usize, place: usize) -> Hashes
    requires turn { (1 ≤ turn) × (turn < 4) }
    requires place { place + 4 ≤ 16 }
    ensures { (j : ℕ) → j < 8 → (block h : List ℕ)
        → IsRoundsAt block h (words_in j window.old) (lane j v) (16 * turn + place)
        → IsRoundsAt block h (words_in j window.new) (lane j result) (16 * turn + (place + 4)) }
{
    let v = step(window, v, turn, place);
    let v = step(window, v, turn, place + 1);
    let v = step(window, v, turn, place + 2);
    step(window, v, turn, place + 3)
}

// The 64 rounds of each lane, whose first words stand in the window.
#[inline(always)]
fn all_steps(hashes: Hashes, mut window: Window) -> Hashes
    ensures { (j : ℕ) → j < 8 → (block : List ℕ) → Begins j window block
        → lane j result ≡ rounds (lane j hashes) (schedule_of block) 64 }
{
    let v = four_first_steps(&window, hashes, 0);
    let v = four_first_steps(&window, v, 4);
    let v = four_first_steps(&window, v, 8);
    let mut v = four_first_steps(&window, v, 12);
    'turns: for turn in 1..4 {
        let after = four_steps(&mut window, v, turn, 0);
        let after = four_steps(&mut window, after, turn, 4);
        let after = four_steps(&mut window, after, turn, 8);
        let after = four_steps(&mut window, after, turn, 12);
        v = after;
    }
    v
}

/// The hash values after one block more of each message, whose first words stand in the window.
#[inline(always)]
pub fn compress_each(hashes: Hashes, window: Window) -> Hashes
    ensures { (j : ℕ) → j < 8 → (block : List ℕ) → Begins j window block
        → lane j result ≡ compress (lane j hashes) block }
{
    let v = all_steps(hashes, window);
    [
        add(hashes[0], v[0]),
        add(hashes[1], v[1]),
        add(hashes[2], v[2]),
        add(hashes[3], v[3]),
        add(hashes[4], v[4]),
        add(hashes[5], v[5]),
        add(hashes[6], v[6]),
        add(hashes[7], v[7]),
    ]
}

/// Hash values side by side: each word of each in its lane.
pub fn side_by_side(hashes: [Hash; 8]) -> Hashes
    ensures { (j k : ℕ) → j < 8 → k < 8 → lane_word result k j ≡ slice_index (slice_index_or hashes j []) k }
{
    let mut words = [u32x8::splat(0); 8];
    'words: for k in 0..8 {
        words[k] = u32x8::from_array([
            hashes[0][k],
            hashes[1][k],
            hashes[2][k],
            hashes[3][k],
            hashes[4][k],
            hashes[5][k],
            hashes[6][k],
            hashes[7][k],
        ]);
    }
    words
}

/// The hash values of the lanes, each for itself.
pub fn one_by_one(hashes: Hashes) -> [Hash; 8]
    ensures { (j : ℕ) → j < 8 → slice_index_or result j [] ≡ lane j hashes }
{
    let words = [
        hashes[0].to_array(),
        hashes[1].to_array(),
        hashes[2].to_array(),
        hashes[3].to_array(),
        hashes[4].to_array(),
        hashes[5].to_array(),
        hashes[6].to_array(),
        hashes[7].to_array(),
    ];
    let mut apart = [[0; 8]; 8];
    'lanes: for j in 0..8 {
        apart[j] = [
            words[0][j],
            words[1][j],
            words[2][j],
            words[3][j],
            words[4][j],
            words[5][j],
            words[6][j],
            words[7][j],
        ];
    }
    apart
}
