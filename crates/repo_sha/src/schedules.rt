//! The schedules of eight blocks side by side (6.2.2, step 1).

ghost use Rattle.std.specs.Prelude.{◌≡◌, ℕ, ◌+◌, ◌*◌, ◌<◌, ◌≤◌, List, [], map, slice_index, slice_index_or, slice_set};
ghost use Rattle.sha2.specs.Sha256.{window_word, word_at};
ghost use Rattle.repo_sha.specs.inner.Lanes.{words_in};
ghost use Rattle.repo_sha.specs.inner.Schedules.{Begins, HasSums, IsScheduledTo, blocks_of};

use crate::constants::ROUND_CONSTANTS;
use crate::lanes::{add, small_sigma0, small_sigma1};
use std::simd::prelude::*;

/// The last 16 words of eight schedules: word t stands at t % 16, with a lane for each block.
pub type Window = [u32x8; 16];

/// The schedules of eight blocks with their constants: K t + W t of each at t.
pub type Sums = [[u32; 8]; 64];

// Word t of a block.
#[inline(always)]
fn word(block: &[u8; 64], t: usize) -> u32
    requires { t < 16 }
    ensures { result ≡ word_at block.now (4 * t) }
{
    u32::from_be_bytes([
        block[4 * t],
        block[4 * t + 1],
        block[4 * t + 2],
        block[4 * t + 3],
    ])
}

// Word t of each block.
#[inline(always)]
fn words(blocks: [&[u8; 64]; 8], t: usize) -> u32x8
    requires { t < 16 }
    ensures { result ≡ map (λ block. word_at block.now (4 * t)) blocks.entry }
{
    u32x8::from_array([
        word(blocks[0], t),
        word(blocks[1], t),
        word(blocks[2], t),
        word(blocks[3], t),
        word(blocks[4], t),
        word(blocks[5], t),
        word(blocks[6], t),
        word(blocks[7], t),
    ])
}

/// The first words of the schedules of eight blocks: the blocks' own.
#[inline(always)]
pub fn first_words(blocks: [&[u8; 64]; 8]) -> Window
    ensures { (j : ℕ) → j < 8 → Begins j result (slice_index_or (blocks_of blocks.entry) j []) }
{
    let mut window = [u32x8::splat(0); 16];
    'words: for t in 0..16 {
        window[t] = words(blocks, t);
    }
    window
}

/// The next word of each schedule, which takes the place of the word 16 before it.
#[inline(always)]
pub fn next_word(window: &mut Window, place: usize) -> u32x8
    requires { place < 16 }
    ensures value { (j : ℕ) → j < 8 → slice_index result j ≡ window_word (words_in j window.old) place }
    ensures window { window.new ≡ slice_set window.old place result }
{
    let near = add(
        small_sigma1(window[(place + 14) % 16]),
        window[(place + 9) % 16],
    );
    let far = small_sigma0(window[(place + 1) % 16]);
    let word = add(add(near, far), window[place]);
    window[place] = word;
    word
}

// One of the first 16 sums, whose words are the blocks' own.
#[inline(always)]
fn put_first(window: &Window, sums: &mut Sums, t: usize)
    requires { t < 16 }
    ensures { (j : ℕ) → j < 8 → (block : List ℕ) → Begins j window.now block → HasSums j sums.old block t
        → HasSums j sums.new block (t + 1) }
{
    sums[t] = add(u32x8::splat(ROUND_CONSTANTS[t]), window[t]).to_array();
}

// The sum of word 16 * turn + place, from word 16 on.
#[inline(always)]
fn put_next(window: &mut Window, sums: &mut Sums, turn: usize, place: usize)
    requires turn { (1 ≤ turn) × (turn < 4) }
    requires place { place < 16 }
    ensures { (j : ℕ) → j < 8 → (block : List ℕ) → IsScheduledTo j window.old sums.old block (16 * turn + place)
        → IsScheduledTo j window.new sums.new block (16 * turn + (place + 1)) }
{
    let word = next_word(window, place);
    let constant = u32x8::splat(ROUND_CONSTANTS[16 * turn + place]);
    sums[16 * turn + place] = add(constant, word).to_array();
}

#[inline(always)]
fn put_four(window: &mut Window, sums: &mut Sums, turn: usize, place: usize)
    requires turn { (1 ≤ turn) × (turn < 4) }
    requires place { place + 4 ≤ 16 }
    ensures { (j : ℕ) → j < 8 → (block : List ℕ) → IsScheduledTo j window.old sums.old block (16 * turn + place)
        → IsScheduledTo j window.new sums.new block (16 * turn + (place + 4)) }
{
    put_next(window, sums, turn, place);
    put_next(window, sums, turn, place + 1);
    put_next(window, sums, turn, place + 2);
    put_next(window, sums, turn, place + 3);
}

// The first 16 sums.
fn put_firsts(window: &Window, sums: &mut Sums)
    ensures { (j : ℕ) → j < 8 → (block : List ℕ) → Begins j window.now block → HasSums j sums.new block 16 }
{
    'firsts: for t in 0..16 {
        put_first(window, sums, t);
    }
}

/// Puts the sums of eight blocks in place of those that stand there.
pub fn put_sums(blocks: [&[u8; 64]; 8], sums: &mut Sums)
    ensures { (j : ℕ) → j < 8 → HasSums j sums.new (slice_index_or (blocks_of blocks.entry) j []) 64 }
{
    let mut window = first_words(blocks);
    put_firsts(&window, sums);
    'turns: for turn in 1..4 {
        put_four(&mut window, sums, turn, 0);
        put_four(&mut window, sums, turn, 4);
        put_four(&mut window, sums, turn, 8);
        put_four(&mut window, sums, turn, 12);
    }
}
