//! The functions of the standard on words (4.1.2) in each of eight lanes.

ghost use Rattle.std.specs.Prelude.{◌≡◌, ℕ, ◌/◌, ◌^◌, ◌<◌, slice_index};
ghost use Rattle.std.specs.Int.{w32, bit_not, rotate_right};
ghost use Rattle.std.specs.Int.Bits.{bit_and, bit_xor};
ghost use Rattle.sha2.specs.Sha256.{add32, big_sigma0, big_sigma1, ch, maj, small_sigma0, small_sigma1};

use std::simd::prelude::*;

/// The sum of two words.
#[inline(always)]
pub fn add(a: u32x8, b: u32x8) -> u32x8
    ensures { (j : ℕ) → j < 8 → slice_index result j ≡ add32 (slice_index a j) (slice_index b j) }
{
    a + b
}

#[inline(always)]
fn xor(a: u32x8, b: u32x8) -> u32x8
    ensures { (j : ℕ) → j < 8 → slice_index result j ≡ bit_xor (slice_index a j) (slice_index b j) }
{
    a ^ b
}

#[inline(always)]
fn and(a: u32x8, b: u32x8) -> u32x8
    ensures { (j : ℕ) → j < 8 → slice_index result j ≡ bit_and (slice_index a j) (slice_index b j) }
{
    a & b
}

#[inline(always)]
fn not(a: u32x8) -> u32x8
    ensures { (j : ℕ) → j < 8 → slice_index result j ≡ bit_not w32 (slice_index a j) }
{
    !a
}

// Each word rotated to the right.
#[inline(always)]
fn rotated(x: u32x8, k: u32) -> u32x8
    requires { (0 < k) × (k < 32) }
    ensures { (j : ℕ) → j < 8 → slice_index result j ≡ rotate_right w32 (slice_index x j) k }
{
    (x >> u32x8::splat(k)) | (x << u32x8::splat(32 - k))
}

// Each word shifted to the right.
#[inline(always)]
fn shifted(x: u32x8, k: u32) -> u32x8
    requires { k < 32 }
    ensures { (j : ℕ) → j < 8 → slice_index result j ≡ slice_index x j / 2 ^ k }
{
    x >> u32x8::splat(k)
}

/// The upper case sigma 0.
#[inline(always)]
pub fn big_sigma0(x: u32x8) -> u32x8
    ensures { (j : ℕ) → j < 8 → slice_index result j ≡ big_sigma0 (slice_index x j) }
{
    xor(xor(rotated(x, 2), rotated(x, 13)), rotated(x, 22))
}

/// The upper case sigma 1.
#[inline(always)]
pub fn big_sigma1(x: u32x8) -> u32x8
    ensures { (j : ℕ) → j < 8 → slice_index result j ≡ big_sigma1 (slice_index x j) }
{
    xor(xor(rotated(x, 6), rotated(x, 11)), rotated(x, 25))
}

/// The lower case sigma 0.
#[inline(always)]
pub fn small_sigma0(x: u32x8) -> u32x8
    ensures { (j : ℕ) → j < 8 → slice_index result j ≡ small_sigma0 (slice_index x j) }
{
    xor(xor(rotated(x, 7), rotated(x, 18)), shifted(x, 3))
}

/// The lower case sigma 1.
#[inline(always)]
pub fn small_sigma1(x: u32x8) -> u32x8
    ensures { (j : ℕ) → j < 8 → slice_index result j ≡ small_sigma1 (slice_index x j) }
{
    xor(xor(rotated(x, 17), rotated(x, 19)), shifted(x, 10))
}

/// Ch: the bits of `y` where `x` has ones, those of `z` elsewhere.
#[inline(always)]
pub fn ch(x: u32x8, y: u32x8, z: u32x8) -> u32x8
    ensures { (j : ℕ) → j < 8 → slice_index result j ≡ ch (slice_index x j) (slice_index y j) (slice_index z j) }
{
    xor(and(x, y), and(not(x), z))
}

/// Maj: the bits that most of the three have. One round's `x ^ y` is the next round's `y ^ z`, so it is made once.
#[inline(always)]
pub fn maj(x: u32x8, y: u32x8, z: u32x8) -> u32x8
    ensures { (j : ℕ) → j < 8 → slice_index result j ≡ maj (slice_index x j) (slice_index y j) (slice_index z j) }
{
    xor(y, and(xor(x, y), xor(y, z)))
}
