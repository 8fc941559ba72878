//! The rolling fingerprint: the remainder of a window of 64 bytes that moves along a stream.

ghost use Rattle.std.specs.Prelude.{◌≡◌, ℕ, ◌+◌, ◌%◌, ◌^◌, ◌<◌, ◌≤◌, ◌↔◌, IsTrue, List, [], ◌∷◌, ◌++◌, length};
ghost use Rattle.repo_chunk.specs.Rabin.{remainder};
ghost use Rattle.repo_chunk.specs.inner.Tables.{with_byte, high_part, leaving_part};
ghost use Rattle.repo_chunk.specs.inner.Rolling.{IsRoll, IsFirstMark};

use crate::tables::{high_part, leaving_part};

/// The 45 low bits of a remainder, which a further byte only moves.
const LOW_BITS: u64 = (1 << 45) - 1;

/// What a search along a stream found.
#[derive(Clone, Copy)]
pub enum Found {
    /// After this many bytes the window is the first whose remainder has zeros as its low bits.
    Mark(usize),
    /// There is no such window, and this is the remainder of the last.
    NoMark(u64),
}

/// The remainder of bytes of which these are the last and the others have this one.
pub fn with_bytes(fingerprint: u64, bytes: &[u8]) -> u64
    requires { fingerprint < 2 ^ 53 }
    ensures value { (front : List ℕ) → fingerprint ≡ remainder front → result ≡ remainder (front ++ bytes.now) }
    ensures degree { result < 2 ^ 53 }
{
    let mut so_far = fingerprint;
    for byte in bytes {
        so_far = with_byte(so_far, *byte);
    }
    so_far
}

/// The first marked window as the bytes of a piece come in behind a window, whose remainder this is.
pub fn find_mark(window: &[u8; 64], fingerprint: u64, piece: &[u8], bits: u64) -> Found
    requires bits { bits ≤ 32 }
    requires window { fingerprint ≡ remainder window.now }
    ensures { IsFirstMark bits (window.now ++ piece.now) (length piece.now) result }
{
    let (near, far) = piece.split_at(piece.len().min(64));
    match scan(fingerprint, &window[..near.len()], near, bits) {
        Found::Mark(n) => Found::Mark(n),
        Found::NoMark(fingerprint) => match scan(fingerprint, &piece[..far.len()], far, bits) {
            Found::Mark(n) => Found::Mark(near.len() + n),
            Found::NoMark(fingerprint) => Found::NoMark(fingerprint),
        },
    }
}

// The first marked window as bytes leave a window with this remainder, and others come in.
fn scan(fingerprint: u64, leaving: &[u8], entering: &[u8], bits: u64) -> Found
    requires bits { bits ≤ 32 }
    requires degree { fingerprint < 2 ^ 53 }
    requires lengths { length leaving.now ≡ length entering.now }
    ensures { (bytes : List ℕ) → IsRoll bytes fingerprint leaving.now entering.now
        → IsFirstMark bits bytes (length entering.now) result }
{
    let mut so_far = fingerprint;
    for (i, newest) in entering.iter().enumerate() {
        so_far = rolled(so_far, leaving[i], *newest);
        if is_marked(so_far, bits) {
            return Found::Mark(i + 1);
        }
    }
    Found::NoMark(so_far)
}

/// Whether the low bits of a remainder are zero.
#[inline]
pub fn is_marked(fingerprint: u64, bits: u64) -> bool
    requires { bits ≤ 32 }
    ensures { IsTrue result ↔ (fingerprint % 2 ^ bits ≡ 0) }
{
    fingerprint & ((1 << bits) - 1) == 0
}

// The remainder of a window that loses its oldest byte and gets a newest one.
#[inline]
fn rolled(fingerprint: u64, oldest: u8, newest: u8) -> u64
    requires { fingerprint < 2 ^ 53 }
    ensures value { (middle : List ℕ) → length middle ≡ 63 → fingerprint ≡ remainder (oldest ∷ middle)
        → result ≡ remainder (middle ++ newest ∷ []) }
    ensures degree { result < 2 ^ 53 }
{
    with_byte(fingerprint, newest) ^ leaving_part(oldest)
}

// A remainder with one byte more.
#[inline]
fn with_byte(so_far: u64, byte: u8) -> u64
    requires { so_far < 2 ^ 53 }
    ensures value { result ≡ with_byte so_far byte }
    ensures degree { result < 2 ^ 53 }
{
    let moved = ((so_far & LOW_BITS) << 8) + byte as u64;
    moved ^ high_part((so_far >> 45) as usize)
}
