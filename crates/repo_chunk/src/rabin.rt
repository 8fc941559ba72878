//! Rabin's fingerprint.

ghost use Rattle.std.specs.Prelude.{◌≡◌, ◌+◌, ◌*◌, ◌^◌, ◌<◌, fold};
ghost use Rattle.repo_chunk.specs.Rabin.{remainder, step, reduce, bits_of};

/// The polynomial that is divided by, of degree 53: bit i is the coefficient of the i-th power.
const POLYNOMIAL: u64 = 0x3D_A335_8B4D_C173;

/// The remainder of 64 bytes by the polynomial 0x3DA3358B4DC173 of degree 53, over the field of two elements: the
/// bytes are the coefficients, the highest bit of the first byte the highest (M. O. Rabin, "Fingerprinting by random
/// polynomials", 1981; restic's chunker computes the same).
#[tactic(auto, unfolding(crate::specs::Rabin::remainder))]
pub fn remainder(bytes: &[u8; 64]) -> u64
    ensures value { result ≡ remainder bytes.now }
    ensures degree { result < 2 ^ 53 }
{
    let mut so_far = 0;
    for byte in bytes {
        so_far = add_byte(so_far, *byte);
    }
    so_far
}

// One byte more, its highest bit first.
fn add_byte(start: u64, byte: u8) -> u64
    requires { start < 2 ^ 53 }
    ensures value { result ≡ fold step start (bits_of byte) }
    ensures degree { result < 2 ^ 53 }
{
    let mut so_far = start;
    for place in (0..8u32).rev() {
        so_far = add_bit(so_far, (byte >> place) & 1);
    }
    so_far
}

// One bit more.
fn add_bit(so_far: u64, bit: u8) -> u64
    requires degree { so_far < 2 ^ 53 }
    requires bit { bit < 2 }
    ensures value { result ≡ step so_far bit }
    ensures degree { result < 2 ^ 53 }
{
    reduced(2 * so_far + bit as u64)
}

// A number less the polynomial, where its degree is 53.
fn reduced(number: u64) -> u64
    requires { number < 2 ^ 54 }
    ensures value { result ≡ reduce number }
    ensures degree { result < 2 ^ 53 }
{
    if (number >> 53) & 1 == 1 {
        number ^ POLYNOMIAL
    } else {
        number
    }
}
