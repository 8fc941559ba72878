//! Where streams are cut, against values that other programs computed.

use crate::trials::Trial;
use repo_chunk::{ParamError, Params, remainder, report_cuts};
use std::alloc::{AllocError, Global};

// These lines of Python gave the lengths, as cuts(64, 256, 6, stream(5000)):
//
//     def remainder(window):
//         r = 0
//         for byte in window:
//             for place in range(7, -1, -1):
//                 r = 2 * r + (byte >> place & 1)
//                 if r >> 53 & 1: r ^= 0x3DA3358B4DC173
//         return r
//     def cuts(least, greatest, bits, data):
//         lengths = []
//         while data:
//             fits = (n for n in range(least, min(greatest, len(data)) + 1)
//                     if n == greatest or remainder(data[n - 64:n]) % 2 ** bits == 0)
//             lengths.append(next(fits, len(data)))
//             data = data[lengths[-1]:]
//         return lengths
//     def stream(count, state=1):
//         data = []
//         for _ in range(count):
//             state = (state * 1664525 + 1013904223) % 2 ** 32
//             data.append(state >> 24)
//         return data
//
// So does restic's chunker library, with its average of 6 bits.
const LENGTHS: [u64; 41] = [
    109, 148, 93, 107, 83, 108, 109, 146, 66, 67, 65, 79, 203, 77, 70, 101, 116, 78, 90, 66, 182,
    96, 215, 98, 227, 95, 256, 173, 64, 244, 101, 201, 80, 107, 106, 244, 106, 74, 239, 93, 18,
];

// Zeros, in hexadecimal, and zeros with some bytes behind them.
const ZEROS_63: &str =
    "000000000000000000000000000000000000000000000000000000000000000000000000000000000000000000000000000000000000000000000000000000";

const ZEROS_200: &str =
    "0000000000000000000000000000000000000000000000000000000000000000000000000000000000000000000000000000000000000000000000000000000000000000000000000000000000000000000000000000000000000000000000000000000000000000000000000000000000000000000000000000000000000000000000000000000000000000000000000000000000000000000000000000000000000000000000000000000000000000000000000000000000000000000000000000000000000000";

const CUT_AT_65: &str =
    "0000000000000000000000000000000000000000000000000000000000000000000000000000000000000000000000000000000000000000000000000000000140";

const CUT_AT_66: &str =
    "00000000000000000000000000000000000000000000000000000000000000000000000000000000000000000000000000000000000000000000000000000001010101";

/// The highest bytes of the numbers of a linear congruential generator.
fn stream(alloc: Global, count: usize) -> Result<Vec<u8>, AllocError> {
    let mut bytes = Vec::with_capacity(alloc, count)?;
    let mut state = 1u32;
    for _ in 0..count {
        state = state.wrapping_mul(1_664_525).wrapping_add(1_013_904_223);
        bytes.push(state.to_be_bytes()[0])?;
    }
    Ok(bytes)
}

/// The lengths of the chunks of the stream that these pieces make.
fn lengths_of(alloc: Global, params: Params, pieces: &[&[u8]]) -> Vec<u64> {
    let mut lengths = Vec::new(alloc);
    report_cuts(params, pieces, |n| {
        let _ = lengths.push(n);
    });
    lengths
}

/// The lengths of the chunks of some bytes that come in pieces of so many.
fn lengths_by(
    alloc: Global,
    params: Params,
    bytes: &[u8],
    size: usize,
) -> Result<Vec<u64>, AllocError> {
    let mut pieces = Vec::new(alloc);
    for piece in bytes.chunks(size.max(1)) {
        pieces.push(piece)?;
    }
    Ok(lengths_of(alloc, params, pieces.as_slice()))
}

/// Whether a chunk ends behind these bytes, as the rule of chunks says it.
fn ends(params: Params, chunk: &[u8]) -> bool {
    let length = chunk.len() as u64;
    let Some(window) = chunk.last_chunk::<64>() else {
        return false;
    };
    let is_cut = remainder(window).trailing_zeros() as u64 >= params.bits();
    length == params.max() || length >= params.min() && is_cut
}

/// The lengths of the chunks of some bytes, found at each length by itself.
fn plain_lengths(alloc: Global, params: Params, bytes: &[u8]) -> Result<Vec<u64>, AllocError> {
    let mut lengths = Vec::new(alloc);
    let mut begin = 0;
    for end in 1..=bytes.len() {
        let chunk = bytes.get(begin..end).unwrap_or(&[]);
        if ends(params, chunk) || end == bytes.len() {
            lengths.push(chunk.len() as u64)?;
            begin = end;
        }
    }
    Ok(lengths)
}

impl Trial {
    /// By a rule of these numbers, these bytes in pieces of so many are cut into chunks of these lengths.
    fn cuts_by(&mut self, rule: (u64, u64, u64), digits: &str, size: usize, wanted: &[u64]) {
        let bytes = self.bytes(digits);
        match Params::new(rule.0, rule.1, rule.2) {
            Ok(params) => match lengths_by(self.alloc, params, bytes.as_slice(), size) {
                Ok(lengths) => self.count(lengths.as_slice() == wanted),
                Err(_) => self.count(false),
            },
            Err(_) => self.count(false),
        }
    }

    /// These bytes in pieces of so many are cut where the rule by itself cuts them.
    fn cuts_plainly(&mut self, params: Params, bytes: &[u8], size: usize) {
        let lengths = lengths_by(self.alloc, params, bytes, size);
        let wanted = plain_lengths(self.alloc, params, bytes);
        match (lengths, wanted) {
            (Ok(lengths), Ok(wanted)) => self.count(lengths.as_slice() == wanted.as_slice()),
            _ => self.count(false),
        }
    }

    /// So are many bytes of the generator, whole, byte by byte, and in pieces of one byte less and more than a window.
    fn cuts_stream(&mut self, params: Params, count: usize) {
        match stream(self.alloc, count) {
            Ok(bytes) => {
                for size in [count, 1, 63, 65] {
                    self.cuts_plainly(params, bytes.as_slice(), size);
                }
            }
            Err(_) => self.count(false),
        }
    }

    /// By a rule of these numbers, so many bytes of the generator, in two pieces of which the first ends here, are cut into
    /// chunks of these lengths.
    fn cuts(&mut self, rule: (u64, u64, u64), count: usize, end: usize, wanted: &[u64]) {
        match (
            Params::new(rule.0, rule.1, rule.2),
            stream(self.alloc, count),
        ) {
            (Ok(params), Ok(bytes)) => {
                let (front, rest) = bytes.split_at(bytes.len().min(end));
                let lengths = lengths_of(self.alloc, params, &[front, rest]);
                self.count(lengths.as_slice() == wanted);
            }
            _ => self.count(false),
        }
    }

    /// No rule has these numbers, for this reason.
    fn refuses(&mut self, rule: (u64, u64, u64), reason: ParamError) {
        self.count(Params::new(rule.0, rule.1, rule.2).err() == Some(reason));
    }

    /// The remainder of 62 zeros and these two bytes.
    fn leaves_of_two(&mut self, last: [u8; 2], wanted: u64) {
        let mut bytes = [0u8; 64];
        bytes[62] = last[0];
        bytes[63] = last[1];
        self.count(remainder(&bytes) == wanted);
    }

    /// The remainder of 64 bytes, zeros but for this one at a place.
    fn leaves(&mut self, place: usize, byte: u8, wanted: u64) {
        let mut bytes = [0u8; 64];
        if let Some(at) = bytes.get_mut(place) {
            *at = byte;
        }
        self.count(remainder(&bytes) == wanted);
    }
}

#[test]
fn streams_are_cut_as_by_other_programs(rt: HostRuntime) {
    let mut trial = Trial::new(rt.alloc());
    // The bit 53 alone leaves the polynomial without its bit 53, and the bit 54 twice that, reduced again; the lines of
    // Python above give the same.
    trial.leaves(57, 0x20, 0x1D_A335_8B4D_C173);
    trial.leaves(57, 0x40, 0x06_E55E_9DD6_4395);
    trial.leaves(63, 0x01, 0x01);
    trial.leaves_of_two([0x01, 0x40], 0x140);
    // The other lengths are those of restic's chunker library with this polynomial.
    trial.cuts(
        (524_288, 8_388_608, 20),
        4_000_000,
        65_536,
        &[1_257_677, 895_311, 699_655, 1_147_357],
    );
    // Where bytes begin to count, at the least length, at the cut and at the greatest length, and a byte to each side.
    for end in [63, 64, 65, 127, 128, 129, 256, 257, 258, 299, 300, 301] {
        trial.cuts((64, 256, 6), 5_000, end, &LENGTHS);
        trial.cuts((128, 300, 6), 1_000, end, &[257, 200, 191, 139, 182, 31]);
        trial.cuts((128, 300, 20), 1_000, end, &[300, 300, 300, 100]);
    }
    trial.end(&rt);
}

// Zeros are cut at the greatest length. The remainder of 63 zeros and 1 is 1, and that of 62 zeros, 1 and 0x40 is 0x140: its
// lowest six bits are zeros.
#[test]
fn short_files_are_cut_as_by_hand(rt: HostRuntime) {
    let mut trial = Trial::new(rt.alloc());
    for size in [200, 1, 63, 64, 65] {
        trial.cuts_by((64, 128, 6), "", size, &[]);
        trial.cuts_by((64, 128, 6), ZEROS_63, size, &[63]);
        trial.cuts_by((64, 128, 6), ZEROS_200, size, &[64, 64, 64, 8]);
        trial.cuts_by((64, 128, 6), CUT_AT_65, size, &[65]);
        trial.cuts_by((64, 66, 6), CUT_AT_66, size, &[66, 1]);
    }
    trial.end(&rt);
}

#[test]
fn numbers_make_a_rule_within_their_limits(rt: HostRuntime) {
    let mut trial = Trial::new(rt.alloc());
    trial.refuses((63, 62, 0), ParamError::Least);
    trial.refuses((64, 63, 0), ParamError::Greatest);
    trial.refuses((64, 64, 33), ParamError::Bits);
    trial.cuts_by((64, 64, 32), "", 1, &[]);
    trial.end(&rt);
}

#[test]
fn a_stream_is_cut_as_by_the_rule_itself(rt: HostRuntime) {
    let mut trial = Trial::new(rt.alloc());
    match Params::new(64, 256, 6) {
        Ok(params) => trial.cuts_stream(params, 100_000),
        Err(_) => trial.count(false),
    }
    trial.end(&rt);
}
