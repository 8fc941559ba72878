//! Random bytes, and their chunks by the default parameters.

use crate::lines::ScriptError;
use repo_chunk::{Params, report_cuts};
use repo_name::{Name, name_of};
use std::alloc::{AllocError, Global};

/// The least and the greatest length of a chunk, and the zeros where one ends.
const DEFAULT: (u64, u64, u64) = (524_288, 8_388_608, 20);

/// How many of the last bytes are named.
const LAST: usize = 64;

/// So many bytes of a linear congruential generator, four of each state.
pub fn random_bytes(alloc: Global, size: usize) -> Result<Vec<u8>, AllocError> {
    let mut bytes = Vec::with_capacity(alloc, size)?;
    let mut state = 1u64;
    for _ in 0..size / 4 {
        state = state
            .wrapping_mul(6_364_136_223_846_793_005)
            .wrapping_add(1_442_695_040_888_963_407);
        bytes.extend_from_slice(&((state >> 32) as u32).to_be_bytes())?;
    }
    Ok(bytes)
}

/// The name of the last of so many random bytes.
pub fn last_random(alloc: Global, size: usize) -> Result<Name, ScriptError> {
    let bytes = random_bytes(alloc, size)?;
    Ok(name_of(&bytes[bytes.len().saturating_sub(LAST)..]))
}

/// The name of the lengths of the chunks of so many random bytes, eight bytes each.
pub fn chunked(alloc: Global, size: usize) -> Result<Name, ScriptError> {
    let (least, greatest, zeros) = DEFAULT;
    let Ok(params) = Params::new(least, greatest, zeros) else {
        return Err(ScriptError::Stopped);
    };
    let bytes = random_bytes(alloc, size)?;
    let mut lengths = Vec::new(alloc);
    let mut kept = Ok(());
    report_cuts(params, &[bytes.as_slice()], |length| {
        if kept.is_ok() {
            kept = lengths.extend_from_slice(&length.to_be_bytes());
        }
    });
    kept?;
    Ok(name_of(&lengths))
}
