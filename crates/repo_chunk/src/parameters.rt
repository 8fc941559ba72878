//! The parameters of the chunk rule.

ghost use Rattle.std.specs.Prelude.{◌≡◌, ◌<◌, ◌≤◌, ◌↔◌, ◌⊎◌, IfOk, IsOk, IsErrOf};
ghost use Rattle.repo_chunk.specs.Parameters.{AreLawful};
ghost use Rattle.repo_name.specs.Limits.{blob_limit};

use repo_name::BLOB_LIMIT;
use std::marker::Model;
use thiserror::Error;

/// Why three numbers are no parameters. Of several reasons the first in this order is told.
#[derive(Clone, Copy, Debug, PartialEq, Eq, Error)]
pub enum ParamError {
    /// The least length is under the 64 bytes whose remainder decides.
    #[error("the least length of a chunk is under 64")]
    Least,
    /// The greatest length is under the least, or over 8,388,608 bytes.
    #[error("the greatest length of a chunk is under the least or over 8388608")]
    Greatest,
    /// The number of bits is 0 or above 32.
    #[error("the number of bits is 0 or above 32")]
    Bits,
}

/// What fixes the chunk rule: the least and the greatest length of a chunk in bytes, and how many low bits of the
/// remainder are zero where a chunk ends. A value is always within the bounds of [`Params::new`].
#[derive(Clone, Copy, Debug, PartialEq, Eq)]
pub struct Params {
    least: u64,
    greatest: u64,
    zeros: u64,
}

impl Model for Params {
    ghost use Rattle.repo_chunk.specs.Parameters.{Parameters, AreLawful};

    ghost Value = { Parameters };

    ghost view = { λ p. record { min = p.least; max = p.greatest; bits = p.zeros } };

    ghost invariant = { λ p. AreLawful (record { min = p.least; max = p.greatest; bits = p.zeros }) };

    ghost inverse = { λ p. record { least = p.min; greatest = p.max; zeros = p.bits } };
}

impl Params {
    /// The parameters of these three numbers. Where several are refused, the first reason in the order of
    /// [`ParamError`] is told.
    pub fn new(min: u64, max: u64, bits: u64) -> Result<Params, ParamError>
        ensures ok { IfOk result (λ p. p ≡ record { min = min; max = max; bits = bits }) }
        ensures lawful { IsOk result ↔ AreLawful (record { min = min; max = max; bits = bits }) }
        ensures least { IsErrOf result ParamError.Least ↔ (min < 64) }
        ensures greatest { IsErrOf result ParamError.Greatest ↔ ((64 ≤ min) × ((max < min) ⊎ (blob_limit < max))) }
        ensures bits { IsErrOf result ParamError.Bits
            ↔ ((64 ≤ min) × (min ≤ max) × (max ≤ blob_limit) × ((bits ≡ 0) ⊎ (32 < bits))) }
    {
        if min < 64 {
            return Err(ParamError::Least);
        }
        if max < min || max > BLOB_LIMIT as u64 {
            return Err(ParamError::Greatest);
        }
        if bits == 0 || bits > 32 {
            return Err(ParamError::Bits);
        }
        Ok(Params {
            least: min,
            greatest: max,
            zeros: bits,
        })
    }

    /// The least length of a chunk that is not the last, in bytes.
    pub fn min(&self) -> u64
        ensures value { result ≡ self.now.min }
        ensures lawful { AreLawful self.now }
    {
        self.least
    }

    /// The greatest length of a chunk, in bytes.
    pub fn max(&self) -> u64
        ensures value { result ≡ self.now.max }
        ensures lawful { AreLawful self.now }
    {
        self.greatest
    }

    /// How many low bits of the remainder are zero where a chunk ends before its greatest length.
    pub fn bits(&self) -> u64
        ensures value { result ≡ self.now.bits }
        ensures lawful { AreLawful self.now }
    {
        self.zeros
    }
}
