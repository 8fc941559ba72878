//! Names by SHA-256, and their hexadecimal text.

ghost use Rattle.std.specs.Prelude.{◌≡◌, ◌≢◌, ◌↔◌, ℕ, length, IfOk, IsOk, IsErrOf, IsTrue, string_bytes};
ghost use Rattle.hex.specs.Hex.{IsBytes};
ghost use Rattle.repo_name.specs.Naming.{name, hex_of, IsName, IsInstance};
ghost use Rattle.repo_name.specs.declared.names.Name.{Name};
ghost use Rattle.repo_name.specs.declared.names.NameError.{NameError};

use hex::FromHex;
use repo_sha::digest;
use std::alloc::{AllocError, Global};
use thiserror::Error;

/// The name of some bytes: their SHA-256 (FIPS 180-4), 32 bytes. Names go by their bytes, the first
/// ones first.
#[derive(Clone, Copy, Debug, PartialEq, Eq, PartialOrd, Ord)]
pub struct Name(pub [u8; 32]);

/// What tells one client from another: 16 bytes, drawn at random. Instances go by their bytes.
#[derive(Clone, Copy, Debug, PartialEq, Eq, PartialOrd, Ord)]
pub struct Instance(pub [u8; 16]);

/// Why a text is no name.
#[derive(Clone, Copy, Debug, PartialEq, Eq, Error)]
pub enum NameError {
    /// It hasn't 64 bytes.
    #[error("a name has 64 digits")]
    Length,
    /// It has 64 bytes, and one of them is none of `0` to `9` and `a` to `f`.
    #[error("a name's digits are 0 to 9 and a to f")]
    Digit,
}

/// The name of these bytes. It takes no memory and always succeeds.
pub fn name_of(bytes: &[u8]) -> Name
    ensures value { result ≡ name bytes.now }
    ensures name { IsName result }
{
    Name(digest(bytes))
}

impl Instance {
    /// The instance's 16 bytes.
    pub fn to_bytes(self) -> [u8; 16]
        ensures bytes { result ≡ self.0 }
        ensures instance { IsInstance self }
    {
        self.0
    }
}

impl Name {
    /// The name's 32 bytes.
    pub fn to_bytes(self) -> [u8; 32]
        ensures bytes { result ≡ self.0 }
        ensures name { IsName self }
    {
        self.0
    }

    /// The name's 64 digits, in lower case. It fails for memory alone.
    pub fn to_hex(&self, alloc: Global) -> Result<String, AllocError>
        ensures text { IfOk result (λ text. string_bytes text ≡ hex_of self.now) }
        ensures name { IsName self.now }
    {
        hex::encode(alloc, &self.to_bytes())
    }

    /// The name of which this is the text, 64 digits in lower case. It takes no memory.
    ///
    /// `Length` comes first, where there aren't 64 bytes, and then `Digit`.
    pub fn from_hex(text: &str) -> Result<Name, NameError>
        ensures ok { IfOk result (λ n. text.now ≡ hex_of n) }
        ensures name { IfOk result IsName }
        ensures length { IsErrOf result NameError.Length ↔ (length text.now ≢ 64) }
        ensures digit { IsErrOf result NameError.Digit → (n : Name) → IsName n → text.now ≢ hex_of n }
    {
        if text.len() != 64 {
            return Err(NameError::Length);
        }
        let Ok(bytes) = <[u8; 32] as FromHex>::from_hex(text) else {
            return Err(NameError::Digit);
        };
        let mut written = [0u8; 64];
        hex::encode_to_slice(&bytes, &mut written).unwrap();
        if text.as_bytes() == written.as_slice() {
            Ok(Name(bytes))
        } else {
            Err(NameError::Digit)
        }
    }
}
