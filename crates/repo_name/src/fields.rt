//! The fields of which frames and the ledger are made, read from the front of some bytes.

ghost use Rattle.std.specs.Prelude.{◌≡◌, ◌≢◌, ◌<◌, ◌^◌, ◌++◌, ◌∷◌, ◌↔◌, ℕ, Bool, List, length, IfSome, IfNone, IsNone, IsTrue, OnOk};
ghost use Rattle.std.specs.Io.{StartsWith};
ghost use Rattle.repo_name.specs.Rows.{number, count, truth, host_field, IsHost, NumbersAreOne, HostsAreOne};

use byteorder::{BigEndian, ByteOrder};
use std::alloc::AllocError;

/// The number of 64 bits at the front, its highest byte first, and the bytes after it. `None` where
/// there are fewer than eight bytes.
pub fn number_at(bytes: &[u8]) -> Option<(u64, &[u8])>
    ensures found { IfSome result (λ x. (x.0 < 2 ^ 64) × (bytes.now ≡ number x.0 ++ x.1.now)) }
    ensures none { IsNone result ↔ (length bytes.now < 8) }
{
    if bytes.len() < 8 {
        return None;
    }
    Some((BigEndian::read_u64(bytes), &bytes[8..]))
}

/// The count at the front, two bytes, the higher first, and the bytes after it. `None` where there are
/// fewer than two bytes.
pub fn count_at(bytes: &[u8]) -> Option<(usize, &[u8])>
    ensures found { IfSome result (λ x. (x.0 < 2 ^ 16) × (bytes.now ≡ count x.0 ++ x.1.now)) }
    ensures none { IsNone result ↔ (length bytes.now < 2) }
{
    if bytes.len() < 2 {
        return None;
    }
    Some((BigEndian::read_u16(bytes) as usize, &bytes[2..]))
}

/// Appends a count in two bytes, the higher first. It fails for memory alone, and then the bytes are at
/// least those that were there.
pub fn append_count(value: usize, out: &mut Vec<u8>) -> Result<(), AllocError>
    requires { value < 2 ^ 16 }
    ensures ok { OnOk result (out.new.items ≡ out.old.items ++ count value) }
    ensures kept { StartsWith out.new.items out.old.items }
{
    out.extend_from_slice(&(value as u16).to_be_bytes())
}

/// The truth value at the front, a byte 0 or 1, and the bytes after it. `None` where neither stands there.
pub fn truth_at(bytes: &[u8]) -> Option<(bool, &[u8])>
    ensures found { IfSome result (λ x. bytes.now ≡ truth x.0 ∷ x.1.now) }
    ensures none { IfNone result ((b : Bool) (rest : List ℕ) → bytes.now ≢ truth b ∷ rest) }
{
    match bytes {
        [0, rest @ ..] => Some((false, rest)),
        [1, rest @ ..] => Some((true, rest)),
        _ => None,
    }
}

/// Whether a text is a host within its limits: 1 to 255 bytes.
pub fn is_host(text: &str) -> bool
    ensures { IsTrue result ↔ IsHost text.now }
{
    !text.is_empty() && text.len() <= 255
}

/// The host at the front, 1 to 255 bytes of UTF-8 behind their count in a byte, and the bytes after it.
/// `None` where no host stands there.
pub fn host_at(bytes: &[u8]) -> Option<(&str, &[u8])>
    ensures found { IfSome result (λ x. IsHost x.0.now × (bytes.now ≡ host_field x.0.now ++ x.1.now)) }
    ensures none { IfNone result ((host rest : List ℕ) → IsHost host → bytes.now ≢ host_field host ++ rest) }
{
    let [count, rest @ ..] = bytes else {
        return None;
    };
    let count = *count as usize;
    if count == 0 || rest.len() < count {
        return None;
    }
    let (host, rest) = rest.split_at(count);
    Some((str::from_utf8(host).ok()?, rest))
}

/// Numbers in bytes read in one way, whatever follows them.
pub fn numbers_are_one()
    ensures { NumbersAreOne }
{}

/// Hosts in bytes read in one way, whatever follows them.
pub fn hosts_are_one()
    ensures { HostsAreOne }
{}
