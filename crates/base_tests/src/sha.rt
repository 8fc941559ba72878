//! SHA-256 in vector lanes, against what Python's hashlib gives: scripts/digests.py prints each digest that is wanted here.

use crate::trials::Trial;
use repo_name::Name;
use repo_sha::{digest, digests};
use std::alloc::{AllocError, Global};

// The examples for SHA-256 that the standard's publisher gives: no bytes, `abc`, 448 bits, 896 bits, and a million `a`.
const EMPTY: &str = "e3b0c44298fc1c149afbf4c8996fb92427ae41e4649b934ca495991b7852b855";

const ABC: &str = "ba7816bf8f01cfea414140de5dae2223b00361a396177a9cb410ff61f20015ad";

const TWO_BLOCKS: &[u8] = b"abcdbcdecdefdefgefghfghighijhijkijkljklmklmnlmnomnopnopq";

const TWO_BLOCKS_DIGEST: &str = "248d6a61d20638b8e5c026930c3e6039a33ce45964ff2167f6ecedd419db06c1";

const FOUR_WORDS: &[u8] =
    b"abcdefghbcdefghicdefghijdefghijkefghijklfghijklmghijklmnhijklmnoijklmnopjklmnopqklmnopqrlmnopqrsmnopqrstnopqrstu";

const FOUR_WORDS_DIGEST: &str = "cf5b16a778af8380036ce59e7b0492370b249b11e8f07a51afac45037afee9d1";

const MILLION_DIGEST: &str = "cdc76e5c9914fb9281a1c7e284d73e67f1809a48a497200e046d39ccc7112cd0";

/// Pieces of unlike lengths, more than there are lanes.
const FEW: [usize; 9] = [70000, 1, 64, 0, 5000, 63, 119, 56, 55];

const FEW_DIGEST: &str = "7ae40b5b57548c780f96e9c6ea45f076dfc585264dfe805353e6c4bcac880ae3";

const EVERY_LENGTH_DIGEST: &str =
    "17ab6ff2ad7b249d78a4a6715a2ead917961f85226073a803dd629f4e6ef4749";

// Of a text that ends early.
const EARLY_DIGEST: &str = "f85181d9b2e31ec2bc96c97f93e51b64d4bc50c9f7a75d544051a9ac8e6c265c";

/// So many bytes, of which each is its place modulo 251.
fn pattern(alloc: Global, count: usize) -> Result<Vec<u8>, AllocError> {
    let mut bytes = Vec::with_capacity(alloc, count)?;
    for i in 0..count {
        bytes.push((i % 251) as u8)?;
    }
    Ok(bytes)
}

/// The lengths 0 to 600, in a mixed order.
fn mixed_lengths(alloc: Global) -> Result<Vec<usize>, AllocError> {
    let mut lengths = Vec::with_capacity(alloc, 601)?;
    for i in 0..601usize {
        lengths.push(i * 7 % 601)?;
    }
    Ok(lengths)
}

/// The digest of the digests of pieces, one after another.
fn folded(alloc: Global, bytes: &[u8], lengths: &[usize]) -> Result<[u8; 32], AllocError> {
    let digests = digests(alloc, bytes, lengths)?;
    let mut all = Vec::new(alloc);
    for digest in &digests {
        all.extend_from_slice(digest)?;
    }
    Ok(digest(all.as_slice()))
}

impl Trial {
    /// A digest has these digits.
    fn is_digest(&mut self, digest: [u8; 32], digits: &str) {
        self.count(Name::from_hex(digits) == Ok(Name(digest)));
    }

    /// The digest of the pieces' digests has these digits; they are asked for again where there was no memory.
    fn folds(&mut self, bytes: &[u8], lengths: &[usize], digits: &str) {
        let mut digest = folded(self.alloc, bytes, lengths);
        if digest.is_err() {
            self.lack();
            digest = folded(self.alloc, bytes, lengths);
        }
        match digest {
            Ok(digest) => self.is_digest(digest, digits),
            Err(_) => self.count(false),
        }
    }

    /// Pieces of a text that ends early, and none.
    pub fn digests(&mut self) {
        self.folds(b"abcdef", &[2, 10, 3], EARLY_DIGEST);
        self.folds(b"abcdef", &[], EMPTY);
    }
}

#[test]
fn digests_of_the_standards_examples(rt: HostRuntime) {
    let mut trial = Trial::new(rt.alloc());
    trial.is_digest(digest(b""), EMPTY);
    trial.is_digest(digest(b"abc"), ABC);
    trial.is_digest(digest(TWO_BLOCKS), TWO_BLOCKS_DIGEST);
    trial.is_digest(digest(FOUR_WORDS), FOUR_WORDS_DIGEST);
    let million: Result<Vec<u8>, AllocError> = vec![in rt.alloc(); b'a'; 1_000_000];
    match million {
        Ok(million) => trial.is_digest(digest(million.as_slice()), MILLION_DIGEST),
        Err(_) => trial.count(false),
    }
    trial.end(&rt);
}

// Bytes stand behind the last piece of the first.
#[test]
fn pieces_of_every_length(rt: HostRuntime) {
    let mut trial = Trial::new(rt.alloc());
    match (pattern(rt.alloc(), 180_300), mixed_lengths(rt.alloc())) {
        (Ok(bytes), Ok(lengths)) => {
            trial.folds(bytes.as_slice(), &FEW, FEW_DIGEST);
            trial.folds(bytes.as_slice(), lengths.as_slice(), EVERY_LENGTH_DIGEST);
        }
        _ => trial.count(false),
    }
    trial.end(&rt);
}
