//! How much was put.

ghost use Rattle.std.specs.Prelude.{◌≡◌, ◌-◌, ◌^◌, ◌++◌, [], List, min};
ghost use Rattle.std.specs.List.{sum_by};
ghost use Rattle.repo_pack.specs.PackLayout.{Item};
ghost use Rattle.repo_writing.specs.Sealing.{IsSealedOf};
ghost use Rattle.repo_writing.specs.Writing.{AreCounts};

use repo_pack::{PlacedBlob, Sealed};

/// How many blobs the packs put have, and how many bytes these blobs; each stays at the greatest number.
#[derive(Clone, Copy, Debug, PartialEq, Eq)]
pub struct Counts {
    pub blobs: u64,
    pub bytes: u64,
}

/// How many bytes these blobs have: the greatest number, where there are more.
fn bytes_in(blobs: &[PlacedBlob]) -> u64
    ensures { result ≡ min (sum_by (λ blob. blob.place.length) blobs.now) (2 ^ 64 - 1) }
{
    let mut bytes: u64 = 0;
    for blob in blobs {
        bytes = bytes.saturating_add(u64::from(blob.place.length));
    }
    bytes
}

impl Counts {
    /// Nothing is put yet.
    pub fn none() -> Counts
        ensures { AreCounts result [] }
    {
        Counts { blobs: 0, bytes: 0 }
    }

    /// Counts the blobs of a pack.
    pub fn add(&mut self, sealed: &Sealed)
        ensures { (before items : List Item) → IsSealedOf sealed.now items → AreCounts self.old before → AreCounts self.new (before ++ items) }
    {
        let blobs = sealed.blobs.as_slice();
        self.blobs = self.blobs.saturating_add(blobs.len() as u64);
        self.bytes = self.bytes.saturating_add(bytes_in(blobs));
    }
}
