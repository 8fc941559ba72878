//! The chunks of a file that ended and have no name yet.

ghost use Rattle.std.specs.Prelude.{◌≡◌, ◌≤◌, ◌<◌, ◌-◌, ◌+◌, ◌++◌, ◌∷◌, [], ℕ, List, length, take, map, false, IfOk, OnOk, OnErr, IsTrue, ◌↔◌, vec_len, vec_capacity};
ghost use Rattle.repo_name.specs.Limits.{blob_limit};
ghost use Rattle.repo_name.specs.Naming as naming;
ghost use Rattle.repo_pack.specs.PackLayout.{Item};
ghost use Rattle.repo_pack.specs.PackWriting.{IsDue};
ghost use Rattle.repo_writing.specs.Filling.{IsJustDue};
ghost use Rattle.repo_backup.specs.Packings.{GrowsBy, IsPacking};
ghost use Rattle.repo_backup.specs.Standings.{chunk_items};
ghost use Rattle.repo_backup.specs.Waiting.{name_in, PacksBlobs, TakesAllButOne, TakesMore};

use crate::packing::Packing;
use repo_index::Lookup;
use repo_name::{BLOB_LIMIT, BLOBS_LIMIT, BlobKind, Name};
use repo_pack::PackWriter;
use repo_sha::digests;
use std::alloc::{AllocError, Global};
use std::marker::Model;

/// How many chunks are named side by side: as many as there are lanes.
const SIDE_BY_SIDE: usize = 8;

/// With so many bytes or more chunks wait no longer: 8,388,608.
const BYTES_WAITING: usize = 8_388_608;

/// From so many bytes on a chunk is one of a long file's: 65,536.
const LONG: usize = 65_536;

/// Makes room for all chunks that may wait together, where the first one is long: so their bytes are moved no more. It fails for
/// memory alone, and changes no byte.
fn make_room(bytes: &mut Vec<u8>, first: &[u8]) -> Result<(), AllocError>
    ensures { bytes.new.items ≡ bytes.old.items }
{
    if !bytes.is_empty() || first.len() < LONG {
        return Ok(());
    }
    bytes.reserve_exact(BYTES_WAITING + BLOB_LIMIT)
}

/// Chunks that ended and have no name yet, one behind another in one buffer, so that they can be named side by side. A
/// clause sees the chunks.
#[derive(Drop)]
pub struct Ended {
    bytes: Vec<u8>,
    lengths: Vec<usize>,
}

impl Model for Ended {
    ghost use Rattle.std.specs.Prelude.{ℕ, List};
    ghost use Rattle.repo_sha.specs.Pieces.{pieces};
    ghost use Rattle.repo_backup.specs.inner.Ends.{AreEnded};

    ghost Value = { List (List ℕ) };

    ghost view = { λ e. pieces e.bytes.items e.lengths.items };

    ghost invariant = { λ e. AreEnded e.bytes.items e.lengths.items };
}

/// Notes these digests as names, for which there is room.
fn add_names(names: &mut Vec<Name>, digests: &[[u8; 32]])
    requires { vec_len names.old + length digests.now ≤ vec_capacity names.old }
    ensures { names.new.items ≡ names.old.items ++ map name_in digests.now }
{
    for digest in digests {
        names.push(Name(*digest)).unwrap();
    }
}

impl Ended {
    /// No chunk. It takes no memory.
    pub fn new(alloc: Global) -> Ended
        ensures { result ≡ [] }
    {
        Ended {
            bytes: Vec::new(alloc),
            lengths: Vec::new(alloc),
        }
    }

    /// How many there are.
    pub fn len(&self) -> usize
        ensures { result ≡ length self.now }
    {
        self.lengths.len()
    }

    /// A chunk more. It fails for memory alone, and then they are as they were.
    pub fn push(&mut self, chunk: &[u8]) -> Result<(), AllocError>
        requires { (1 ≤ length chunk.now) × (length chunk.now ≤ blob_limit) }
        ensures ok { OnOk result (self.new ≡ self.old ++ chunk.now ∷ []) }
        ensures err { OnErr result (self.new ≡ self.old) }
    {
        self.lengths.reserve(1)?;
        make_room(&mut self.bytes, chunk)?;
        self.bytes.extend_from_slice(chunk)?;
        self.lengths.push(chunk.len()).unwrap();
        Ok(())
    }

    /// The last chunk is gone, where there is one. It takes no memory.
    fn pop(&mut self)
        ensures { self.new ≡ take (length self.old - 1) self.old }
    {
        let Some(length) = self.lengths.pop() else {
            return;
        };
        self.bytes.truncate(self.bytes.len().saturating_sub(length));
    }

    /// The first so many are left. It takes no memory.
    pub fn truncate(&mut self, count: usize)
        ensures { self.new ≡ take count self.old }
    {
        while self.len() > count {
            self.pop();
        }
    }

    /// Takes over the buffer of chunks that were named, if some are handed in, where none waits here: they are as they were.
    /// It takes no memory.
    pub fn reuse(&mut self, named: Option<Ended>)
        ensures { self.new ≡ self.old }
    {
        let Some(mut named) = named else {
            return;
        };
        if self.lengths.is_empty() {
            named.truncate(0);
            *self = named;
        }
    }

    /// Whether a pack takes more with all of them as blobs behind its own.
    pub fn fits(&self, writer: &PackWriter) -> bool
        ensures { IsTrue result ↔ TakesMore writer.now self.now }
    {
        self.bytes.len() < writer.wanted()
            && self.lengths.len() < BLOBS_LIMIT.saturating_sub(writer.len())
    }

    /// Whether they are to be named: the pack would be due with them, there are eight, or they have 8,388,608 bytes.
    pub fn is_full(&self, writer: &PackWriter) -> bool
        ensures { result ≡ false → TakesMore writer.now self.now }
    {
        !self.fits(writer)
            || self.lengths.len() >= SIDE_BY_SIDE
            || self.bytes.len() >= BYTES_WAITING
    }

    /// Their names, which are made side by side. It fails for memory alone.
    pub fn names(&self, alloc: Global) -> Result<Vec<Name>, AllocError>
        ensures { IfOk result (λ names. names.items ≡ map naming.name self.now) }
    {
        let digests = digests(alloc, &self.bytes, &self.lengths)?;
        let mut names = Vec::with_capacity(alloc, digests.len())?;
        add_names(&mut names, &digests);
        Ok(names)
    }

    /// Adds them by their names to the packs, one after another, unless an index gives them or they were added. It fails for
    /// memory alone, and then some of them may be added.
    pub fn add_to(
        &self,
        packing: &mut Packing,
        lookup: &Lookup,
        names: &[Name],
    ) -> Result<(), AllocError>
        requires named { names.now ≡ map naming.name self.now }
        requires room { TakesAllButOne packing.old.packer.writer self.now }
        ensures ok { OnOk result (PacksBlobs lookup.now (chunk_items self.now) packing.old packing.new) }
        ensures due { OnOk result (IsDue packing.new.packer.writer → IsJustDue packing.old.packer.writer.target packing.new.packer.writer.items) }
        ensures packs { (sent sealed : List Item) → IsPacking packing.old lookup.now sent sealed → IsPacking packing.new lookup.now sent sealed }
        ensures grows { GrowsBy packing.old packing.new }
        ensures target { packing.new.packer.target ≡ packing.old.packer.target }
        ensures sealed { packing.new.packer.sealed ≡ packing.old.packer.sealed }
    {
        let mut rest = self.bytes.as_slice();
        for place in 0..self.lengths.len() {
            let (chunk, behind) = rest.split_at(self.lengths[place]);
            prove!(place < names.len());
            packing.add(lookup, BlobKind::Content, &names[place], chunk)?;
            rest = behind;
        }
        Ok(())
    }
}
