//! The pack that is being written, and the one that is sealed.

ghost use Rattle.std.specs.Prelude.{◌≡◌, ◌≢◌, ◌≤◌, [], List, length, Some, None, IfOk, OnOk, OnErr};
ghost use Rattle.repo_name.specs.Naming as naming;
ghost use Rattle.repo_index.specs.declared.facts.PackFacts.{PackFacts};
ghost use Rattle.repo_pack.specs.PackLayout.{Item, item_of};
ghost use Rattle.repo_pack.specs.PackWriting.{IsOpen, with_item};
ghost use Rattle.repo_pack.specs.declared.writers.Sealed.{Sealed};
ghost use Rattle.repo_writing.specs.Sealing.{IsSealed, IsListedAs};
ghost use Rattle.repo_name.specs.Limits.{blob_limit};

use crate::targets::Target;
use repo_index::PackFacts;
use repo_name::{BlobKind, Name};
use repo_pack::{PackWriter, Sealed};
use std::alloc::{AllocError, Global};
use std::mem;

/// The pack that is being written, and the one that is sealed and not yet sent.
#[derive(Drop)]
pub struct Packer {
    pub writer: PackWriter,
    pub sealed: Option<Sealed>,
    pub target: Target,
    alloc: Global,
}

impl Packer {
    /// Packs of this size. It takes no memory.
    pub fn new(alloc: Global, target: Target) -> Packer
        ensures writer { result.writer.items ≡ [] }
        ensures size { result.writer.target ≡ target.bytes }
        ensures target { result.target ≡ target }
        ensures sealed { result.sealed ≡ None }
    {
        Packer {
            writer: target.writer(alloc),
            sealed: None,
            target,
            alloc,
        }
    }

    /// Adds a blob to the pack that is being written, which isn't due. It fails for memory alone, and then nothing
    /// changed.
    pub fn add(&mut self, kind: BlobKind, name: &Name, bytes: &[u8]) -> Result<(), AllocError>
        requires room { IsOpen self.old.writer }
        requires some { (1 ≤ length bytes.now) × (length bytes.now ≤ blob_limit) }
        requires named { name.now ≡ naming.name bytes.now }
        ensures ok { OnOk result (self.new.writer ≡ with_item self.old.writer (item_of kind bytes.now)) }
        ensures err { OnErr result (self.new.writer ≡ self.old.writer) }
        ensures sealed { self.new.sealed ≡ self.old.sealed }
        ensures target { self.new.target ≡ self.old.target }
    {
        self.writer
            .add_named(kind, name, bytes)
            .map_err(|_| AllocError)
    }

    /// Seals the pack that is being written, and begins a new one. It fails for memory alone, and then nothing
    /// changed.
    pub fn seal(&mut self) -> Result<(), AllocError>
        requires some { 1 ≤ length self.old.writer.items }
        requires none { self.old.sealed ≡ None }
        ensures ok { OnOk result (IsSealed self.new.sealed self.old.writer.items × (self.new.sealed ≢ None)) }
        ensures begun { OnOk result (self.new.writer.items ≡ []) }
        ensures size { OnOk result (self.new.writer.target ≡ self.old.target.bytes) }
        ensures target { self.new.target ≡ self.old.target }
        ensures err { OnErr result (self.new ≡ self.old) }
    {
        let writer = mem::replace(&mut self.writer, self.target.writer(self.alloc));
        match writer.seal() {
            Ok(sealed) => {
                self.sealed = Some(sealed);
                Ok(())
            }
            Err(unsealed) => {
                self.writer = unsealed.writer;
                Err(AllocError)
            }
        }
    }

    /// How the sealed pack is listed. `None` where none is sealed. It fails for memory alone.
    pub fn facts(&self) -> Result<Option<PackFacts>, AllocError>
        ensures listed { IfOk result (λ facts. (items : List Item) → self.now.sealed ≢ None → IsSealed self.now.sealed items
            → (sealed : Sealed) × (listed : PackFacts) × (facts ≡ Some listed) × IsListedAs self.now.sealed items sealed listed) }
        ensures none { IfOk result (λ facts. self.now.sealed ≡ None → facts ≡ None) }
    {
        match &self.sealed {
            Some(sealed) => Ok(Some(PackFacts::of_sealed(self.alloc, sealed)?)),
            None => Ok(None),
        }
    }
}
