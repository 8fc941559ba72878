//! The parts of a directory that is closed, which are made from the last one to the first.

ghost use Rattle.std.specs.Prelude.{◌≡◌, ◌≤◌, ◌<◌, None, length, map, take, drop, IfOk, MatchOption, OnErr};
ghost use Rattle.repo_name.specs.Limits.{blob_limit};
ghost use Rattle.repo_pack.specs.PackWriting.{IsOpen};
ghost use Rattle.repo_tree.specs.Parts.{IsPartText};
ghost use Rattle.repo_tree.specs.PartWriting.{part_text};
ghost use Rattle.repo_backup.specs.Packings.{AimsOn, StaysPacked};
ghost use Rattle.repo_backup.specs.PartsMade.{parts_by};
ghost use Rattle.repo_backup.specs.Pieces.{PacksPart, LeavesPart};

use crate::packing::{Packed, Packing, Sealing};
use repo_index::Lookup;
use repo_name::{BlobKind, Name};
use repo_tree::{Node, TreeError, part_sizes, write_part};
use std::alloc::{AllocError, Global};

/// The parts of a directory that are left to be made: how many nodes each of them has, from the first on, and how many they
/// have in all; and the name of the tree in which the last of them goes on, if it goes on.
#[derive(Drop)]
pub struct PartsLeft {
    pub sizes: Vec<usize>,
    pub count: usize,
    pub next: Option<Name>,
}

/// The version of a config by which directories are in parts.
const IN_PARTS: u64 = 2;

/// How many nodes each part of a directory of these nodes has by the version of a config. It fails for memory alone.
pub fn sizes_by(alloc: Global, version: u64, nodes: &[Node]) -> Result<Vec<usize>, AllocError>
    ensures { IfOk result (λ sizes. sizes.items ≡ map length (parts_by version nodes.now)) }
{
    if version == IN_PARTS {
        return part_sizes(alloc, nodes);
    }
    let mut sizes = Vec::new(alloc);
    sizes.push(nodes.len())?;
    Ok(sizes)
}

/// The nodes from this one to that one.
pub fn between(nodes: &[Node], from: usize, end: usize) -> &[Node]
    ensures { from ≤ end → end ≤ length nodes.now → result.now ≡ drop from (take end nodes.now) }
{
    let end = end.min(nodes.len());
    &nodes[from.min(end)..end]
}

/// A part of a directory: its nodes, and the name of the tree in which the directory goes on, if it goes on.
#[derive(Clone, Copy)]
pub struct Part<'a> {
    pub nodes: &'a [Node],
    pub next: Option<Name>,
}

/// The text of a part; `None` where it is above 8,388,608 bytes. It fails for memory alone.
fn text_of(alloc: Global, part: Part) -> Result<Option<Vec<u8>>, AllocError>
    ensures { IfOk result (λ made. MatchOption made (blob_limit < length (part_text part.entry.nodes.now part.entry.next))
        (λ text. (text.items ≡ part_text part.entry.nodes.now part.entry.next) × IsPartText text.items part.entry.nodes.now part.entry.next × (1 ≤ length text.items))) }
{
    match write_part(alloc, part.nodes, part.next.as_ref()) {
        Ok(text) => Ok(Some(text)),
        Err(TreeError::TooLarge) => Ok(None),
        Err(_) => Err(AllocError),
    }
}

/// Makes a part a blob, and packs it; `None` where its text is above 8,388,608 bytes. It fails for memory alone, and then
/// all stands as it stood.
pub fn pack_part(
    packing: &mut Packing,
    alloc: Global,
    lookup: &Lookup,
    part: Part,
    sealing: Sealing,
) -> Result<Option<Packed>, AllocError>
    requires open { IsOpen packing.old.packer.writer }
    requires unsealed { packing.old.packer.sealed ≡ None }
    ensures ok { IfOk result (λ packed. PacksPart lookup.now sealing part.entry.nodes.now part.entry.next packing.old packed packing.new) }
    ensures left { IfOk result (λ packed. LeavesPart sealing packing.old packed packing.new) }
    ensures aims { AimsOn packing.old packing.new }
    ensures err { OnErr result (StaysPacked lookup.now packing.old packing.new) }
{
    let Some(text) = text_of(alloc, part)? else {
        return Ok(None);
    };
    let packed = packing.pack(lookup, BlobKind::Tree, &text, sealing)?;
    Ok(Some(packed))
}
