//! What is found of one object by itself.

ghost use Rattle.std.specs.Prelude.{◌≡◌, IfOk, IfSome, None};
ghost use Rattle.repo_pack.specs.PackLayout.{IsPack, IsTruePack};
ghost use Rattle.repo_name.specs.declared.kinds.Kind.{Kind};
ghost use Rattle.repo_check.specs.Findings.{ReadsAs};
ghost use Rattle.repo_check.specs.Arrivals.{LooksAtSnapshot, LooksAtIndex, LooksAtPack, AreToldOf, MisreadAs};

use crate::arrivals::{Arrival, arrival_of};
use repo_index::{Facts, IndexText, PackFacts};
use repo_name::{Kind, Name};
use repo_pack::PackView;
use repo_reach::Root;
use repo_session::{FaultKind, Versions};
use repo_tree::{Snapshot, TextError};
use repo_wire::Say;
use std::alloc::{AllocError, Global};

/// A pack of so many bytes is larger than any that an index can list.
const LARGE: usize = 1 << 32;

/// What a reply tells of a snapshot.
#[derive(Clone, Copy, Debug)]
pub enum SnapshotLook {
    /// It is well, and this is its root.
    Root(Root),
    /// It is at fault.
    Fault(FaultKind),
    /// It is of a version that isn't known.
    Version,
    /// Another refusal, or a reply of another sort.
    Unwelcome,
}

/// What a reply tells of an index.
#[derive(Drop)]
pub enum IndexLook {
    /// It reads.
    Read(IndexText),
    /// It is at fault.
    Fault(FaultKind),
    /// Another refusal, or a reply of another sort.
    Unwelcome,
}

/// What a reply tells of a pack.
#[derive(Drop)]
pub enum PackLook {
    /// It is well, and has these facts. One of 2^32 bytes or more is told without facts: no index can list it.
    Read(Facts),
    /// It is at fault.
    Fault(FaultKind),
    /// Another refusal, or a reply of another sort.
    Unwelcome,
}

/// What a snapshot's bytes come to that can't be read. It fails where there was no memory to read them.
fn misread_snapshot(error: TextError) -> Result<SnapshotLook, AllocError>
    ensures { IfOk result (MisreadAs error) }
{
    match error {
        TextError::Memory => Err(AllocError),
        TextError::Version => Ok(SnapshotLook::Version),
        _ => Ok(SnapshotLook::Fault(FaultKind::Unreadable)),
    }
}

/// What a reply tells of a snapshot of this name, to who knows these versions. It fails for memory alone.
pub fn look_at_snapshot(
    alloc: Global,
    versions: Versions,
    name: Name,
    say: &Say,
) -> Result<SnapshotLook, AllocError>
    ensures { IfOk result (LooksAtSnapshot versions name say.now) }
{
    let bytes = match arrival_of(Kind::Snapshot, name, say) {
        Arrival::Named(bytes) => bytes,
        Arrival::Misnamed => return Ok(SnapshotLook::Fault(FaultKind::Name)),
        Arrival::Absent => return Ok(SnapshotLook::Fault(FaultKind::Missing)),
        Arrival::Unwelcome => return Ok(SnapshotLook::Unwelcome),
    };
    match Snapshot::read_upto(alloc, bytes, versions.greatest()) {
        Ok(snapshot) => Ok(SnapshotLook::Root(Root::of(snapshot.tree, snapshot.version))),
        Err(error) => misread_snapshot(error),
    }
}

/// What a reply tells of an index of this name. It fails for memory alone.
pub fn look_at_index(alloc: Global, name: Name, say: &Say) -> Result<IndexLook, AllocError>
    ensures { IfOk result (LooksAtIndex name say.now) }
{
    let bytes = match arrival_of(Kind::Index, name, say) {
        Arrival::Named(bytes) => bytes,
        Arrival::Misnamed => return Ok(IndexLook::Fault(FaultKind::Name)),
        Arrival::Absent => return Ok(IndexLook::Fault(FaultKind::Missing)),
        Arrival::Unwelcome => return Ok(IndexLook::Unwelcome),
    };
    match IndexText::read(alloc, bytes) {
        Ok(text) => Ok(IndexLook::Read(text)),
        Err(error) => {
            error.check_fault()?;
            Ok(IndexLook::Fault(FaultKind::Unreadable))
        }
    }
}

/// The facts of a pack's blobs, in the pack's order; none of one of 2^32 bytes or more. It fails for memory alone.
fn facts_of(alloc: Global, name: Name, bytes: &[u8], view: &PackView) -> Result<Facts, AllocError>
    requires { IsPack bytes.now view.now }
    ensures { IfOk result (AreToldOf name view.now) }
{
    if bytes.len() >= LARGE {
        return Ok(Facts::of(Vec::new(alloc)));
    }
    Ok(PackFacts::of_pack(alloc, &name, view)?.facts)
}

/// The pack in these bytes, if they are one, and each blob has its name. It fails for memory alone.
fn true_pack<'a>(alloc: Global, bytes: &'a [u8]) -> Result<Option<PackView<'a>>, AllocError>
    ensures some { IfOk result (λ found. IfSome found (IsTruePack bytes.now)) }
    ensures none { IfOk result (λ found. found ≡ None → ¬ ReadsAs Kind.Pack bytes.now) }
{
    let Ok(view) = PackView::read(bytes) else {
        return Ok(None);
    };
    if view.all_named(alloc)? {
        Ok(Some(view))
    } else {
        Ok(None)
    }
}

/// What a reply tells of a pack of this name. It fails for memory alone.
pub fn look_at_pack(alloc: Global, name: Name, say: &Say) -> Result<PackLook, AllocError>
    ensures { IfOk result (LooksAtPack name say.now) }
{
    let bytes = match arrival_of(Kind::Pack, name, say) {
        Arrival::Named(bytes) => bytes,
        Arrival::Misnamed => return Ok(PackLook::Fault(FaultKind::Name)),
        Arrival::Absent => return Ok(PackLook::Fault(FaultKind::Missing)),
        Arrival::Unwelcome => return Ok(PackLook::Unwelcome),
    };
    let Some(view) = true_pack(alloc, bytes)? else {
        return Ok(PackLook::Fault(FaultKind::Unreadable));
    };
    Ok(PackLook::Read(facts_of(alloc, name, bytes, &view)?))
}
