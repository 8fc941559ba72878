//! What is found of one tree by itself.

ghost use Rattle.std.specs.Prelude.{◌≡◌, ◌≢◌, IfOk, IsTrue, IsFalse};
ghost use Rattle.repo_name.specs.Naming as naming;
ghost use Rattle.repo_wire.specs.declared.messages.Say.{Say};
ghost use Rattle.repo_check.specs.Measures.{HasLengths, LacksLengths, LooksAtTree, LooksAtNone};

use crate::keeping::Kept;
use crate::measures::all_suit;
use repo_index::{Fact, Lookup};
use repo_name::{Name, name_of};
use repo_reach::read_with_next;
use repo_session::FaultKind;
use repo_tree::Node;
use repo_wire::{Code, Say};
use std::alloc::{AllocError, Global};

/// What a reply tells of a tree that was asked for at its place.
#[derive(Drop)]
pub enum TreeLook {
    /// It reads, and this is kept of it; and whether its own length is right, and the sizes of its files are, as far as their blobs
    /// lie somewhere.
    Read { kept: Kept, right: bool },
    /// It is at fault.
    Fault(FaultKind),
    /// Another refusal, or a reply of another sort.
    Unwelcome,
}

/// Whether the bytes have this name.
fn has_name(name: Name, bytes: &[u8]) -> bool
    ensures has { IsTrue result → naming.name bytes.now ≡ name }
    ensures lacks { IsFalse result → naming.name bytes.now ≢ name }
{
    name_of(bytes) == name
}

/// Whether a tree of these bytes and nodes has the length of its place, and its files have their sizes.
fn has_lengths(lookup: &Lookup, fact: Fact, bytes: &[u8], nodes: &[Node]) -> bool
    ensures has { IsTrue result → HasLengths lookup.now fact.place bytes.now nodes.now }
    ensures lacks { IsFalse result → LacksLengths lookup.now fact.place bytes.now nodes.now }
{
    bytes.len() == fact.place.length as usize && all_suit(lookup, nodes)
}

/// What the bytes of a tree show, which have its name. It fails for memory alone.
fn look_at_text(
    alloc: Global,
    lookup: &Lookup,
    fact: Fact,
    bytes: &[u8],
) -> Result<TreeLook, AllocError>
    requires { naming.name bytes.now ≡ fact.name }
    ensures { IfOk result (LooksAtTree lookup.now fact (Say.Bytes bytes.now)) }
{
    match read_with_next(alloc, bytes) {
        Ok((nodes, next)) => {
            let kept = Kept::of(alloc, nodes.as_slice(), next)?;
            let right = has_lengths(lookup, fact, bytes, nodes.as_slice());
            Ok(TreeLook::Read { kept, right })
        }
        Err(error) => {
            error.check_fault()?;
            Ok(TreeLook::Fault(FaultKind::Unreadable))
        }
    }
}

/// What a reply tells of a tree that brings none. It takes no memory.
fn look_at_none(say: &Say) -> TreeLook
    ensures { LooksAtNone say.now result }
{
    match say {
        Say::Refused(Code::Missing) => TreeLook::Fault(FaultKind::Missing),
        Say::Refused(Code::Range) => TreeLook::Fault(FaultKind::Missing),
        _ => TreeLook::Unwelcome,
    }
}

/// What a reply tells of a tree that was asked for at its place, which is the least. It fails for memory alone.
pub fn look_at_tree(
    alloc: Global,
    lookup: &Lookup,
    fact: Fact,
    say: &Say,
) -> Result<TreeLook, AllocError>
    ensures { IfOk result (LooksAtTree lookup.now fact say.now) }
{
    let Say::Bytes(bytes) = say else {
        return Ok(look_at_none(say));
    };
    let bytes = bytes.as_slice();
    if !has_name(fact.name, bytes) {
        return Ok(TreeLook::Fault(FaultKind::Name));
    }
    look_at_text(alloc, lookup, fact, bytes)
}
