//! The nodes of one directory, as they are given out.

ghost use Rattle.std.specs.Prelude.{◌≡◌, ◌+◌, ◌++◌, ◌∷◌, [], ℕ, List, IfOk};
ghost use Rattle.repo_session.specs.declared.emissions.Emission.{Emission};
ghost use Rattle.repo_restore.specs.Walks.{Files, LeftOf};
ghost use Rattle.repo_restore.specs.Nodes.{BlobFollows, PartFollows, DirBegins};

use repo_index::{Fact, Lookup};
use repo_name::{BlobKind, Name, Text, Thing};
use repo_session::{Emission, End};
use repo_tree::{Node, NodeKind, Path};
use std::alloc::{AllocError, Global};

/// A directory whose nodes are being given out: the part of it that they are from.
#[derive(Drop)]
pub struct Level {
    /// The name of the part's tree.
    pub tree: Name,
    pub path: Path,
    pub nodes: Vec<Node>,
    /// The tree in which the directory goes on behind them.
    pub next: Option<Name>,
    /// How many of the nodes were begun.
    pub begun: usize,
}

/// What became of a node.
#[derive(Clone, Copy, Debug, PartialEq, Eq)]
pub enum Begun {
    /// It was given out whole.
    Done,
    /// The blob of this fact comes next of it.
    Waits(Fact),
    /// It was the last one of its part, and the directory goes on in the tree of this fact.
    GoesOn(Fact),
    /// It can't be given out.
    Ended(End),
}

/// What looking up a file's blobs gives.
#[derive(Clone, Copy, Debug, PartialEq, Eq)]
pub enum Filed {
    /// Each has a place, and together they have the file's size.
    Even,
    /// The first one that has no place.
    Missing(Name),
    /// Each has a place, and together they have another size.
    Uneven,
}

/// The path of a directory's node. It fails for memory alone.
pub fn path_of(alloc: Global, path: &Path, name: &Text) -> Result<Path, AllocError>
    ensures { IfOk result (λ p. p ≡ path.now ++ name.now ∷ []) }
{
    let mut components = Vec::new(alloc);
    for component in path.as_slice() {
        components.push(component.clone()?)?;
    }
    components.push(name.clone()?)?;
    Ok(Path::of(components))
}

/// What is left after so many more bytes, if they aren't more.
fn take_away(left: Option<u64>, length: u32) -> Option<u64>
    ensures { (size total : ℕ) → LeftOf left size total → LeftOf result size (total + length) }
{
    match left {
        None => None,
        Some(left) => left.checked_sub(u64::from(length)),
    }
}

/// Looks up a file's blobs, in order.
pub fn check_file(lookup: &Lookup, size: u64, content: &[Name]) -> Filed
    ensures { Files lookup.now size content.now result }
{
    let mut left = Some(size);
    for name in content {
        let Some(place) = lookup.find(BlobKind::Content, name) else {
            return Filed::Missing(*name);
        };
        left = take_away(left, place.length);
    }
    match left {
        Some(0) => Filed::Even,
        _ => Filed::Uneven,
    }
}

/// Looks up the next blob of a file, so many of which were given out; or closes the file. It fails for memory
/// alone.
pub fn next_blob(
    lookup: &Lookup,
    content: &[Name],
    sent: usize,
    out: &mut Vec<Emission>,
) -> Result<Begun, AllocError>
    ensures { IfOk result (BlobFollows lookup.now content.now sent out.old.items out.new.items) }
{
    let Some(name) = content.get(sent).copied() else {
        out.push(Emission::Close)?;
        return Ok(Begun::Done);
    };
    match lookup.find(BlobKind::Content, &name) {
        Some(place) => Ok(Begun::Waits(Fact {
            kind: BlobKind::Content,
            name,
            place,
        })),
        None => Ok(Begun::Ended(End::Missing(Thing::Content, name))),
    }
}

/// Gives out a directory, and looks up its tree. It fails for memory alone.
pub fn begin_dir(
    lookup: &Lookup,
    path: Path,
    subtree: Name,
    out: &mut Vec<Emission>,
) -> Result<Begun, AllocError>
    ensures { IfOk result (DirBegins lookup.now path subtree out.old.items out.new.items) }
{
    out.push(Emission::Dir(path))?;
    match lookup.find(BlobKind::Tree, &subtree) {
        Some(place) => Ok(Begun::Waits(Fact {
            kind: BlobKind::Tree,
            name: subtree,
            place,
        })),
        None => Ok(Begun::Ended(End::Missing(Thing::Tree, subtree))),
    }
}

/// Gives out the beginning of a file, and looks up its first blob; or closes it, where it has none. It fails for memory
/// alone.
pub fn begin_file(
    lookup: &Lookup,
    path: Path,
    content: &[Name],
    out: &mut Vec<Emission>,
) -> Result<Begun, AllocError>
    ensures { IfOk result (BlobFollows lookup.now content.now 0 (out.old.items ++ Emission.File path ∷ []) out.new.items) }
{
    out.push(Emission::File(path))?;
    next_blob(lookup, content, 0, out)
}

/// What comes behind the nodes of a part, where all were given out: the tree in which the directory goes on is looked up.
pub fn next_part(lookup: &Lookup, next: Option<Name>) -> Begun
    ensures { PartFollows lookup.now next result }
{
    let Some(name) = next else {
        return Begun::Done;
    };
    match lookup.find(BlobKind::Tree, &name) {
        Some(place) => Begun::GoesOn(Fact {
            kind: BlobKind::Tree,
            name,
            place,
        }),
        None => Begun::Ended(End::Missing(Thing::Tree, name)),
    }
}
