//! The steps of a walk over open directories.

ghost use Rattle.std.specs.Prelude.{◌≡◌, ◌+◌, ◌++◌, ◌∷◌, [], ℕ, length, slice_get, Some, IfOk};
ghost use Rattle.repo_session.specs.declared.emissions.Emission.{Emission};
ghost use Rattle.repo_session.specs.Rebuilding.{rebuilt};
ghost use Rattle.repo_restore.specs.declared.nodes.Level.{Level};
ghost use Rattle.repo_restore.specs.Restoring.{counted};
ghost use Rattle.repo_restore.specs.Walking.{NodeBegins, BeginsNext, GoesToStop};
ghost use Rattle.repo_restore.specs.Moves.{NextMoves, StopMoves};

use crate::nodes::{Begun, Filed, Level, begin_dir, begin_file, check_file, next_part, path_of};
use repo_index::Lookup;
use repo_name::Thing;
use repo_session::{Emission, End};
use repo_tree::{Node, NodeKind};
use std::alloc::{AllocError, Global};

/// Where the nodes of a level stop.
#[derive(Clone, Copy, Debug)]
pub struct Next {
    /// How many of the level's nodes were begun.
    pub begun: usize,
    /// What became of the last one.
    pub what: Begun,
}

/// Where a walk stops.
#[derive(Clone, Copy, Debug)]
pub struct Stop {
    /// How many levels stay open above the one it stops at.
    pub depth: usize,
    /// How many of that level's nodes were begun.
    pub begun: usize,
    /// What became of the last one; all was given out where it is done.
    pub what: Begun,
}

/// Whether an emission is of a directory or a file, as a number.
fn entries_of(emission: &Emission) -> u64
    ensures { result ≡ length (rebuilt (emission.now ∷ [])) }
{
    match emission {
        Emission::Dir(_) => 1,
        Emission::File(_) => 1,
        Emission::Piece(_) => 0,
        Emission::Close => 0,
    }
}

/// How many directories and files there are among some emissions.
pub fn count_entries(emitted: &[Emission]) -> u64
    ensures { result ≡ counted (length (rebuilt emitted.now)) }
{
    let mut count: u64 = 0;
    for emission in emitted {
        count = count.saturating_add(entries_of(emission));
    }
    count
}

/// Gives out a node, or its beginning: a file's only where all its blobs have places, and together its size. It fails for
/// memory alone.
fn begin_node(
    alloc: Global,
    lookup: &Lookup,
    level: &Level,
    node: &Node,
    out: &mut Vec<Emission>,
) -> Result<Begun, AllocError>
    ensures { IfOk result (NodeBegins lookup.now level.now.tree (level.now.path ++ node.now.name ∷ []) node.now.what out.old.items out.new.items) }
{
    let path = path_of(alloc, &level.path, &node.name)?;
    match &node.what {
        NodeKind::Dir { subtree } => begin_dir(lookup, path, *subtree, out),
        NodeKind::File { size, content } => match check_file(lookup, *size, content.as_slice()) {
            Filed::Even => begin_file(lookup, path, content.as_slice(), out),
            Filed::Missing(name) => Ok(Begun::Ended(End::Missing(Thing::Content, name))),
            Filed::Uneven => Ok(Begun::Ended(End::BadObject(Thing::Tree, level.tree))),
        },
    }
}

/// Gives out the next nodes of a level, up to one that waits, or to the part in which it goes on. It fails for memory alone.
fn begin_next(
    alloc: Global,
    lookup: &Lookup,
    level: &Level,
    begun: usize,
    out: &mut Vec<Emission>,
) -> Result<Next, AllocError>
    ensures begins { IfOk result (λ next. BeginsNext lookup.now level.now begun out.old.items out.new.items next.begun next.what) }
    ensures moves { IfOk result (λ next. NextMoves level.now.nodes.items begun out.old.items out.new.items next.what) }
{
    for at in begun..level.nodes.len() {
        match begin_node(alloc, lookup, level, &level.nodes[at], out)? {
            Begun::Done => {}
            Begun::Waits(fact) => {
                return Ok(Next {
                    begun: at + 1,
                    what: Begun::Waits(fact),
                });
            }
            Begun::GoesOn(fact) => {
                return Ok(Next {
                    begun: at + 1,
                    what: Begun::GoesOn(fact),
                });
            }
            Begun::Ended(end) => {
                return Ok(Next {
                    begun: at + 1,
                    what: Begun::Ended(end),
                });
            }
        }
    }
    Ok(Next {
        begun: level.nodes.len(),
        what: next_part(lookup, level.next),
    })
}

/// How many nodes were begun of the level above one.
fn begun_above(levels: &[Level], depth: usize) -> usize
    ensures { (above : ℕ) (level : Level) → depth ≡ above + 1 → slice_get levels.now above ≡ Some level → result ≡ level.begun }
{
    match depth.checked_sub(1) {
        None => 0,
        Some(above) => match levels.get(above) {
            None => 0,
            Some(level) => level.begun,
        },
    }
}

/// Gives out what comes next from the innermost level on, up to a node that waits. It fails for memory alone.
pub fn go_on(
    alloc: Global,
    lookup: &Lookup,
    levels: &[Level],
    begun: usize,
    out: &mut Vec<Emission>,
) -> Result<Stop, AllocError>
    ensures goes { IfOk result (λ stop. GoesToStop lookup.now levels.now begun out.old.items out.new.items stop.depth stop.begun stop.what) }
    ensures moves { IfOk result (λ stop. StopMoves levels.now begun out.old.items out.new.items stop.what) }
{
    let mut begun = begun;
    for up in 0..levels.len() {
        let depth = levels.len() - 1 - up;
        let next = begin_next(alloc, lookup, &levels[depth], begun, out)?;
        match next.what {
            Begun::Done => {}
            Begun::Waits(fact) => {
                return Ok(Stop {
                    depth,
                    begun: next.begun,
                    what: Begun::Waits(fact),
                });
            }
            Begun::GoesOn(fact) => {
                return Ok(Stop {
                    depth,
                    begun: next.begun,
                    what: Begun::GoesOn(fact),
                });
            }
            Begun::Ended(end) => {
                return Ok(Stop {
                    depth,
                    begun: next.begun,
                    what: Begun::Ended(end),
                });
            }
        }
        begun = begun_above(levels, depth);
    }
    Ok(Stop {
        depth: 0,
        begun: 0,
        what: Begun::Done,
    })
}
