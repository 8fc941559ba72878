//! A tree as a part of a directory.

ghost use Rattle.std.specs.Prelude.{◌≡◌, ◌≢◌, ◌↔◌, List, None, IfOk, IfErr, IsTrue};
ghost use Rattle.repo_tree.specs.TreeText.{IsTreeText, TreeFault};
ghost use Rattle.repo_tree.specs.declared.faults.TreeError.{TreeError};
ghost use Rattle.repo_tree.specs.declared.nodes.Node.{Node};
ghost use Rattle.repo_reach.specs.Joints.{HasEnds, MayFollow, IsJoint, SaysNext, tree_next};
ghost use Rattle.repo_reach.specs.declared.joints.Next.{Next};

use repo_name::{Name, Text};
use repo_tree::{Node, TreeError, read_part, read_tree};
use std::alloc::{AllocError, Global};
use std::cmp::Ordering;

/// What the member `next` of a tree's text is.
#[derive(Clone, Copy, Debug, PartialEq, Eq)]
pub enum Next {
    /// There is none: as a part it is the last one.
    Absent,
    /// The directory goes on in this tree.
    Tree(Name),
    /// It isn't a name: this is no part's text.
    Malformed,
}

/// The names of the first and of the last node of a tree.
#[derive(Drop)]
pub struct Ends {
    pub first: Text,
    pub last: Text,
}

/// What joins a tree to the parts before and behind it.
#[derive(Drop)]
pub struct Joint {
    pub next: Next,
    /// None where it has no nodes.
    pub ends: Option<Ends>,
}

/// The name of a node. It fails for memory alone.
fn name_of(node: &Node) -> Result<Text, AllocError>
    ensures { IfOk result (λ name. name ≡ node.now.name) }
{
    node.name.clone()
}

/// The names of the first and of the last of some nodes, if there are any. It fails for memory alone.
fn ends_of(nodes: &[Node]) -> Result<Option<Ends>, AllocError>
    ensures { IfOk result (HasEnds nodes.now) }
{
    let Some(first) = nodes.first() else {
        return Ok(None);
    };
    let Some(last) = nodes.last() else {
        return Ok(None);
    };
    let first = name_of(first)?;
    let last = name_of(last)?;
    Ok(Some(Ends { first, last }))
}

impl Next {
    /// That of a part that goes on in this tree, if in any.
    fn of(next: Option<Name>) -> Next
        ensures next { tree_next result ≡ next }
        ensures part { result ≢ Next.Malformed }
    {
        match next {
            Some(name) => Next::Tree(name),
            None => Next::Absent,
        }
    }
}

/// The nodes of a tree of which this is the text, and what its member `next` is. Its faults are those of
/// [`read_tree`]: a `next` that isn't a name is none of them.
pub fn read_with_next(alloc: Global, bytes: &[u8]) -> Result<(Vec<Node>, Next), TreeError>
    ensures ok { IfOk result (λ read. SaysNext bytes.now read.0.items read.1) }
    ensures fault { IfErr result (TreeFault bytes.now) }
    ensures none { IfErr result (λ e. e ≢ TreeError.Memory → (nodes : List Node) → ¬ IsTreeText bytes.now nodes) }
{
    match read_part(alloc, bytes) {
        Ok((nodes, next)) => Ok((nodes, Next::of(next))),
        Err(error) => {
            error.check_fault()?;
            let nodes = read_tree(alloc, bytes)?;
            Ok((nodes, Next::Malformed))
        }
    }
}

impl Joint {
    /// That of a tree of these nodes. It fails for memory alone.
    pub fn of(nodes: &[Node], next: Next) -> Result<Joint, AllocError>
        ensures { IfOk result (IsJoint nodes.now next) }
    {
        let ends = ends_of(nodes)?;
        Ok(Joint { next, ends })
    }

    /// That of a tree of which nothing is known.
    pub(crate) fn none() -> Joint
        ensures { result ≡ record { next = Next.Absent; ends = None } }
    {
        Joint {
            next: Next::Absent,
            ends: None,
        }
    }

    /// Whether the part behind may come after this one.
    pub(crate) fn may_go_on(&self, behind: &Joint) -> bool
        ensures { IsTrue result ↔ MayFollow self.now.ends behind.now.ends }
    {
        let Some(after) = &behind.ends else {
            return false;
        };
        match &self.ends {
            Some(before) => before.last.as_str().cmp(after.first.as_str()) == Ordering::Less,
            None => true,
        }
    }
}
