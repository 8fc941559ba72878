//! What is kept of a tree that reads.

ghost use Rattle.std.specs.Prelude.{◌≡◌, ◌↔◌, Some, None, IfOk, IfSome, IsTrue};
ghost use Rattle.repo_reach.specs.Joints.{MayFollow};
ghost use Rattle.repo_reach.specs.declared.joints.Next.{Next};
ghost use Rattle.repo_check.specs.Keeping.{Keeps, StandsWrong, links_kept, next_kept};

use repo_name::Name;
use repo_reach::{Joint, Links, Next};
use repo_tree::Node;
use std::alloc::{AllocError, Global};
use std::cmp::Ordering;

/// What is kept of a tree that reads: what it leads to, and what joins it to other parts of a directory.
#[derive(Drop)]
pub struct Kept {
    pub links: Links,
    pub joint: Joint,
}

/// Whether the part behind may come after the one before.
fn may_follow(before: &Joint, behind: &Joint) -> bool
    ensures { IsTrue result ↔ MayFollow before.now.ends behind.now.ends }
{
    let Some(after) = &behind.ends else {
        return false;
    };
    match &before.ends {
        Some(ends) => ends.last.as_str().cmp(after.first.as_str()) == Ordering::Less,
        None => true,
    }
}

impl Kept {
    /// What is kept of a tree of these nodes, whose member `next` is this. It fails for memory alone.
    pub fn of(alloc: Global, nodes: &[Node], next: Next) -> Result<Kept, AllocError>
        ensures { IfOk result (Keeps nodes.now next) }
    {
        let links = Links::of(alloc, nodes)?;
        let joint = Joint::of(nodes, next)?;
        Ok(Kept { links, joint })
    }

    /// Whether its text is that of no part.
    pub fn is_malformed(&self) -> bool
        ensures { IsTrue result ↔ (self.now.joint.next ≡ Next.Malformed) }
    {
        match self.joint.next {
            Next::Malformed => true,
            _ => false,
        }
    }

    /// What its nodes lead to, as a part of a directory or as a directory by itself.
    pub fn links_by(&self, follows: bool) -> Option<&Links>
        ensures some { IfSome result (λ links. links_kept self.now follows ≡ Some links.now) }
        ensures none { result ≡ None → links_kept self.now follows ≡ None }
    {
        if follows && self.is_malformed() {
            return None;
        }
        Some(&self.links)
    }

    /// The tree in which it goes on, as a part of a directory; a directory by itself goes on in none.
    pub fn next_by(&self, follows: bool) -> Option<Name>
        ensures { result ≡ next_kept self.now follows }
    {
        if !follows {
            return None;
        }
        match self.joint.next {
            Next::Tree(name) => Some(name),
            _ => None,
        }
    }

    /// Whether the one behind is a part's text that may not come after this one.
    pub fn goes_wrong_in(&self, behind: &Kept) -> bool
        ensures { IsTrue result ↔ StandsWrong self.now behind.now }
    {
        !behind.is_malformed() && !may_follow(&self.joint, &behind.joint)
    }
}
