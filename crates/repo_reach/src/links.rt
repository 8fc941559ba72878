//! What the nodes of a tree lead to.

ghost use Rattle.std.specs.Prelude.{◌≡◌, IfOk};
ghost use Rattle.repo_reach.specs.Links.{LeadTo};

use repo_name::Name;
use repo_tree::{Node, NodeKind};
use std::alloc::{AllocError, Global};

/// The blobs that the nodes of a tree name, in order.
#[derive(Drop)]
pub struct Links {
    /// The trees of its directories.
    pub trees: Vec<Name>,
    /// The content of its files.
    pub content: Vec<Name>,
    /// Whether there are no nodes.
    pub is_bare: bool,
}

impl Links {
    /// What some nodes lead to. It fails for memory alone.
    pub fn of(alloc: Global, nodes: &[Node]) -> Result<Links, AllocError>
        ensures { IfOk result (LeadTo nodes.now) }
    {
        let mut trees = Vec::new(alloc);
        let mut content = Vec::new(alloc);
        for node in nodes {
            match &node.what {
                NodeKind::Dir { subtree } => trees.push(*subtree)?,
                NodeKind::File { content: names, .. } => content.extend_from_slice(
                    names.as_slice(),
                )?,
            }
        }
        Ok(Links {
            trees,
            content,
            is_bare: nodes.is_empty(),
        })
    }
}
