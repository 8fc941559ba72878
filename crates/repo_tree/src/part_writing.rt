//! The texts of parts of a directory, written.

ghost use Rattle.std.specs.Prelude.{◌≡◌, ◌≤◌, ◌⊎◌, length, Some, option_map, IfOk, IfErr, IfSome, OnOk, All};
ghost use Rattle.serde_json.specs.View.{view};
ghost use Rattle.repo_name.specs.Naming.{IsName};
ghost use Rattle.repo_tree.specs.Parts.{IsPartText};
ghost use Rattle.repo_tree.specs.PartWriting.{part_data, part_text, PartIsUnwritable};
ghost use Rattle.repo_tree.specs.TreeWriting.{AreWritable};
ghost use Rattle.repo_tree.specs.inner.Named.{AreNamed};
ghost use Rattle.repo_tree.specs.declared.faults.TreeError.{TreeError};

use crate::faults::TreeError;
use crate::nodes::Node;
use crate::tree_writing::{check_nodes, name_value, nodes_value, tree_value};
use repo_name::{BLOB_LIMIT, Name};
use serde_json::{Value, json};
use std::alloc::{AllocError, Global};

/// The object of a part that goes on in the tree of this name.
fn onward_value(alloc: Global, nodes: &[Node], next: Name) -> Result<Value, AllocError>
    ensures value { IfOk result (λ v. view v ≡ part_data nodes.now (Some next)) }
    ensures named { OnOk result (All (λ n. AreNamed n.what) nodes.now) }
    ensures goes_on { OnOk result (IsName next) }
{
    let next = name_value(alloc, next)?;
    let nodes = nodes_value(alloc, nodes)?;
    json!(in alloc; {"next": next, "nodes": nodes})
}

/// The object of a part.
fn part_value(alloc: Global, nodes: &[Node], next: Option<Name>) -> Result<Value, AllocError>
    ensures value { IfOk result (λ v. view v ≡ part_data nodes.now next) }
    ensures named { OnOk result (All (λ n. AreNamed n.what) nodes.now) }
    ensures goes_on { OnOk result (IfSome next IsName) }
{
    match next {
        Some(next) => onward_value(alloc, nodes, next),
        None => tree_value(alloc, nodes),
    }
}

/// The text of a part, as [`write_part`] gives it.
fn written_part(alloc: Global, nodes: &[Node], next: Option<Name>) -> Result<Vec<u8>, TreeError>
    ensures text { IfOk result (λ text. text.items ≡ part_text nodes.now next) }
    ensures reads { IfOk result (λ text. IsPartText text.items nodes.now next) }
    ensures some { IfOk result (λ text. 1 ≤ length text.items) }
    ensures fault { IfErr result (PartIsUnwritable nodes.now next) }
    ensures writable { IfErr result (λ e. AreWritable nodes.now → (e ≡ TreeError.TooLarge) ⊎ (e ≡ TreeError.Memory)) }
{
    check_nodes(nodes)?;
    let value = part_value(alloc, nodes, next)?;
    let text = value.to_vec(alloc)?;
    if text.len() > BLOB_LIMIT {
        return Err(TreeError::TooLarge);
    }
    Ok(text)
}

/// The text of a part of a directory: of these nodes, with the name of the tree in which the directory goes on, if it goes
/// on. Without that it is the text of a tree. Faults come as in [`write_tree`](crate::write_tree); the text with its next name
/// is what may be `TooLarge`.
pub fn write_part(alloc: Global, nodes: &[Node], next: Option<&Name>) -> Result<Vec<u8>, TreeError>
    ensures text { IfOk result (λ text. text.items ≡ part_text nodes.now (option_map (λ name. name.now) next.entry)) }
    ensures reads { IfOk result (λ text. IsPartText text.items nodes.now (option_map (λ name. name.now) next.entry)) }
    ensures some { IfOk result (λ text. 1 ≤ length text.items) }
    ensures fault { IfErr result (PartIsUnwritable nodes.now (option_map (λ name. name.now) next.entry)) }
    ensures writable { IfErr result (λ e. AreWritable nodes.now → (e ≡ TreeError.TooLarge) ⊎ (e ≡ TreeError.Memory)) }
{
    written_part(alloc, nodes, next.copied())
}
