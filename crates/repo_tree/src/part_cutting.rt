//! How the nodes of a directory are cut into parts.

ghost use Rattle.std.specs.Prelude.{◌≡◌, ◌≤◌, ◌∷◌, ℕ, List, length, map, IfOk};
ghost use Rattle.repo_tree.specs.PartSizes.{node_length, node_lengths, fitting, next_size};
ghost use Rattle.repo_tree.specs.PartWriting.{parts_of};

use crate::nodes::Node;
use crate::tree_writing::node_value;
use repo_name::BLOB_LIMIT;
use std::alloc::{AllocError, Global};

/// The bytes of a part's text beside its nodes, where it goes on in none.
const LAST_FRAME: usize = 11;

/// And where it goes on.
const PART_FRAME: usize = 85;

/// How many bytes a node has in a text. It fails for memory alone.
fn node_len(alloc: Global, node: &Node) -> Result<usize, AllocError>
    ensures { IfOk result (λ len. len ≡ node_length node.now) }
{
    let value = node_value(alloc, node)?;
    let text = value.to_vec(alloc)?;
    Ok(text.len())
}

/// How many bytes each of some nodes has in a text. It fails for memory alone.
fn node_lens(alloc: Global, nodes: &[Node]) -> Result<Vec<usize>, AllocError>
    ensures { IfOk result (λ lens. lens.items ≡ node_lengths nodes.now) }
{
    let mut lens = Vec::new(alloc);
    for node in nodes {
        let len = node_len(alloc, node)?;
        lens.push(len)?;
    }
    Ok(lens)
}

/// How many nodes of these lengths, the first ones, find room.
fn fitting_in(lens: &[usize], room: usize) -> usize
    ensures fits { result ≡ fitting room lens.now }
    ensures few { result ≤ length lens.now }
{
    let mut left = room;
    for (i, len) in lens.iter().enumerate() {
        if *len >= left {
            return i;
        }
        left -= *len + 1;
    }
    lens.len()
}

/// How many nodes the next part has, of some of these lengths.
fn next_len(lens: &[usize]) -> usize
    requires { 1 ≤ length lens.now }
    ensures size { (len : ℕ) (rest : List ℕ) → lens.now ≡ len ∷ rest → result ≡ next_size len rest }
    ensures some { 1 ≤ result }
    ensures few { result ≤ length lens.now }
{
    if fitting_in(lens, BLOB_LIMIT - LAST_FRAME) == lens.len() {
        return lens.len();
    }
    let room = (BLOB_LIMIT - PART_FRAME)
        .saturating_sub(lens[0])
        .saturating_sub(1);
    fitting_in(&lens[1..], room) + 1
}

/// How many nodes each part has, of nodes with texts of these lengths. It fails for memory alone.
fn sizes_of(alloc: Global, nodes: &[Node], lens: &[usize]) -> Result<Vec<usize>, AllocError>
    requires lens { lens.now ≡ node_lengths nodes.now }
    requires some { 1 ≤ length nodes.now }
    ensures { IfOk result (λ sizes. sizes.items ≡ map length (parts_of nodes.now)) }
{
    let mut sizes = Vec::new(alloc);
    let mut at = 0;
    while at < lens.len() {
        let size = next_len(&lens[at..]);
        sizes.push(size)?;
        at += size;
    }
    Ok(sizes)
}

/// How many nodes each part of a directory of these nodes has, from the first part to the last. It fails for memory alone.
///
/// From the first node on, as many as fit a part that goes on are one, and at least one; all that are left are the last where they fit
/// a part that goes on in none. A directory without nodes has one part without nodes.
pub fn part_sizes(alloc: Global, nodes: &[Node]) -> Result<Vec<usize>, AllocError>
    ensures { IfOk result (λ sizes. sizes.items ≡ map length (parts_of nodes.now)) }
{
    if nodes.is_empty() {
        let mut sizes = Vec::new(alloc);
        sizes.push(0)?;
        return Ok(sizes);
    }
    let lens = node_lens(alloc, nodes)?;
    sizes_of(alloc, nodes, lens.as_slice())
}
