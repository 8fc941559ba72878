//! Whether files have the sizes that their trees give them.

ghost use Rattle.std.specs.Prelude.{◌≡◌, ◌↔◌, IsTrue, IsFalse, Contains, ℕ};
ghost use Rattle.repo_tree.specs.declared.nodes.Node.{Node};
ghost use Rattle.repo_check.specs.Measures.{Measures, HasLost, SuitsSize, IsUnsuited};

use repo_index::Lookup;
use repo_name::{BlobKind, Name};
use repo_tree::{Node, NodeKind};

/// Whether content blobs lie somewhere, each of them, and have so many bytes together. It takes no memory.
fn sums_to(lookup: &Lookup, content: &[Name], size: u64) -> bool
    ensures { IsTrue result ↔ Measures lookup.now content.now size }
{
    let mut left = size;
    for name in content {
        let Some(place) = lookup.find(BlobKind::Content, name) else {
            return false;
        };
        let Some(rest) = left.checked_sub(place.length as u64) else {
            return false;
        };
        left = rest;
    }
    left == 0
}

/// Whether one of some content blobs lies nowhere. It takes no memory.
fn has_lost(lookup: &Lookup, content: &[Name]) -> bool
    ensures yes { IsTrue result → HasLost lookup.now content.now }
    ensures no { IsFalse result → (sum : ℕ) × Measures lookup.now content.now sum }
{
    for name in content {
        if lookup.find(BlobKind::Content, name).is_none() {
            return true;
        }
    }
    false
}

/// Whether a node is no file, or one whose size is right, or one of whose blobs lies nowhere. It takes no memory.
fn suits(lookup: &Lookup, node: &Node) -> bool
    ensures yes { IsTrue result → SuitsSize lookup.now node.now.what }
    ensures no { IsFalse result → IsUnsuited lookup.now node.now.what }
{
    match &node.what {
        NodeKind::Dir { .. } => true,
        NodeKind::File { size, content } => {
            let content = content.as_slice();
            sums_to(lookup, content, *size) || has_lost(lookup, content)
        }
    }
}

/// Whether all nodes are so. It takes no memory.
pub fn all_suit(lookup: &Lookup, nodes: &[Node]) -> bool
    ensures all { IsTrue result → (node : Node) → Contains nodes.now node → SuitsSize lookup.now node.what }
    ensures some { IsFalse result → (node : Node) × Contains nodes.now node × IsUnsuited lookup.now node.what }
{
    for node in nodes {
        if !suits(lookup, node) {
            return false;
        }
    }
    true
}
