//! Walks over trees that were put together by hand.

use crate::trials::Trial;
use repo_index::{Fact, Facts, IndexText, Lookup, PackFacts};
use repo_name::{BlobKind, Name, Text};
use repo_pack::Place;
use repo_reach::{Next, Root, Trees, Turn};
use repo_tree::{Node, NodeKind};
use std::alloc::{AllocError, Global};

/// A walk, and where its trees are to be found.
#[derive(Drop)]
struct Walk {
    trees: Trees,
    lookup: Lookup,
}

/// The name of a tree.
fn tree(number: u8) -> Name {
    Name([number; 32])
}

/// The fact of a tree: it is one byte, at the offset of its number.
fn fact(number: u8) -> Fact {
    let place = Place {
        pack: tree(200),
        offset: number as u32,
        length: 1,
    };
    Fact {
        kind: BlobKind::Tree,
        name: tree(number),
        place,
    }
}

/// The facts of the trees 0 to 3.
fn facts(alloc: Global) -> Result<Lookup, AllocError> {
    let facts = Facts::of(Vec::from_slice(alloc, &[fact(0), fact(1), fact(2), fact(3)])?);
    let mut packs = Vec::new(alloc);
    packs.push(PackFacts {
        pack: tree(200),
        facts,
    })?;
    let mut lookup = Lookup::new(alloc);
    lookup.add(&IndexText::of(packs))?;
    Ok(lookup)
}

/// A walk from the tree 0, for a snapshot of this version.
fn walk_from(alloc: Global, version: u64) -> Result<Walk, AllocError> {
    let lookup = facts(alloc)?;
    let mut roots = Vec::new(alloc);
    roots.push(Root::of(tree(0), version))?;
    Ok(Walk {
        trees: Trees::new(alloc, roots),
        lookup,
    })
}

/// Directories of these trees, in this order, all of one name: a walk looks at the first and the last name alone, and only
/// where a directory goes on.
fn dirs(alloc: Global, name: &str, trees: &[u8]) -> Result<Vec<Node>, AllocError> {
    let mut nodes = Vec::new(alloc);
    for number in trees {
        let name = Text::of(String::from_str(alloc, name)?);
        let what = NodeKind::Dir {
            subtree: tree(*number),
        };
        nodes.push(Node { name, what })?;
    }
    Ok(nodes)
}

/// Adds a tree of these directories, which goes on in this tree, or nowhere where that is 0.
fn add(
    walk: &mut Walk,
    alloc: Global,
    number: u8,
    below: &[u8],
    next: u8,
) -> Result<(), AllocError> {
    let (name, next) = match next {
        0 => ("d", Next::Absent),
        _ => ("a", Next::Tree(tree(next))),
    };
    let nodes = dirs(alloc, name, below)?;
    walk.trees.add(tree(number), nodes.as_slice(), next)
}

impl Trial {
    /// This comes next, asked for again where there was no memory.
    fn comes(&mut self, walk: &mut Walk, wanted: Turn) {
        let mut turn = walk.trees.next(&walk.lookup);
        if turn.is_err() {
            self.lack();
            turn = walk.trees.next(&walk.lookup);
        }
        self.count(turn == Ok(wanted));
    }

    /// A tree is asked for and has these directories, and goes on so; it is given again where there was no memory.
    fn reads(&mut self, walk: &mut Walk, number: u8, below: &[u8], next: u8) {
        self.comes(walk, Turn::Ask(fact(number)));
        if add(walk, self.alloc, number, below, next).is_err() {
            self.lack();
            self.comes(walk, Turn::Ask(fact(number)));
            self.count(add(walk, self.alloc, number, below, next).is_ok());
        }
    }

    /// The tree 4, which no fact gives, is passed over, again where there was no memory; then all was looked at.
    fn ends_walk(&mut self, walk: &mut Walk) {
        self.comes(walk, Turn::Missing(tree(4)));
        if walk.trees.pass_over(tree(4)).is_err() {
            self.lack();
            self.count(walk.trees.pass_over(tree(4)).is_ok());
        }
        self.comes(walk, Turn::Done);
        self.comes(walk, Turn::Done);
    }

    /// A walk for a snapshot of this version, made again where there was no memory, goes over these trees, each with its
    /// directories and in what it goes on.
    fn goes_over(&mut self, version: u64, trees: &[(u8, &[u8], u8)]) {
        let mut walk = walk_from(self.alloc, version);
        if walk.is_err() {
            self.lack();
            walk = walk_from(self.alloc, version);
        }
        match walk {
            Ok(mut walk) => {
                for (number, below, next) in trees {
                    self.reads(&mut walk, *number, *below, *next);
                }
                self.ends_walk(&mut walk);
            }
            Err(_) => self.count(false),
        }
    }

    /// By hand: depth first, directories in order. The trees 2 and 3 stand at two depths each and are asked for once. Then a
    /// directory that goes on in 2: a part is asked for once the one before was read, and then the trees below come in the
    /// order of the nodes.
    pub fn walks(&mut self) {
        self.goes_over(
            1,
            &[(0, &[1, 2, 4], 0), (1, &[2], 0), (2, &[3], 0), (3, &[], 0)],
        );
        self.goes_over(2, &[(0, &[1], 2), (2, &[3], 0), (1, &[], 0), (3, &[4], 0)]);
    }
}
