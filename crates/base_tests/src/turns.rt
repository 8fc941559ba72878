//! Bytes of each format that is a value's and not a machine's: they are read, copied, and written back.

use repo_index::{IndexError, IndexText};
use repo_locks::{Ledger, LedgerError};
use repo_name::{append_row, read_row};
use repo_tree::{
    Config, Node, Snapshot, TextError, TreeError, part_sizes, read_part, read_tree, write_part,
    write_tree,
};
use std::alloc::{AllocError, Global};

/// Whether the row of some bytes, with none left, is written as them.
pub fn row_turned(alloc: Global, bytes: &[u8]) -> Result<bool, LedgerError> {
    let (row, rest) = read_row(alloc, bytes)?;
    let mut out = Vec::new(alloc);
    append_row(&row, &mut out)?;
    Ok(rest.is_empty() && out.as_slice() == bytes)
}

/// Whether the tree of some bytes, copied, is written as them.
pub fn tree_turned(alloc: Global, bytes: &[u8]) -> Result<bool, TreeError> {
    let nodes = read_tree(alloc, bytes)?;
    let copies: Result<Vec<Node>, AllocError> = nodes.clone();
    let text = write_tree(alloc, copies?.as_slice())?;
    Ok(text.as_slice() == bytes)
}

/// Whether the part of some bytes, which is all of its directory where it is cut, is written as them.
pub fn part_turned(alloc: Global, bytes: &[u8]) -> Result<bool, TreeError> {
    let (nodes, next) = read_part(alloc, bytes)?;
    let sizes = part_sizes(alloc, nodes.as_slice())?;
    let text = write_part(alloc, nodes.as_slice(), next.as_ref())?;
    Ok(sizes.as_slice() == [nodes.len()].as_slice() && text.as_slice() == bytes)
}

/// Whether the snapshot of some bytes, copied, is written as them.
pub fn snapshot_turned(alloc: Global, bytes: &[u8]) -> Result<bool, TextError> {
    let snapshot = Snapshot::read(alloc, bytes)?;
    let copy: Result<Snapshot, AllocError> = snapshot.clone();
    let text = copy?.write(alloc)?;
    Ok(text.as_slice() == bytes)
}

/// Whether the config of some bytes is written as them.
pub fn config_turned(alloc: Global, bytes: &[u8]) -> Result<bool, TextError> {
    let config = Config::read(alloc, bytes)?;
    let text = config.write(alloc)?;
    Ok(text.as_slice() == bytes)
}

/// Whether the index of some bytes is written as them.
pub fn index_turned(alloc: Global, bytes: &[u8]) -> Result<bool, IndexError> {
    let index = IndexText::read(alloc, bytes)?;
    let text = index.write(alloc)?;
    Ok(text.as_slice() == bytes)
}

/// Whether the ledger of some bytes, copied, is written as them.
pub fn ledger_turned(alloc: Global, bytes: &[u8]) -> Result<bool, LedgerError> {
    let ledger = Ledger::read(alloc, bytes)?;
    let written = ledger.copy()?.write()?;
    Ok(written.as_slice() == bytes)
}
