//! The ledger's collections made of lists, and the list of the live rows. Each call fails for memory alone.

ghost use Rattle.std.specs.Prelude.{◌≡◌, IfOk};
ghost use Rattle.std.specs.BTreeMap.{values};
ghost use Rattle.repo_locks.specs.TokenMachine.{tokens_of};
ghost use Rattle.repo_locks.specs.TokenMaps.{AreAscending, AreUnderTokens};

use crate::searches::put_row;
use repo_name::{LockRow, Token};
use std::alloc::{AllocError, Global};
use std::collections::{BTreeMap, BTreeSet};

/// The set of numbers that ascend.
pub fn set_of_numbers(alloc: Global, numbers: &[Token]) -> Result<BTreeSet<Token>, AllocError>
    requires { AreAscending numbers.now }
    ensures { IfOk result (λ set. set.keys ≡ numbers.now) }
{
    let mut set = BTreeSet::new(alloc);
    for number in numbers {
        set.insert(*number)?;
    }
    Ok(set)
}

/// The map of rows that ascend by token, each under its token.
pub fn map_of_rows(
    alloc: Global,
    rows: Vec<LockRow>,
) -> Result<BTreeMap<Token, LockRow>, AllocError>
    requires { AreAscending (tokens_of rows.items) }
    ensures { IfOk result (λ map. (values map ≡ rows.items) × AreUnderTokens map.entries) }
{
    let mut map = BTreeMap::new(alloc);
    for row in rows {
        put_row(&mut map, row)?;
    }
    Ok(map)
}

/// A list of the rows, ascending by token.
pub fn list_of_rows(
    alloc: Global,
    rows: &BTreeMap<Token, LockRow>,
) -> Result<Vec<LockRow>, AllocError>
    ensures { IfOk result (λ list. list.items ≡ values rows.now) }
{
    let mut list = Vec::with_capacity(alloc, rows.len())?;
    for row in rows.values() {
        list.push(row.clone()?)?;
    }
    Ok(list)
}
