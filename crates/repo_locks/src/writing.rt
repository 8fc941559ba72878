//! The parts of the ledger's bytes, appended to some bytes. Each call fails for memory alone.

ghost use Rattle.std.specs.Prelude.{◌≡◌, ◌≤◌, ◌++◌, length, All, OnOk};
ghost use Rattle.std.specs.BTreeMap.{values};
ghost use Rattle.repo_name.specs.Rows.{number, rows_bytes, IsRow};
ghost use Rattle.repo_locks.specs.TokenMachine.{fresh_limit, live_limit};
ghost use Rattle.repo_locks.specs.LedgerBytes.{fresh_bytes};

use repo_name::{LockRow, Token, append_count, append_row};
use std::alloc::AllocError;
use std::collections::{BTreeMap, BTreeSet};

/// Appends a number, its highest byte first.
pub fn append_number(value: u64, out: &mut Vec<u8>) -> Result<(), AllocError>
    ensures { OnOk result (out.new.items ≡ out.old.items ++ number value) }
{
    out.extend_from_slice(&value.to_be_bytes())
}

/// Appends fresh numbers, behind their count.
pub fn append_fresh(numbers: &BTreeSet<Token>, out: &mut Vec<u8>) -> Result<(), AllocError>
    requires { length numbers.now.keys ≤ fresh_limit }
    ensures { OnOk result (out.new.items ≡ out.old.items ++ fresh_bytes numbers.now.keys) }
{
    append_count(numbers.len(), out)?;
    for number in numbers {
        append_number(number.0, out)?;
    }
    Ok(())
}

/// Appends the rows of live numbers, behind their count.
pub fn append_live(rows: &BTreeMap<Token, LockRow>, out: &mut Vec<u8>) -> Result<(), AllocError>
    requires few { length (values rows.now) ≤ live_limit }
    requires rows { All IsRow (values rows.now) }
    ensures { OnOk result (out.new.items ≡ out.old.items ++ rows_bytes (values rows.now)) }
{
    append_count(rows.len(), out)?;
    for row in rows.values() {
        append_row(row, out)?;
    }
    Ok(())
}
