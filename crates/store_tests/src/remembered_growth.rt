//! Answers of a shelf that remembers for which there is no memory at some moment. The test holds whichever one growth is
//! refused: the store is then as before, also by what is remembered, and the same succeeds when it is asked again.

use crate::asks::{CASES, Case, said};
use crate::growth::{surely_asked, surely_due, surely_ready};
use crate::remembering::{Remembering, around, is_after};
use repo_store::Shelf;
use repo_wire::{Code, Say};
use std::alloc::{AllocError, Global};

/// The ledger and the names of packs are known afterwards, whichever growth is refused.
fn learn(alloc: Global, shelf: &mut Remembering) {
    for case in [Case::Locks, Case::List, Case::Locks, Case::List] {
        if let Ok(ask) = surely_asked(alloc, case) {
            said(alloc, shelf, ask);
        }
    }
}

/// Whether a store is as before an ask, by what is known and by what is read.
fn is_as_before(alloc: Global, shelf: &mut Remembering, case: Case) -> bool {
    if !is_after(alloc, shelf, case, false) {
        return false;
    }
    shelf.forget();
    is_after(alloc, shelf, case, false)
}

/// Whether an ask is answered as it has to be, at once or when it is asked again of a store that is as before.
fn is_answered(alloc: Global, shelf: &mut Remembering, case: Case) -> Result<bool, AllocError> {
    let mut say = said(alloc, shelf, surely_asked(alloc, case)?);
    if say == Say::Refused(Code::NoMemory) {
        if !is_as_before(alloc, shelf, case) {
            return Ok(false);
        }
        say = said(alloc, shelf, surely_asked(alloc, case)?);
    }
    Ok(say == surely_due(alloc, case)? && shelf.failures() == 0)
}

/// Whether an ask is answered as it has to be where nothing is known, and where the ledger and the names of packs are.
fn is_answered_in_both(alloc: Global, case: Case) -> Result<bool, AllocError> {
    let mut unknown = around(alloc, surely_ready(alloc, case)?);
    let mut known = around(alloc, surely_ready(alloc, case)?);
    learn(alloc, &mut known);
    let answers = is_answered(alloc, &mut unknown, case)?;
    Ok(answers && is_answered(alloc, &mut known, case)?)
}

/// How many asks weren't answered as they have to be.
fn differing(alloc: Global) -> u64 {
    let mut differ = 0u64;
    for case in CASES {
        if is_answered_in_both(alloc, case) != Ok(true) {
            differ = differ.saturating_add(1);
        }
    }
    differ
}

#[test]
fn refused_growth_of_what_is_remembered(rt: HostRuntime) {
    assert_eq!(rt; differing(rt.alloc()), 0);
}
