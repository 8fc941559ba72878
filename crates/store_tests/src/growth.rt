//! Answers, a new store and a connection for which there is no memory at some moment. Each of these tests holds whichever
//! one growth is refused: the answer is then the one for want of memory, and the same succeeds when it is asked again.

ghost use Rattle.std.specs.Prelude.{IfOk};
ghost use Rattle.repo_store.specs.StoreMachine.{IsAnswerable};

use crate::asks::{CASES, Case, ask_of, due, ready, said};
use crate::connections::TICKET;
use crate::failures::made;
use repo_store::{InitError, MemShelf, ServeError, serve};
use repo_wire::{Ask, Code, Say};
use std::alloc::{AllocError, Global};

/// An ask, made once more where there was no memory for it.
pub fn surely_asked(alloc: Global, case: Case) -> Result<Ask, AllocError>
    ensures { IfOk result IsAnswerable }
{
    match ask_of(alloc, case) {
        Err(_) => ask_of(alloc, case),
        ask => ask,
    }
}

/// What a store says, asked again where it says that there is no memory.
fn surely_said(alloc: Global, shelf: &mut MemShelf, case: Case) -> Result<Say, AllocError> {
    match said(alloc, shelf, surely_asked(alloc, case)?) {
        Say::Refused(Code::NoMemory) => Ok(said(alloc, shelf, surely_asked(alloc, case)?)),
        say => Ok(say),
    }
}

/// A shelf of which this is asked, made once more where there was no memory for it.
pub fn surely_ready(alloc: Global, case: Case) -> Result<MemShelf, AllocError> {
    match ready(alloc, case) {
        Err(_) => ready(alloc, case),
        shelf => shelf,
    }
}

/// What has to be said, made once more where there was no memory for it.
pub fn surely_due(alloc: Global, case: Case) -> Result<Say, AllocError> {
    match due(alloc, case) {
        Err(_) => due(alloc, case),
        say => say,
    }
}

/// Whether an ask is answered as it has to be.
fn is_answered(alloc: Global, case: Case) -> Result<bool, AllocError> {
    let mut shelf = surely_ready(alloc, case)?;
    let say = surely_said(alloc, &mut shelf, case)?;
    let due = surely_due(alloc, case)?;
    Ok(say == due)
}

/// How many asks weren't answered as they have to be.
fn differing(alloc: Global) -> u64 {
    let mut differ = 0u64;
    for case in CASES {
        if is_answered(alloc, case) != Ok(true) {
            differ = differ.saturating_add(1);
        }
    }
    differ
}

#[test]
fn refused_growth_of_each_ask(rt: HostRuntime) {
    assert_eq!(rt; differing(rt.alloc()), 0);
}

/// What the making of a new store gives, tried again where there was no memory.
fn surely_made(alloc: Global, shelf: &mut MemShelf) -> Result<(), InitError> {
    match made(alloc, shelf) {
        Err(InitError::Memory) => made(alloc, shelf),
        made => made,
    }
}

#[test]
fn refused_growth_of_a_new_store(rt: HostRuntime) {
    let mut shelf = MemShelf::new(rt.alloc());
    let first = surely_made(rt.alloc(), &mut shelf);
    let again = surely_made(rt.alloc(), &mut shelf);
    assert!(rt; first == Ok(()) && again == Err(InitError::Exists));
}

/// What came of serving one ticket, and how many bytes were written.
fn served(alloc: Global, shelf: &mut MemShelf) -> (Result<u64, ServeError>, usize) {
    let mut input = TICKET.as_slice();
    let mut output = Vec::new(alloc);
    let ended = serve(alloc, &mut input, &mut output, shelf);
    (ended, output.len())
}

/// Whether a connection ended for want of memory: by the refusal, which has 30 bytes, or by an error. Where the output
/// can't grow, it is the writer that fails.
fn is_starved(end: (Result<u64, ServeError>, usize)) -> bool {
    end == (Ok(1), 30) || matches!(end.0, Err(ServeError::Memory | ServeError::Write))
}

/// Whether a ticket is given, which has 37 bytes, at once or when it is asked again after want of memory.
fn is_served(alloc: Global) -> bool {
    let mut shelf = MemShelf::new(alloc);
    let first = served(alloc, &mut shelf);
    if first == (Ok(1), 37) {
        return true;
    }
    is_starved(first) && served(alloc, &mut shelf) == (Ok(1), 37)
}

#[test]
fn refused_growth_of_a_connection(rt: HostRuntime) {
    assert!(rt; is_served(rt.alloc()));
}
