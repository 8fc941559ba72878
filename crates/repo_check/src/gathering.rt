//! What the notes of a round give together.

ghost use Rattle.std.specs.Prelude.{◌≡◌, map, IfOk, OnOk, [], flat_map};
ghost use Rattle.repo_index.specs.Lookups.{Joins};
ghost use Rattle.repo_check.specs.Gathering.{facts_noted, fault_noted, root_noted};
ghost use Rattle.repo_check.specs.Visiting.{BeginsAt};
ghost use Rattle.repo_check.specs.inner.Gaining.{AddsRoots};

use crate::queues::Visits;
use crate::rounds::Note;
use crate::visiting::Visit;
use repo_index::{IndexText, Lookup};
use repo_reach::Root;
use repo_session::FaultKind;
use std::alloc::{AllocError, Global};

/// Adds the facts of an index that reads. It fails for memory alone.
fn add_facts(lookup: &mut Lookup, note: &Note<IndexText>) -> Result<(), AllocError>
    ensures { OnOk result (Joins lookup.old (facts_noted note.now) lookup.new) }
{
    match note {
        Note::Well(text) => lookup.add(text),
        Note::Fault(_) => Ok(()),
    }
}

/// The look-up over all indexes that read. It fails for memory alone.
pub fn lookup_of(alloc: Global, notes: &[Note<IndexText>]) -> Result<Lookup, AllocError>
    ensures { IfOk result (λ lookup. Joins [] (flat_map facts_noted notes.now) lookup) }
{
    let mut lookup = Lookup::new(alloc);
    for note in notes {
        add_facts(&mut lookup, note)?;
    }
    Ok(lookup)
}

/// Adds the visit of the root of a snapshot that reads. It fails for memory alone.
fn add_root(visits: &mut Visits, note: &Note<Root>) -> Result<(), AllocError>
    ensures { OnOk result (AddsRoots visits.old (root_noted note.now) visits.new) }
{
    match note {
        Note::Well(root) => visits.add(Visit {
            tree: root.tree,
            follows: root.follows,
            depth: 0,
        }),
        Note::Fault(_) => Ok(()),
    }
}

/// The visits of the roots of all snapshots that read. It fails for memory alone.
pub fn visits_of(alloc: Global, notes: &[Note<Root>]) -> Result<Visits, AllocError>
    ensures { IfOk result (BeginsAt (flat_map root_noted notes.now)) }
{
    let mut visits = Visits::none(alloc);
    for note in notes {
        add_root(&mut visits, note)?;
    }
    Ok(visits)
}

/// What is at fault of an object, if something is. It takes no memory.
fn fault_of<T: Drop>(note: &Note<T>) -> Option<FaultKind>
    ensures { result ≡ fault_noted note.now }
{
    match note {
        Note::Well(_) => None,
        Note::Fault(what) => Some(*what),
    }
}

/// What is at fault of each object, if something is. It fails for memory alone.
pub fn faults_of<T: Drop>(
    alloc: Global,
    notes: &[Note<T>],
) -> Result<Vec<Option<FaultKind>>, AllocError>
    ensures { IfOk result (λ faults. faults.items ≡ map fault_noted notes.now) }
{
    let mut faults = Vec::new(alloc);
    for note in notes {
        faults.push(fault_of(note)).map_err(|_| AllocError)?;
    }
    Ok(faults)
}
