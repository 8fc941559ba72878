//! What is found of each thing, and the outcome of a check.

ghost use Rattle.std.specs.Prelude.{None, IfOk, OnOk};
ghost use Rattle.repo_store.specs.Pages.{NamesAscend};
ghost use Rattle.repo_session.specs.Traces.{Trace};
ghost use Rattle.repo_check.specs.Checking.{CheckConcludes};
ghost use Rattle.repo_check.specs.Fitting.{facts_by};
ghost use Rattle.repo_check.specs.Rounds.{Match, round_of};
ghost use Rattle.repo_check.specs.Surveys.{IsSurveyed, rounds_of};
ghost use Rattle.repo_check.specs.Verdicts.{AreBlobsTold, AreObjectsTold, AreTold, Counts, IsFoundOfIndex, IsTreeFound, reached_of};
ghost use Rattle.repo_check.specs.Walks.{ContentFault, known_of, walk_of};

use crate::fitting::fits;
use crate::gathering::faults_of;
use crate::knowing::Known;
use crate::reaching::{Reached, broken_in, reached_in};
use crate::rounds::{Note, Round};
use crate::surveys::Survey;
use crate::telling::tell;
use repo_index::{Facts, IndexText};
use repo_name::{Name, Thing};
use repo_session::{CheckFault, CheckFaults, FaultKind, Outcome};
use std::alloc::{AllocError, Global};
use std::collections::BTreeSet;

/// What is found of an index by the packs: that it reads and doesn't fit them, or nothing. It fails for memory alone.
fn place_of(
    alloc: Global,
    note: &Note<IndexText>,
    packs: &Round<Facts>,
) -> Result<Option<FaultKind>, AllocError>
    ensures { NamesAscend None packs.now.roll.names.items → IfOk result (IsFoundOfIndex (facts_by (round_of packs.now)) note.now) }
{
    match note {
        Note::Well(text) if !fits(alloc, text, packs)? => Ok(Some(FaultKind::Place)),
        _ => Ok(None),
    }
}

/// What is found of each index by the packs. It fails for memory alone.
fn places_of(
    alloc: Global,
    notes: &[Note<IndexText>],
    packs: &Round<Facts>,
) -> Result<Vec<Option<FaultKind>>, AllocError>
    ensures { NamesAscend None packs.now.roll.names.items → IfOk result (λ found. Match (IsFoundOfIndex (facts_by (round_of packs.now))) notes.now found.items) }
{
    let mut found = Vec::new(alloc);
    for note in notes {
        let place = place_of(alloc, note, packs)?;
        found.push(place)?;
    }
    Ok(found)
}

/// What is found of each of some content blobs. It fails for memory alone.
fn content_found(
    alloc: Global,
    known: &Known,
    names: &[Name],
) -> Result<Vec<Option<FaultKind>>, AllocError>
    ensures { IfOk result (λ found. Match (ContentFault (known_of known.now).facts) names.now found.items) }
{
    let mut found = Vec::new(alloc);
    for name in names {
        found.push(known.content_fault(name))?;
    }
    Ok(found)
}

/// What is found of each of some trees, where these break their directories. It fails for memory alone.
fn trees_found(
    alloc: Global,
    known: &Known,
    broken: &BTreeSet<Name>,
    names: &[Name],
) -> Result<Vec<Option<FaultKind>>, AllocError>
    ensures { IfOk result (λ found. Match (IsTreeFound (known_of known.now) broken.now) names.now found.items) }
{
    let mut found = Vec::new(alloc);
    for tree in names {
        found.push(known.fault_of(tree, broken.contains(tree)))?;
    }
    Ok(found)
}

/// Tells the faults of objects. It fails for memory alone, and then some of them were told.
fn tell_objects(survey: &Survey, faults: &mut Vec<CheckFault>) -> Result<(), AllocError>
    ensures { OnOk result (AreObjectsTold (rounds_of survey.now) faults.old.items faults.new.items) }
{
    let alloc = survey.alloc;
    let snapshots = faults_of(alloc, survey.snapshots.notes.as_slice())?;
    let indexes = faults_of(alloc, survey.indexes.notes.as_slice())?;
    let packs = faults_of(alloc, survey.packs.notes.as_slice())?;
    let places = places_of(alloc, survey.indexes.notes.as_slice(), &survey.packs)?;
    let names = survey.indexes.roll.names.as_slice();
    tell(
        Thing::Snapshot,
        survey.snapshots.roll.names.as_slice(),
        snapshots.as_slice(),
        faults,
    )?;
    tell(Thing::Index, names, indexes.as_slice(), faults)?;
    tell(
        Thing::Pack,
        survey.packs.roll.names.as_slice(),
        packs.as_slice(),
        faults,
    )?;
    tell(Thing::Index, names, places.as_slice(), faults)
}

/// Tells the faults of blobs. It fails for memory alone, and then some of them were told.
fn tell_blobs(
    survey: &Survey,
    reached: &Reached,
    faults: &mut Vec<CheckFault>,
) -> Result<(), AllocError>
    ensures { OnOk result (AreBlobsTold (walk_of survey.now.walk) (reached_of reached.now) faults.old.items faults.new.items) }
{
    let alloc = survey.alloc;
    let known = &survey.walk.known;
    let broken = broken_in(alloc, &survey.walk)?;
    let content = content_found(alloc, known, reached.content.as_slice())?;
    let trees = trees_found(alloc, known, &broken, reached.trees.as_slice())?;
    tell(
        Thing::Content,
        reached.content.as_slice(),
        content.as_slice(),
        faults,
    )?;
    tell(
        Thing::Tree,
        reached.trees.as_slice(),
        trees.as_slice(),
        faults,
    )
}

/// All faults, in their order. It fails for memory alone.
fn faults_in(survey: &Survey, reached: &Reached) -> Result<Vec<CheckFault>, AllocError>
    ensures { IfOk result (λ faults. AreTold (rounds_of survey.now) (walk_of survey.now.walk) (reached_of reached.now) faults.items) }
{
    let mut faults = Vec::new(survey.alloc);
    tell_objects(survey, &mut faults)?;
    tell_blobs(survey, reached, &mut faults)?;
    Ok(faults)
}

/// That nothing is at fault: so many objects came, and so many blobs are reached. It takes no memory.
fn clean(survey: &Survey, reached: &Reached) -> Outcome
    ensures { Counts (rounds_of survey.now) (reached_of reached.now) result }
{
    let blobs = (reached.content.len() as u64).saturating_add(reached.trees.len() as u64);
    Outcome::Clean {
        snapshots: survey.snapshots.notes.len() as u64,
        indexes: survey.indexes.notes.len() as u64,
        packs: survey.packs.notes.len() as u64,
        blobs,
    }
}

/// How a check ends whose survey is over: that all is well, or what isn't. It fails for memory alone.
pub fn outcome_of(survey: &Survey) -> Result<Outcome, AllocError>
    ensures { IfOk result (λ outcome. (es : Trace) → IsSurveyed (rounds_of survey.now) (walk_of survey.now.walk) es → CheckConcludes es outcome) }
{
    let reached = reached_in(survey.alloc, &survey.walk)?;
    let faults = faults_in(survey, &reached)?;
    if faults.as_slice().is_empty() {
        return Ok(clean(survey, &reached));
    }
    Ok(Outcome::Faults(CheckFaults::of(faults)))
}
