//! The reading of the trees that snapshots reach, as a prune does it.

ghost use Rattle.std.specs.Prelude.{◌≡◌, ◌⊎◌, ℕ, List, IfOk, OnErr};
ghost use Rattle.repo_name.specs.declared.names.Name.{Name};
ghost use Rattle.repo_index.specs.declared.facts.Fact.{Fact};
ghost use Rattle.repo_reach.specs.Walks.{IsSameWalk};
ghost use Rattle.repo_prune.specs.inner.Sorts.{IsBytes};
ghost use Rattle.repo_prune.specs.Reading.{Walks, Awaits, WalksOn, HasTaken, WalksBy, AddsTree, AddsText, AwaitsTreeStill, TakesAwaited, UntakesTree};
ghost use Rattle.repo_prune.specs.declared.reading.Walked.{Walked};
ghost use Rattle.repo_reach.specs.declared.trees.Trees.{Trees};
ghost use Rattle.repo_session.specs.declared.outcomes.End.{End};
ghost use Rattle.repo_name.specs.declared.kinds.Thing.{Thing};

use repo_index::{Fact, Lookup};
use repo_name::{Name, Thing};
use repo_reach::{Next, Trees, Turn, read_with_next};
use repo_session::{End, Fetched, blob_of};
use repo_tree::Node;
use repo_wire::Say;
use std::alloc::{AllocError, Global};

/// What comes next of the reading of trees.
#[derive(Clone, Copy, Debug, PartialEq, Eq)]
pub enum Walked {
    /// The blob of this fact, a tree, is to be asked for.
    Ask(Fact),
    /// It can't go on: a tree is missing, or bad.
    Ended(End),
    /// All trees were read.
    Done,
    /// The reply is a refusal, or of another sort than the request wants.
    Away,
}

/// Ends, as a tree is bad.
fn bad_tree(name: Name) -> Walked
    ensures { result ≡ Walked.Ended (End.BadObject Thing.Tree name) }
{
    Walked::Ended(End::BadObject(Thing::Tree, name))
}

/// Goes on as the walk does.
fn go_on(turn: Turn) -> Walked
    ensures { WalksBy turn result }
{
    match turn {
        Turn::Ask(fact) => Walked::Ask(fact),
        Turn::Missing(name) => Walked::Ended(End::Missing(Thing::Tree, name)),
        Turn::Broken(name) => bad_tree(name),
        Turn::Done => Walked::Done,
    }
}

/// Goes on over the trees that were seen. It fails for memory alone, and then it can be called again.
pub fn read_on(trees: &mut Trees, lookup: &Lookup) -> Result<Walked, AllocError>
    ensures on { IfOk result (λ walked. (texts : List (List ℕ)) → Walks lookup.now texts trees.old → WalksOn lookup.now texts trees.new walked) }
    ensures walks { OnErr result ((texts : List (List ℕ)) → Walks lookup.now texts trees.old → Walks lookup.now texts trees.new) }
    ensures kept { IsSameWalk trees.old trees.new }
{
    let turn = trees.next(lookup)?;
    Ok(go_on(turn))
}

/// Takes the nodes of a tree, and what its member `next` is, and goes on. It fails for memory alone, and then what was known is known.
fn add_tree(
    trees: &mut Trees,
    lookup: &Lookup,
    name: Name,
    nodes: &[Node],
    next: Next,
) -> Result<Walked, AllocError>
    ensures on { IfOk result (λ walked. AddsTree lookup.now name nodes.now next trees.old walked trees.new) }
    ensures still { OnErr result (AwaitsTreeStill lookup.now name trees.old trees.new) }
    ensures taken { IfOk result (λ walked. HasTaken trees.old name trees.new) }
    ensures roots { trees.new.roots ≡ trees.old.roots }
{
    trees.add(name, nodes, next)?;
    match read_on(trees, lookup) {
        Ok(walked) => Ok(walked),
        Err(error) => {
            trees.take_back();
            Err(error)
        }
    }
}

/// Takes the bytes of a tree, which have its name. It fails for memory alone, and then what was known is known.
fn take_bytes(
    alloc: Global,
    trees: &mut Trees,
    lookup: &Lookup,
    name: Name,
    bytes: &[u8],
) -> Result<Walked, AllocError>
    ensures on { IfOk result (λ walked. AddsText lookup.now name bytes.now trees.old walked trees.new) }
    ensures still { OnErr result (AwaitsTreeStill lookup.now name trees.old trees.new) }
    ensures taken { IfOk result (λ walked. walked ≡ Walked.Done → HasTaken trees.old name trees.new) }
    ensures roots { trees.new.roots ≡ trees.old.roots }
{
    match read_with_next(alloc, bytes) {
        Ok((nodes, next)) => add_tree(trees, lookup, name, nodes.as_slice(), next),
        Err(error) => {
            error.check_fault()?;
            Ok(bad_tree(name))
        }
    }
}

/// Takes the reply to the request for the tree of a fact. It fails for memory alone, and then what was known is known.
pub fn take_tree(
    alloc: Global,
    trees: &mut Trees,
    lookup: &Lookup,
    fact: Fact,
    say: &Say,
) -> Result<Walked, AllocError>
    ensures takes { IfOk result (λ walked. TakesAwaited lookup.now fact say.now trees.old walked trees.new) }
    ensures heeds { IfOk result (λ walked. (walked ≡ Walked.Away) ⊎ IsBytes say.now) }
    ensures still { OnErr result ((texts : List (List ℕ)) → Awaits lookup.now texts trees.old fact → Awaits lookup.now texts trees.new fact) }
    ensures taken { IfOk result (λ walked. walked ≡ Walked.Done → HasTaken trees.old fact.name trees.new) }
    ensures roots { trees.new.roots ≡ trees.old.roots }
{
    match blob_of(fact, say) {
        Fetched::Blob(bytes) => take_bytes(alloc, trees, lookup, fact.name, bytes),
        Fetched::Misnamed => Ok(bad_tree(fact.name)),
        Fetched::Uneven => Ok(bad_tree(fact.name)),
        Fetched::Unwelcome => Ok(Walked::Away),
    }
}

/// Takes back the tree of this fact, which was taken last: it is awaited as before. It takes no memory.
pub fn untake(trees: &mut Trees)
    ensures still { UntakesTree trees.old trees.new }
    ensures roots { trees.new.roots ≡ trees.old.roots }
{
    trees.take_back();
}
