//! What a prune decides once all trees were read.

ghost use Rattle.std.specs.Prelude.{◌≡◌, ℕ, List, IfOk};
ghost use Rattle.repo_reach.specs.declared.trees.Trees.{Trees};
ghost use Rattle.repo_prune.specs.inner.Deciding.{Decides};

use crate::plans::Plan;
use crate::unfound::unfound;
use repo_index::Lookup;
use repo_name::Name;
use repo_reach::Trees;
use std::alloc::{AllocError, Global};

/// What is decided.
#[derive(Drop)]
pub enum Decided {
    /// No index gives this content, which is used.
    Missing(Name),
    /// All that is used is given: this stays, and this moves.
    Plan(Plan),
}

/// What becomes of the packs, where these trees were walked. It fails for memory alone.
pub fn decide(alloc: Global, lookup: &Lookup, trees: &Trees) -> Result<Decided, AllocError>
    ensures { IfOk result (λ decided. Decides lookup.now trees.now decided) }
{
    let used = trees.used(alloc)?;
    if let Some(name) = unfound(lookup, &used, trees.seen.as_slice()) {
        return Ok(Decided::Missing(name));
    }
    Ok(Decided::Plan(Plan::of(alloc, lookup, &used)?))
}
