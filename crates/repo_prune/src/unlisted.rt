//! A pack that an index names, and that isn't listed.

ghost use Rattle.std.specs.Prelude.{IfOk};
ghost use Rattle.repo_prune.specs.inner.Unlisted.{FindsUnlisted};

use crate::picking::pick;
use repo_index::Lookup;
use repo_name::Name;
use std::alloc::{AllocError, Global};

/// The least pack that these facts name and that isn't among the listed ones. `None` if all are listed. It takes the time
/// and the memory of a sort of all facts, and keeps none of it. It fails for memory alone.
pub fn unlisted_pack(
    alloc: Global,
    lookup: &Lookup,
    listed: &[Name],
) -> Result<Option<Name>, AllocError>
    ensures found { IfOk result (FindsUnlisted lookup.now listed.now) }
{
    let placed = lookup.placed()?;
    let packs = placed.packs()?;
    let unlisted = pick(alloc, packs.as_slice(), listed, false)?;
    Ok(unlisted.as_slice().first().copied())
}
