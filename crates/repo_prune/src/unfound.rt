//! A used blob that no index gives.

ghost use Rattle.std.specs.Prelude.{◌≡◌, None, IfSome, IsTrue, IsFalse, Contains};
ghost use Rattle.repo_name.specs.declared.kinds.BlobKind.{BlobKind};
ghost use Rattle.repo_name.specs.declared.kinds.BlobKind.TheVariants.{Content};
ghost use Rattle.repo_name.specs.declared.names.Name.{Name};
ghost use Rattle.repo_reach.specs.Used.{UsedHasPair};
ghost use Rattle.repo_session.specs.Catalogs.{IsBlobNowhere};
ghost use Rattle.repo_writing.specs.Blobs.{HasFact};
ghost use Rattle.repo_prune.specs.inner.Unfound.{IsContentOf, AllFound};

use repo_index::Lookup;
use repo_name::{BlobKind, Name};
use repo_reach::{Seen, Used};

/// Whether some content is used, and no fact gives it.
fn is_unfound(lookup: &Lookup, used: &Used, name: &Name) -> bool
    ensures yes { IsTrue result → UsedHasPair used.now Content name.now × IsBlobNowhere lookup.now Content name.now }
    ensures no { IsFalse result → UsedHasPair used.now Content name.now → HasFact lookup.now Content name.now }
{
    used.has(BlobKind::Content, name) && lookup.find(BlobKind::Content, name).is_none()
}

/// The first of some content that is used, and that no fact gives.
fn unfound_in(lookup: &Lookup, used: &Used, content: &[Name]) -> Option<Name>
    ensures some { IfSome result (λ n. UsedHasPair used.now Content n × IsBlobNowhere lookup.now Content n) }
    ensures none { result ≡ None → (n : Name) → Contains content.now n → UsedHasPair used.now Content n → HasFact lookup.now Content n }
{
    for name in content {
        if is_unfound(lookup, used, name) {
            return Some(*name);
        }
    }
    None
}

/// The content of a tree that was seen.
fn content_of(seen: &Seen) -> &[Name]
    ensures { IsContentOf seen.now result.now }
{
    match &seen.links {
        Some(links) => links.content.as_slice(),
        None => &[],
    }
}

/// The first used content that no fact gives, in the order in which its trees were seen. `None` where facts give each
/// used blob. It takes no memory.
pub fn unfound(lookup: &Lookup, used: &Used, all: &[Seen]) -> Option<Name>
    ensures some { IfSome result (λ n. UsedHasPair used.now Content n × IsBlobNowhere lookup.now Content n) }
    ensures none { result ≡ None → AllFound lookup.now used.now all.now }
{
    for seen in all {
        if let Some(name) = unfound_in(lookup, used, content_of(seen)) {
            return Some(name);
        }
    }
    None
}
