//! Where the entries of a folder lie in the file system.

ghost use Rattle.std.specs.Prelude.{◌≡◌, ◌∷◌, [], IfOk, string_bytes};
ghost use Rattle.repo_files.specs.inner.Places.{place_of};

use repo_name::Text;
use std::alloc::{AllocError, Global};

/// The place of a path below a folder: the folder's, then each component after a `/`.
pub fn place_below(alloc: Global, folder: &str, path: &[Text]) -> Result<String, AllocError>
    ensures { IfOk result (λ place. string_bytes place ≡ place_of folder.now path.now) }
{
    let mut place = String::from_str(alloc, folder)?;
    for name in path {
        place.push('/')?;
        place.push_str(name.as_str())?;
    }
    Ok(place)
}

/// The place of an entry of a folder: the folder's, then its name after a `/`.
pub fn place_in(alloc: Global, folder: &str, name: &str) -> Result<String, AllocError>
    ensures { IfOk result (λ place. string_bytes place ≡ place_of folder.now (name.now ∷ [])) }
{
    let mut place = String::from_str(alloc, folder)?;
    place.push('/')?;
    place.push_str(name)?;
    Ok(place)
}

/// The place of a folder without the `/` at its end, to which the place of an entry adds one.
pub fn without_slash(folder: &str) -> &str {
    folder.trim_end_matches('/')
}
