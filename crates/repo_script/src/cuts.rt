//! Texts, cut at a character.

ghost use Rattle.std.specs.Prelude.{◌≡◌, ◌≢◌, ◌↔◌, [], IfOk, map, IsTrue, All};
ghost use Rattle.repo_script.specs.Cuts.{words, components};

use repo_name::Text;
use repo_tree::Path;
use std::alloc::{AllocError, Global};

/// The words of a line. It fails for memory alone.
pub fn words_of(alloc: Global, line: &str) -> Result<Vec<&str>, AllocError>
    ensures { IfOk result (λ found. map (λ w. w.now) found.items ≡ words line.now) }
{
    line.split(' ').collect(alloc)
}

/// What stands between the slashes of a text. It fails for memory alone.
fn parts_of(alloc: Global, text: &str) -> Result<Vec<&str>, AllocError>
    ensures { IfOk result (λ found. map (λ w. w.now) found.items ≡ components text.now) }
{
    text.split('/').collect(alloc)
}

/// The path of these components, each copied. It fails for memory alone.
fn path_with(alloc: Global, parts: &[&str]) -> Result<Path, AllocError>
    ensures { IfOk result (λ path. path ≡ map (λ w. w.now) parts.now) }
{
    let mut components = Vec::new(alloc);
    for part in parts {
        components.push(Text::of(String::from_str(alloc, *part)?))?;
    }
    Ok(Path::of(components))
}

/// The path that a word is. It fails for memory alone.
pub fn path_of(alloc: Global, word: &str) -> Result<Path, AllocError>
    ensures { IfOk result (λ path. path ≡ components word.now) }
{
    let parts = parts_of(alloc, word)?;
    path_with(alloc, parts.as_slice())
}

/// Whether no word is empty.
pub fn are_words(words: &[&str]) -> bool
    ensures { IsTrue result ↔ All (λ word. word.now ≢ []) words.now }
{
    words.iter().all(|word| !word.is_empty())
}
