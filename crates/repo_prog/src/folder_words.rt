//! The paths of folders, as words of the command line.

ghost use Rattle.std.specs.Prelude.{IfOk, string_bytes};
ghost use Rattle.repo_prog.specs.Commands.{IsFolderWord};
ghost use Rattle.repo_prog.specs.Words.{IsWord};

use crate::words::{WordsError, word_of};
use clap::ArgMatches;
use std::alloc::Global;

/// The path of a folder, by the word of this name among those of a command. The empty word is a bad argument: as a path it would
/// stand for the folder in which the program runs, and with a name behind it for the root.
pub fn folder_of(alloc: Global, words: &ArgMatches, name: &str) -> Result<String, WordsError>
    ensures within { IfOk result (λ folder. IsFolderWord (string_bytes folder)) }
    ensures word { IfOk result (λ folder. IsWord words.now name.now (string_bytes folder)) }
{
    let folder = word_of(alloc, words, name)?;
    if folder.is_empty() {
        return Err(WordsError::BadArgument);
    }
    Ok(folder)
}
