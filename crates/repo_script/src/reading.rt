//! Lines, read.

ghost use Rattle.std.specs.Prelude.{◌≡◌, ◌≢◌, [], map, IfOk, IsErrOf};
ghost use Rattle.std.specs.Option.{MatchOption};
ghost use Rattle.repo_script.specs.Lines.{event_with, line_with, line_of, IsLine, GivesLine};
ghost use Rattle.repo_script.specs.declared.faults.LineError.{LineError};
ghost use Rattle.repo_script.specs.declared.lines.Line.{Line};

use crate::arguments::{
    bytes_of, index_and_fail, index_and_sort, one_index, one_number, one_word, two_words,
};
use crate::cuts::{are_words, path_of, words_of};
use crate::faults::LineError;
use crate::feeds::feed_of;
use crate::lines::Line;
use crate::questions::question_of;
use crate::starts::{old_start_of, start_of};
use crate::tables::verb_of;
use crate::verbs::Verb;
use repo_name::Token;
use repo_tree::{Entry, EntryKind};
use std::alloc::Global;

/// The line of a directory.
fn dir_line(alloc: Global, left: &[&str]) -> Result<Line, LineError>
    ensures { GivesLine (line_with Verb.Dir (map (λ w. w.now) left.now)) result }
{
    let Some(path) = one_word(left) else {
        return Err(LineError::NotUnderstood);
    };
    let path = path_of(alloc, path)?;
    let what = EntryKind::Dir;
    Ok(Line::Entry(Entry { path, what }))
}

/// The line of a file.
fn file_line(alloc: Global, left: &[&str]) -> Result<Line, LineError>
    ensures { GivesLine (line_with Verb.File (map (λ w. w.now) left.now)) result }
{
    let Some((path, bytes)) = two_words(left) else {
        return Err(LineError::NotUnderstood);
    };
    let what = EntryKind::File(bytes_of(alloc, bytes)?);
    let path = path_of(alloc, path)?;
    Ok(Line::Entry(Entry { path, what }))
}

/// What happens, by a line that begins so and the words left.
fn event_with(verb: Verb, left: &[&str]) -> Option<Line>
    ensures { result ≡ event_with verb (map (λ w. w.now) left.now) }
{
    match verb {
        Verb::Step => Some(Line::Step(one_index(left)?)),
        Verb::Finish => Some(Line::Finish(one_index(left)?)),
        Verb::Late => Some(Line::Late(one_index(left)?)),
        Verb::Deliver => Some(Line::Deliver(one_index(left)?)),
        Verb::Crash => Some(Line::Crash(one_index(left)?)),
        Verb::Unlock => Some(Line::Unlock(Token(one_number(left)?))),
        Verb::Ask => Some(Line::Ask(question_of(left)?)),
        Verb::Until => {
            let (client, sort) = index_and_sort(left)?;
            Some(Line::Until { client, sort })
        }
        Verb::Fault => {
            let (client, fail) = index_and_fail(left)?;
            Some(Line::Fault { client, fail })
        }
        Verb::Restart if left.is_empty() => Some(Line::Restart),
        Verb::Report if left.is_empty() => Some(Line::Report),
        Verb::Replay if left.is_empty() => Some(Line::Replay),
        Verb::AppendOnly if left.is_empty() => Some(Line::AppendOnly),
        _ => None,
    }
}

/// The line that begins so, by the words left.
fn line_with(alloc: Global, verb: Verb, left: &[&str]) -> Result<Line, LineError>
    ensures { GivesLine (line_with verb (map (λ w. w.now) left.now)) result }
{
    match verb {
        Verb::Dir => dir_line(alloc, left),
        Verb::File => file_line(alloc, left),
        Verb::Start => {
            let start = start_of(alloc, left)?;
            Ok(Line::Start { start, old: false })
        }
        Verb::Old => {
            let start = old_start_of(alloc, left)?;
            Ok(Line::Start { start, old: true })
        }
        Verb::Feed => feed_of(alloc, left),
        _ => event_with(verb, left).ok_or(LineError::NotUnderstood),
    }
}

/// The line that some words are.
fn line_of(alloc: Global, words: &[&str]) -> Result<Line, LineError>
    ensures { GivesLine (line_of (map (λ w. w.now) words.now)) result }
{
    let [word, left @ ..] = words else {
        return Err(LineError::NotUnderstood);
    };
    let Some(verb) = verb_of(*word) else {
        return Err(LineError::NotUnderstood);
    };
    line_with(alloc, verb, left)
}

/// The line that a text is.
fn text_line(alloc: Global, text: &str) -> Result<Line, LineError>
    ensures line { IfOk result (λ line. IsLine text.now line) }
    ensures refused { IsErrOf result LineError.NotUnderstood → (line : Line) → ¬ IsLine text.now line }
{
    let words = words_of(alloc, text)?;
    if !are_words(words.as_slice()) {
        return Err(LineError::NotUnderstood);
    }
    line_of(alloc, words.as_slice())
}

/// Reads a line, without its line feed. There is none where there are no bytes: such a line says nothing.
///
/// `NotUnderstood` comes just where there are bytes and they are no line, and `Memory` for want of memory alone.
pub fn read_line(alloc: Global, bytes: &[u8]) -> Result<Option<Line>, LineError>
    ensures line { IfOk result (λ found. MatchOption found (bytes.now ≡ []) (λ line. IsLine bytes.now line)) }
    ensures refused { IsErrOf result LineError.NotUnderstood → (bytes.now ≢ []) × ((line : Line) → ¬ IsLine bytes.now line) }
{
    if bytes.is_empty() {
        return Ok(None);
    }
    let Ok(text) = str::from_utf8(bytes) else {
        return Err(LineError::NotUnderstood);
    };
    Ok(Some(text_line(alloc, text)?))
}
