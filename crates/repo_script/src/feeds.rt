//! What clients are fed.

ghost use Rattle.std.specs.Prelude.{◌≡◌, Some, map};
ghost use Rattle.repo_script.specs.Lines.{one, bytes, item_with, item_of, feed_of, GivesLine};

use crate::arguments::{bytes_of, one_word};
use crate::faults::LineError;
use crate::lines::{FeedItem, Line};
use crate::numbers::index;
use crate::tables::item_sort_of;
use crate::verbs::ItemSort;
use repo_name::{Bytes, Text};
use std::alloc::Global;

/// The name that the one word left is.
fn name_of(alloc: Global, left: &[&str]) -> Result<Text, LineError>
    ensures { GivesLine (one Some (map (λ w. w.now) left.now)) result }
{
    let Some(word) = one_word(left) else {
        return Err(LineError::NotUnderstood);
    };
    Ok(Text::of(String::from_str(alloc, word)?))
}

/// The bytes that the one word left is.
fn piece_of(alloc: Global, left: &[&str]) -> Result<Bytes, LineError>
    ensures { GivesLine (one bytes (map (λ w. w.now) left.now)) result }
{
    let Some(word) = one_word(left) else {
        return Err(LineError::NotUnderstood);
    };
    bytes_of(alloc, word)
}

/// The item of a sort, by the words left.
fn item_with(alloc: Global, sort: ItemSort, left: &[&str]) -> Result<FeedItem, LineError>
    ensures { GivesLine (item_with sort (map (λ w. w.now) left.now)) result }
{
    match sort {
        ItemSort::Dir => Ok(FeedItem::Dir(name_of(alloc, left)?)),
        ItemSort::File => Ok(FeedItem::File(name_of(alloc, left)?)),
        ItemSort::Bytes => Ok(FeedItem::Bytes(piece_of(alloc, left)?)),
        ItemSort::Close if left.is_empty() => Ok(FeedItem::Close),
        ItemSort::End if left.is_empty() => Ok(FeedItem::End),
        ItemSort::Abandon if left.is_empty() => Ok(FeedItem::Abandon),
        _ => Err(LineError::NotUnderstood),
    }
}

/// The item that some words are.
fn item_of(alloc: Global, words: &[&str]) -> Result<FeedItem, LineError>
    ensures { GivesLine (item_of (map (λ w. w.now) words.now)) result }
{
    let [word, left @ ..] = words else {
        return Err(LineError::NotUnderstood);
    };
    let Some(sort) = item_sort_of(*word) else {
        return Err(LineError::NotUnderstood);
    };
    item_with(alloc, sort, left)
}

/// The line by which a client is fed, by the words left.
pub fn feed_of(alloc: Global, words: &[&str]) -> Result<Line, LineError>
    ensures { GivesLine (feed_of (map (λ w. w.now) words.now)) result }
{
    let [word, left @ ..] = words else {
        return Err(LineError::NotUnderstood);
    };
    let Some(client) = index(*word) else {
        return Err(LineError::NotUnderstood);
    };
    let item = item_of(alloc, left)?;
    Ok(Line::Feed { client, item })
}
