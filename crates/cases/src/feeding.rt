//! A backup at the store that is fed items.

use crate::lines::{ScriptError, bytes, cut, number};
use crate::told::Told;
use repo_backup::{FeedError, Item, ItemsError, PieceBackup, lockstep_fed, lockstep_items};
use repo_name::Instance;
use repo_session::{Client, Who, WhoError, result_text};
use repo_store::Shelf;
use std::alloc::Global;

/// The number of the reason why an item isn't taken.
fn reason(error: FeedError) -> u64 {
    match error {
        FeedError::BadPath => 1,
        FeedError::Order => 2,
        FeedError::TooDeep => 3,
        FeedError::TooLarge => 4,
        FeedError::Memory => 5,
        FeedError::NotWanted => 6,
    }
}

/// Feeds an item, and prints how many bytes of it were taken, or why it wasn't. If there was no memory for it, it is fed once more.
fn tell_fed(backup: &mut PieceBackup, item: Item, told: &mut Told) -> Result<(), ScriptError> {
    let mut fed = backup.feed(item);
    if fed == Err(FeedError::Memory) {
        fed = backup.feed(item);
    }
    match fed {
        Ok(count) => told.number("took", count as u64)?,
        Err(error) => told.number("refused", reason(error))?,
    }
    Ok(())
}

/// Feeds the item that a word is for: `dir:NAME`, `file:NAME`, `bytes:HEX`, `close`, `end`, `abandon`.
fn feed(
    alloc: Global,
    word: &str,
    backup: &mut PieceBackup,
    told: &mut Told,
) -> Result<(), ScriptError> {
    let (sort, rest) = word.split_once(':').unwrap_or((word, ""));
    match sort {
        "dir" => tell_fed(backup, Item::Dir(rest), told),
        "file" => tell_fed(backup, Item::File(rest), told),
        "bytes" => tell_fed(backup, Item::Bytes(bytes(alloc, rest)?.as_slice()), told),
        "close" => tell_fed(backup, Item::Close, told),
        "end" => tell_fed(backup, Item::End, told),
        "abandon" => tell_fed(backup, Item::Abandon, told),
        _ => Err(ScriptError::Line),
    }
}

/// Answers what is pending, as far as it goes. If there was no memory for a reply, the reply to the same request is taken once more.
fn go<S: Shelf>(alloc: Global, backup: &mut PieceBackup, shelf: &mut S) -> Result<(), ScriptError> {
    let mut went = lockstep_fed(alloc, backup, shelf);
    if went.is_err() {
        went = lockstep_fed(alloc, backup, shelf);
    }
    match went {
        Ok(_) => Ok(()),
        Err(_) => Err(ScriptError::Twice),
    }
}

/// Feeds what is left of a piece and of its file's end, behind a refusal for want of memory at this place.
fn feed_left<S: Shelf>(
    alloc: Global,
    rest: &[u8],
    place: usize,
    backup: &mut PieceBackup,
    shelf: &mut S,
) -> Result<Result<u64, ItemsError>, ScriptError> {
    let left = [Item::Bytes(rest), Item::Close];
    let fed = lockstep_items(alloc, backup, left.get(place..).unwrap_or(&[]), shelf);
    match fed {
        Err(ItemsError::Memory) => Err(ScriptError::Twice),
        Err(
            ItemsError::Feed {
                error: FeedError::Memory,
                ..
            },
        ) => Err(ScriptError::Twice),
        fed => Ok(fed),
    }
}

/// Feeds the open file these bytes and its end, as a list, and answers what is pending; tells how many requests were answered, or
/// which item wasn't taken, and why. If there was no memory for an item, it prints that, and feeds what is left.
fn feed_rest<S: Shelf>(
    alloc: Global,
    hex: &str,
    backup: &mut PieceBackup,
    shelf: &mut S,
    told: &mut Told,
) -> Result<(), ScriptError> {
    let piece = bytes(alloc, hex)?;
    let items = [Item::Bytes(piece.as_slice()), Item::Close];
    let mut fed = lockstep_items(alloc, backup, &items, shelf);
    if let Err(
        ItemsError::Feed {
            place,
            taken,
            error: FeedError::Memory,
        },
    ) = fed
    {
        told.line("out of memory")?;
        let rest = piece.as_slice().get(taken..).unwrap_or(&[]);
        fed = feed_left(alloc, rest, place, backup, shelf)?;
    }
    match fed {
        Ok(asked) => told.number("answered", asked)?,
        Err(ItemsError::Feed { place, error, .. }) => {
            told.number("place", place as u64)?;
            told.number("refused", reason(error))?;
        }
        Err(_) => return Err(ScriptError::Memory),
    }
    Ok(())
}

/// Feeds the items of these words one after another, `rest:HEX` for all that is left of a file, and answers what is pending at each
/// `go`; tells how it ended.
fn feed_all<S: Shelf>(
    alloc: Global,
    words: &str,
    backup: &mut PieceBackup,
    shelf: &mut S,
    told: &mut Told,
) -> Result<(), ScriptError> {
    for word in words.split(' ') {
        match word {
            "go" => go(alloc, backup, shelf)?,
            _ => match word.strip_prefix("rest:") {
                Some(hex) => feed_rest(alloc, hex, backup, shelf, told)?,
                None => feed(alloc, word, backup, told)?,
            },
        }
    }
    told.pair(
        "backup",
        result_text(alloc, backup.outcome(), false)?.as_str(),
    )?;
    Ok(())
}

/// Does so with a backup of its own. A client is dear to drop: it is done here alone, with nothing else alive.
fn feed_new<S: Shelf>(
    alloc: Global,
    who: Who,
    words: &str,
    shelf: &mut S,
    told: &mut Told,
) -> Result<(), ScriptError> {
    let mut backup = PieceBackup::new(alloc, who);
    feed_all(alloc, words, &mut backup, shelf, told)
}

/// Runs a backup for `HOST TIME ITEM..`: see [`feed`].
pub fn run_pieces<S: Shelf>(
    alloc: Global,
    words: &str,
    shelf: &mut S,
    told: &mut Told,
) -> Result<(), ScriptError> {
    let (host, rest) = cut(words);
    let (time, items) = cut(rest);
    match Who::new(alloc, Instance([255; 16]), host, number(time)?) {
        Ok(who) => feed_new(alloc, who, items, shelf, told),
        Err(WhoError::Memory) => Err(ScriptError::Memory),
        Err(WhoError::Host) => Err(ScriptError::Line),
    }
}
