//! A list of items, fed to a backup over a shelf directly.

ghost use Rattle.std.specs.Prelude.{◌≡◌, ◌≢◌, ◌≤◌, ◌<◌, ◌+◌, ◌^◌, ℕ, None, IfOk, IfErr, length};
ghost use Rattle.repo_session.specs.Sessions.{who_in, next_in, ended_in};
ghost use Rattle.repo_backup.specs.Items.{IsCountOf};
ghost use Rattle.repo_backup.specs.ItemRuns.{StepGives, OnceGives, ItemGives, ItemsGive, GoesOn, WantsStill};
ghost use Rattle.repo_backup.specs.PieceBackups.{IsHungry};
ghost use Rattle.repo_backup.specs.declared.item_steps.ItemsError.{ItemsError};
ghost use Rattle.repo_backup.specs.declared.items.Item.{Item};

use crate::items::{FeedError, Item};
use crate::piece_backups::PieceBackup;
use crate::piece_steps::lockstep_fed;
use repo_session::StepError;
use repo_store::Shelf;
use std::alloc::Global;
use thiserror::Error;

/// Why a backup wasn't fed all of its items.
#[derive(Clone, Copy, Debug, PartialEq, Eq, Error)]
pub enum ItemsError {
    /// 2^32 requests were answered, and it wasn't enough.
    #[error("limit")]
    Limit,
    /// There was no memory for a reply: the backup may take the reply to the pending request again.
    #[error("out of memory")]
    Memory,
    /// The item at this place, counted from 0, wasn't taken, for this reason. Those before it were, and of it, where it is a
    /// piece, so many first bytes. The backup wants input as before.
    #[error("not taken")]
    Feed {
        place: usize,
        taken: usize,
        error: FeedError,
    },
}

impl From<StepError> for ItemsError {
    ghost use Rattle.std.specs.Prelude.{◌≡◌};
    ghost use Rattle.repo_backup.specs.ItemRuns.{items_error};

    ghost from_gives = { λ e r. r ≡ items_error e };

    fn from(error: StepError) -> ItemsError {
        match error {
            StepError::Limit => ItemsError::Limit,
            StepError::Memory => ItemsError::Memory,
        }
    }
}

/// The most requests that are answered.
const REQUESTS: u64 = 1 << 32;

/// So many requests in all, if they aren't too many.
fn sum_of(asked: u64, more: u64) -> Result<u64, ItemsError>
    requires few { asked ≤ 2 ^ 32 }
    requires more { more ≤ 2 ^ 32 }
    ensures ok { IfOk result (λ n. (n ≡ asked + more) × (n ≤ 2 ^ 32)) }
    ensures err { IfErr result (λ e. (e ≡ ItemsError.Limit) × (2 ^ 32 < asked + more)) }
{
    let sum = asked + more;
    if sum > REQUESTS {
        Err(ItemsError::Limit)
    } else {
        Ok(sum)
    }
}

/// Answers what is pending, one request after another, until the backup wants input or has ended.
fn answered<S: Shelf>(
    alloc: Global,
    backup: &mut PieceBackup,
    shelf: &mut S,
) -> Result<u64, StepError>
    ensures goes { S.honest shelf.old → GoesOn (StepGives result) backup.old (S.store shelf.old) (S.failed shelf.old) backup.new (S.store shelf.new) (S.failed shelf.new) }
    ensures settled { S.honest shelf.old → IfOk result (λ n. next_in backup.new.session ≡ None) }
    ensures few { IfOk result (λ n. n ≤ 2 ^ 32) }
    ensures honest { S.honest shelf.old → S.honest shelf.new }
    ensures who { who_in backup.new.session ≡ who_in backup.old.session }
{
    lockstep_fed(alloc, backup, shelf)
}

/// What a backup is offered: an item, by its place among all, counted from 0; or what is left of it, a piece, of which so many
/// first bytes were taken.
#[derive(Clone, Copy, Debug)]
struct Offer<'a> {
    place: usize,
    taken: usize,
    item: Item<'a>,
}

/// Feeds an item once, or what is left of it, and answers what is pending then. It gives how many bytes of a piece were
/// taken, and how many requests were answered.
fn feed_once<S: Shelf>(
    alloc: Global,
    backup: &mut PieceBackup,
    offer: Offer,
    shelf: &mut S,
) -> Result<(usize, u64), ItemsError>
    requires { IsHungry backup.old }
    ensures goes { S.honest shelf.old → GoesOn (OnceGives offer.entry.place offer.entry.taken offer.entry.item result) backup.old (S.store shelf.old) (S.failed shelf.old) backup.new (S.store shelf.new) (S.failed shelf.new) }
    ensures settled { S.honest shelf.old → IfOk result (λ r. next_in backup.new.session ≡ None) }
    ensures wants { IfErr result (λ e. WantsStill e backup.new) }
    ensures few { IfOk result (λ r. IsCountOf r.0 offer.entry.item × (r.1 ≤ 2 ^ 32)) }
    ensures honest { S.honest shelf.old → S.honest shelf.new }
    ensures who { who_in backup.new.session ≡ who_in backup.old.session }
{
    let Offer { place, taken, item } = offer;
    let count = match backup.feed(item) {
        Ok(count) => count,
        Err(error) => {
            return Err(ItemsError::Feed {
                place,
                taken,
                error,
            });
        }
    };
    let asked = answered(alloc, backup, shelf)?;
    Ok((count, asked))
}

/// Feeds a piece, in parts where packs become due, until all of it was taken or the backup has ended.
fn feed_piece<S: Shelf>(
    alloc: Global,
    backup: &mut PieceBackup,
    place: usize,
    piece: &[u8],
    shelf: &mut S,
) -> Result<u64, ItemsError>
    requires { IsHungry backup.old }
    ensures goes { S.honest shelf.old → GoesOn (ItemGives place (Item.Bytes piece.entry) result (ended_in backup.new.session)) backup.old (S.store shelf.old) (S.failed shelf.old) backup.new (S.store shelf.new) (S.failed shelf.new) }
    ensures settled { S.honest shelf.old → IfOk result (λ n. next_in backup.new.session ≡ None) }
    ensures wants { IfErr result (λ e. WantsStill e backup.new) }
    ensures few { IfOk result (λ n. n ≤ 2 ^ 32) }
    ensures honest { S.honest shelf.old → S.honest shelf.new }
    ensures who { who_in backup.new.session ≡ who_in backup.old.session }
{
    let first = Offer {
        place,
        taken: 0,
        item: Item::Bytes(piece),
    };
    let (mut done, mut asked) = feed_once(alloc, backup, first, shelf)?;
    while done < piece.len() && backup.wants() {
        let (_, rest) = piece.split_at(done);
        let next = Offer {
            place,
            taken: done,
            item: Item::Bytes(rest),
        };
        let (count, more) = feed_once(alloc, backup, next, shelf)?;
        done += count;
        asked = sum_of(asked, more)?;
    }
    Ok(asked)
}

/// Feeds an item whole.
fn feed_item<S: Shelf>(
    alloc: Global,
    backup: &mut PieceBackup,
    place: usize,
    item: &Item,
    shelf: &mut S,
) -> Result<u64, ItemsError>
    requires { IsHungry backup.old }
    ensures goes { S.honest shelf.old → GoesOn (ItemGives place item.now result (ended_in backup.new.session)) backup.old (S.store shelf.old) (S.failed shelf.old) backup.new (S.store shelf.new) (S.failed shelf.new) }
    ensures settled { S.honest shelf.old → IfOk result (λ n. next_in backup.new.session ≡ None) }
    ensures wants { IfErr result (λ e. WantsStill e backup.new) }
    ensures few { IfOk result (λ n. n ≤ 2 ^ 32) }
    ensures honest { S.honest shelf.old → S.honest shelf.new }
    ensures who { who_in backup.new.session ≡ who_in backup.old.session }
{
    if let Item::Bytes(piece) = item {
        return feed_piece(alloc, backup, place, piece, shelf);
    }
    let whole = Offer {
        place,
        taken: 0,
        item: *item,
    };
    let (_, asked) = feed_once(alloc, backup, whole, shelf)?;
    Ok(asked)
}

/// Feeds a backup the items, one after another, and answers what is pending before, between and after them from a shelf,
/// until all were fed or the backup has ended. It gives how many requests were answered, at most 2^32.
///
/// Where an item isn't taken the backup wants input as before, and its lock is live; the error tells how much of a piece was
/// taken. Without memory the store may have made one step more than the backup has taken.
pub fn lockstep_items<S: Shelf>(
    alloc: Global,
    backup: &mut PieceBackup,
    items: &[Item],
    shelf: &mut S,
) -> Result<u64, ItemsError>
    ensures goes { S.honest shelf.old → GoesOn (ItemsGive items.now result (ended_in backup.new.session)) backup.old (S.store shelf.old) (S.failed shelf.old) backup.new (S.store shelf.new) (S.failed shelf.new) }
    ensures settled { S.honest shelf.old → IfOk result (λ n. next_in backup.new.session ≡ None) }
    ensures wants { IfErr result (λ e. WantsStill e backup.new) }
    ensures few { IfOk result (λ n. n ≤ 2 ^ 32) }
    ensures honest { S.honest shelf.old → S.honest shelf.new }
    ensures who { who_in backup.new.session ≡ who_in backup.old.session }
{
    let mut asked = answered(alloc, backup, shelf)?;
    let mut place = 0;
    while let Some(item) = items.get(place) {
        if !backup.wants() {
            return Ok(asked);
        }
        let more = feed_item(alloc, backup, place, item, shelf)?;
        asked = sum_of(asked, more)?;
        place += 1;
    }
    Ok(asked)
}
