//! What clients are fed.

ghost use Rattle.std.specs.Prelude.{◌≡◌, IfOk, IfErr, IsErrOf, string_bytes};
ghost use Rattle.repo_backup.specs.Items.{fed_of};
ghost use Rattle.repo_world.specs.Stages.{seen};
ghost use Rattle.repo_play.specs.Feeding.{IsFedTold, fault_number, fed_by, feed_line};
ghost use Rattle.repo_play.specs.Steps.{HasClient};
ghost use Rattle.repo_play.specs.inner.Players.{NeverFails};
ghost use Rattle.repo_play.specs.inner.Scripts.{HaltsBy};
ghost use Rattle.repo_play.specs.declared.faults.Halt.{Halt};

use crate::exchanges::{happen, last_request};
use crate::faults::Halt;
use repo_backup::{FeedError, Item};
use repo_script::FeedItem;
use repo_store::Shelf;
use repo_world::{Applied, Event, World};
use std::alloc::{AllocError, Global};

/// The number of the reason why an item isn't taken.
fn fault_number(error: FeedError) -> u8
    ensures { result ≡ fault_number error }
{
    match error {
        FeedError::BadPath => 1,
        FeedError::Order => 2,
        FeedError::TooDeep => 3,
        FeedError::TooLarge => 4,
        FeedError::Memory => 5,
        FeedError::NotWanted => 6,
    }
}

/// The line that tells what became of an item: nothing is told of one that was taken whole, or that was passed over. It fails
/// for memory alone.
fn feed_line(alloc: Global, client: usize, applied: Applied) -> Result<String, AllocError>
    ensures { IfOk result (λ text. string_bytes text ≡ feed_line client applied) }
{
    match applied {
        Applied::Unfed(error) => {
            let number = fault_number(error);
            format!(in alloc; "feed {client} refused {number}\n")
        }
        Applied::Took(count) => format!(in alloc; "feed {client} took {count}\n"),
        _ => Ok(String::new(alloc)),
    }
}

/// The item, lent.
fn lent(item: &FeedItem) -> Item
    ensures { fed_of result ≡ fed_by item.now }
{
    match item {
        FeedItem::Dir(name) => Item::Dir(name.as_str()),
        FeedItem::File(name) => Item::File(name.as_str()),
        FeedItem::Bytes(bytes) => Item::Bytes(bytes.as_slice()),
        FeedItem::Close => Item::Close,
        FeedItem::End => Item::End,
        FeedItem::Abandon => Item::Abandon,
    }
}

/// A client is fed an item, and what became of it is told.
pub fn feed<S: Shelf + Drop>(
    alloc: Global,
    world: &mut World<S>,
    client: usize,
    item: &FeedItem,
) -> Result<String, Halt>
    requires { NeverFails S.failed }
    ensures fed { IfOk result (λ text. IsFedTold (seen S.store world.old) client item.now (string_bytes text) (seen S.store world.new)) }
    ensures nonsense { IsErrOf result Halt.Nonsense → ¬ HasClient (seen S.store world.old) client }
    ensures few { ¬ IsErrOf result Halt.Limit }
    ensures carried { IfErr result (HaltsBy (λ _. ⊥)) }
{
    if last_request(world, client).is_none() {
        return Err(Halt::Nonsense);
    }
    let item = lent(item);
    let applied = happen(world, Event::Feed { client, item })?;
    Ok(feed_line(alloc, client, applied)?)
}
