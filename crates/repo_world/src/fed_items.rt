//! Items that clients took, as a world keeps them.

ghost use Rattle.std.specs.Prelude.{◌≡◌, IfOk};
ghost use Rattle.repo_backup.specs.Items.{fed_of};
ghost use Rattle.repo_world.specs.Seats.{kept_item, part_of};

use repo_backup::Item;
use repo_name::Text;
use std::alloc::{AllocError, Global};

/// An item that a client took, with all its bytes; of a piece the part that was taken.
#[derive(Drop)]
pub enum FedItem {
    Dir(Text),
    File(Text),
    Bytes(Vec<u8>),
    Close,
    End,
    Abandon,
}

impl FedItem {
    /// An item, whole. It fails for memory alone.
    pub fn of(alloc: Global, item: Item) -> Result<FedItem, AllocError>
        ensures { IfOk result (λ kept. kept_item kept ≡ fed_of item.entry) }
    {
        match item {
            Item::Dir(name) => Ok(FedItem::Dir(Text::of(String::from_str(alloc, name)?))),
            Item::File(name) => Ok(FedItem::File(Text::of(String::from_str(alloc, name)?))),
            Item::Bytes(piece) => Ok(FedItem::Bytes(Vec::from_slice(alloc, piece)?)),
            Item::Close => Ok(FedItem::Close),
            Item::End => Ok(FedItem::End),
            Item::Abandon => Ok(FedItem::Abandon),
        }
    }

    /// Of a piece its first so many bytes; any other item as it is. It takes no memory.
    pub fn part(self, count: usize) -> FedItem
        ensures { kept_item result ≡ part_of count (kept_item self) }
    {
        match self {
            FedItem::Bytes(mut bytes) => {
                bytes.truncate(count);
                FedItem::Bytes(bytes)
            }
            FedItem::Dir(name) => FedItem::Dir(name),
            FedItem::File(name) => FedItem::File(name),
            FedItem::Close => FedItem::Close,
            FedItem::End => FedItem::End,
            FedItem::Abandon => FedItem::Abandon,
        }
    }
}
