//! The folders of a store.

/// A folder of a store.
#[derive(Clone, Copy, Debug, PartialEq, Eq)]
pub enum Room {
    /// The store's own, with its config and its ledger. The others stand in it.
    Top,
    /// That of files that are being written.
    Temporary,
    /// That in which the folders of packs stand.
    Data,
    /// That of the packs whose names begin with this byte. It stands in [`Room::Data`].
    Packs(u8),
    Indexes,
    Snapshots,
}
