//! What follows from the layout alone.

ghost use Rattle.repo_pack.specs.PackLayout.{PacksAreOne, RangesAreItems};

/// Some bytes are the pack of one list of items at most.
pub fn packs_are_one()
    ensures { PacksAreOne }
{}

/// The bytes at an item's offset and length are the item's.
pub fn ranges_are_items()
    ensures { RangesAreItems }
{}
