//! Why every run is safe, by the definitions alone: what keeps the bag of messages in order, and what that gives. Each
//! function is empty, and its contract is the law.

ghost use Rattle.repo_world.specs.BagLaws.{BagGivesSafety, BeginningHasBag, EachEventKeepsBag};

/// Where nothing was sent, and the store has no objects, the bag is in order.
pub fn beginning_has_bag()
    ensures { BeginningHasBag }
{}

/// Any event keeps it so.
pub fn each_event_keeps_bag()
    ensures { EachEventKeepsBag }
{}

/// A world whose bag is in order is safe, and what was handed to a snapshot's backup is one list.
pub fn bag_gives_safety()
    ensures { BagGivesSafety }
{}
