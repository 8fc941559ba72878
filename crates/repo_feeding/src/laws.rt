//! What holds of a backup that feeds itself, by the definitions alone. Each function is empty, and its contract is the law.

ghost use Rattle.repo_feeding.specs.FedLaws.{FedClientsAreFed, StoredIsSpelled};

/// The snapshot that a backup stored which fed itself spells entries that may be handed in, in blobs that are indexed; and
/// where its source is known, these are the entries that the source was made to give.
pub fn stored_is_spelled()
    ensures { StoredIsSpelled }
{}

/// Where a backup that feeds itself stands after some exchanges, by its rule, a backup that is fed stands by its own, with some
/// items between them, each of which it wanted: with what is pending, and how it ended.
pub fn fed_clients_are_fed()
    ensures { FedClientsAreFed }
{}
