//! What holds of a queue by its definitions alone. The function is empty, and its contract is the law.

ghost use Rattle.repo_many.specs.Rooms.{QueuesAreFair};

/// Who waits for room for a large frame waits for each other connection once at most.
pub fn queues_are_fair()
    ensures { QueuesAreFair }
{}
