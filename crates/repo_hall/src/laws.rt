//! What holds of a hall and of clients, by their definitions alone. Each function is empty, and its contract is the law.

ghost use Rattle.repo_hall.specs.Joined.{JoinedHallIsARun};

/// Where each guest is joined to a client by a connection that brings each end what the other wrote, in
/// order and unchanged, and perhaps not all of it, what the hall answered is one run of the store machine,
/// made of the clients' talks, each in its order, and of at most one step more for each.
pub fn joined_hall_is_a_run()
    ensures { JoinedHallIsARun }
{}
