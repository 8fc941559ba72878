//! That what is answered over connections is a run, by the definitions alone. Each function is empty, and its contract is the law.

ghost use Rattle.repo_runs.specs.Connected.{ConnectionsAreARun, FedBackupGoes, GoesInParts, HallPartsGo, OwnedGuestsGo, ServingIsHosting};

/// What a server answers over connections, one after another or many at once, any of them cut off anywhere, with the server
/// closed and opened in between: where each answer is taken by a client of the world that waits for it, and that may be fed some
/// items then, or is lost on its way to one, or is somebody's who is no client, all of it together is a part of a run of the world, with the same store and clients.
pub fn connections_are_a_run()
    ensures { ConnectionsAreARun }
{}

/// The answers of a hall go so where at the other end of each guest's connection is a client of the world, and no client has two of
/// them, or somebody who is no client: each of those clients ends where its talk over the connection does, with what it was fed
/// between the turns, and at most its pending request was answered beside; all others are as they were. Between the client's turns
/// there may be others on its connection that ask what anybody may, as `vault` asks for the config before a job begins that may be
/// carried over more than one connection. A connection on which a client waits no more may still be answered what it sent there.
pub fn owned_guests_go()
    ensures { OwnedGuestsGo }
{}

/// And a hall's answers go so where they do up to some moment, and from there on: so a client may have one guest up to there, and
/// another behind it, as where it goes on over a new connection.
pub fn hall_parts_go()
    ensures { HallPartsGo }
{}

/// What a client goes by over one connection after another it goes by in parts, one for each, also where such questions stand
/// before the turns of a part.
pub fn goes_in_parts()
    ensures { GoesInParts }
{}

/// What a backup says that feeds itself, as `vault backup` does, over its connections, from its ticket on, is what a backup that is
/// fed goes by, with some items on its exchanges: so it may be the client of a guest above.
pub fn fed_backup_goes()
    ensures { FedBackupGoes }
{}

/// What serving one connection gave is what a hall with one guest has: so the law above speaks of connections that are served one
/// after another, too.
pub fn serving_is_hosting()
    ensures { ServingIsHosting }
{}
