//! What lines and starts begin with.

/// What a line begins with.
#[derive(Clone, Copy)]
pub enum Verb {
    Dir,
    File,
    Start,
    Old,
    Step,
    Finish,
    Until,
    Late,
    Fault,
    Deliver,
    Feed,
    Unlock,
    Ask,
    Crash,
    Restart,
    Report,
    Replay,
    AppendOnly,
}

/// What a client starts for.
#[derive(Clone, Copy)]
pub enum Purpose {
    Backup,
    Pieces,
    Restore,
    List,
    Prune,
    Check,
    Forget,
    Keep,
    Upgrade,
}

/// What a client is fed.
#[derive(Clone, Copy)]
pub enum ItemSort {
    Dir,
    File,
    Bytes,
    Close,
    End,
    Abandon,
}

/// What somebody who is no client asks for.
#[derive(Clone, Copy)]
pub enum Topic {
    Ticket,
    Lock,
    Refresh,
    Locks,
}
