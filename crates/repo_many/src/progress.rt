//! What a turn of a connection came to.

use repo_store::ServeError;

/// What a turn came to.
#[derive(Clone, Copy, Debug, PartialEq)]
pub enum Progress {
    /// Nothing can be done before the socket is ready.
    Still,
    /// It would have to read of a large frame, and waits for room.
    Barred,
    /// It went on.
    Moved,
    /// Its input ended, and all that it brought is done; or it is answered no more.
    AtEnd,
    /// Its large frame came too slowly while others waited for room.
    TooSlow,
    /// It failed.
    Failed(ServeError),
}
