//! Waiting between rounds.

ghost use Rattle.repo_many.specs.Connected.{IsStill};

use crate::idling::shorter;
use crate::places::{Place, wake};
use mio::{Events, Token};

/// What the poll calls the listener.
pub const LISTENER: Token = Token(usize::MAX);

/// When the connection at a place moved last, if there is one.
fn since_at<T: Drop>(place: &Place<T>) -> Option<u64> {
    match place {
        Place::Taken(socket) => Some(socket.since),
        _ => None,
    }
}

/// The earliest time at which a connection moved last, if there is one.
pub fn earliest<T: Drop>(places: &[Place<T>]) -> Option<u64> {
    let mut earliest = None;
    for place in places {
        earliest = shorter(earliest, since_at(place));
    }
    earliest
}

/// Notes which connections are ready after a wait, and gives whether the listener is.
pub fn mark_ready<T: Drop>(events: &Events, places: &mut Vec<Place<T>>) -> bool
    ensures { IsStill places.old.items places.new.items }
{
    let mut listens = false;
    for event in events {
        let token = event.token();
        if token == LISTENER {
            listens = true;
        }
        wake(places, token.0);
    }
    listens
}
