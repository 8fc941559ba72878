//! The places of a server: at each a connection, or none.

ghost use Rattle.std.specs.Prelude.{◌≡◌, ◌≢◌, true, slice_get, Some};
ghost use Rattle.repo_many.specs.Connected.{IsSeated, IsStill, LeavesPlaces, woken};
ghost use Rattle.repo_many.specs.declared.places.Place.{Place};

use crate::sockets::Socket;
use std::mem::replace;

/// What is at a place.
#[derive(Drop)]
pub enum Place<T: Drop> {
    /// Nobody. The next connection may take it.
    Free,
    /// A connection.
    Taken(Socket<T>),
    /// Nobody, for good: there is no number for a new guest.
    LeftOut,
}

/// Whether a place is free.
pub fn is_free<T: Drop>(place: &Place<T>) -> bool
    ensures { result ≡ true → place.now ≡ Place.Free }
{
    match place {
        Place::Free => true,
        _ => false,
    }
}

/// Whether a place has a connection, or may have one.
pub fn is_in_use<T: Drop>(place: &Place<T>) -> bool {
    match place {
        Place::LeftOut => false,
        _ => true,
    }
}

/// Whether there is a connection at a place.
pub fn is_taken<T: Drop>(place: &Place<T>) -> bool {
    match place {
        Place::Taken(_) => true,
        _ => false,
    }
}

/// The length of the frame that the connection at a place sends, once it is known.
pub fn named_at<T: Drop>(places: &[Place<T>], place: usize) -> u32 {
    match places.get(place) {
        Some(Place::Taken(socket)) => socket.named,
        _ => 0,
    }
}

/// What is left at a place whose connection ended: it is free where its guest was renewed.
pub fn left_by<T: Drop>(is_renewed: bool) -> Place<T>
    ensures free { result ≡ Place.Free → is_renewed ≡ true }
    ensures closed { (socket : _) → result ≢ Place.Taken socket }
{
    if is_renewed {
        Place::Free
    } else {
        Place::LeftOut
    }
}

/// This is left at a place, if there is one.
pub fn leave<T: Drop>(places: &mut Vec<Place<T>>, place: usize, left: Place<T>)
    ensures there { (p : Place _) → slice_get places.new.items place ≡ Some p → p ≡ left }
    ensures others { LeavesPlaces places.old.items place places.new.items }
{
    if place >= places.len() {
        return;
    }
    places[place] = left;
}

/// This connection takes a place, if there is a connection, and the place is free.
pub fn seat<T: Drop>(places: &mut Vec<Place<T>>, place: usize, socket: Option<Socket<T>>)
    ensures { IsSeated places.old.items place places.new.items }
{
    let Some(socket) = socket else {
        return;
    };
    if place >= places.len() || !is_free(&places[place]) {
        return;
    }
    places[place] = Place::Taken(socket);
}

/// A place whose connection, if there is one, is ready.
fn woken<T: Drop>(place: Place<T>) -> Place<T>
    ensures { result ≡ woken place }
{
    match place {
        Place::Taken(socket) => Place::Taken(Socket {
            stream: socket.stream,
            since: socket.since,
            ready: true,
            at_end: socket.at_end,
            named: socket.named,
        }),
        other => other,
    }
}

/// The connection at a place is ready, if there is one.
pub fn wake<T: Drop>(places: &mut Vec<Place<T>>, place: usize)
    ensures { IsStill places.old.items places.new.items }
{
    if place >= places.len() {
        return;
    }
    let here = replace(&mut places[place], Place::LeftOut);
    places[place] = woken(here);
}
