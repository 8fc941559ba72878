//! What a connection's turn is made of: one write, one answer, or one read.

ghost use Rattle.std.specs.Prelude.{◌≡◌, ◌≢◌, ◌<◌, [], List, length, slice_get, Some, Ok, false};
ghost use Rattle.repo_hall.specs.Guests.{AnswerCause, IsAwaited};
ghost use Rattle.repo_hall.specs.Halls.{StaysAt};
ghost use Rattle.repo_hall.specs.declared.guests.Guest.{Guest};
ghost use Rattle.repo_many.specs.Wires.{HallAnswers, HallServesStill, IsLost};
ghost use Rattle.repo_many.specs.declared.progress.Progress.{Progress};
ghost use Rattle.repo_store.specs.Channels.{Passage};

use crate::progress::Progress;
use crate::wires::Wire;
use repo_hall::Hall;
use repo_store::{ServeError, Shelf};
use std::io::ErrorKind;

/// Gives the guest at a place some of what it is to be given, by saying it once at most. Just what was said counts as given.
pub fn give<C: Wire>(hall: &mut Hall, place: usize, wire: &mut C) -> Progress
    requires { place < length hall.old.guests.items }
    ensures serves { HallServesStill C.hears C.says hall.old place wire.old [] hall.new wire.new }
    ensures goes_on { result ≢ Progress.AtEnd }
    ensures places { length hall.new.guests.items ≡ length hall.old.guests.items }
    ensures guests { StaysAt hall.old place hall.new }
{
    let out = hall.out(place);
    if out.is_empty() {
        return Progress::Still;
    }
    match wire.say(out) {
        Ok(0) => Progress::Failed(ServeError::Write),
        Ok(count) => {
            hall.gave(place, count);
            Progress::Moved
        }
        Err(error) if error.kind() == ErrorKind::WouldBlock => Progress::Still,
        Err(error) if error.kind() == ErrorKind::Interrupted => Progress::Moved,
        Err(_) => Progress::Failed(ServeError::Write),
    }
}

/// Takes a piece of what the guest at a place brings, of which more is awaited, by hearing once: what is heard is what it brings, and
/// nothing of it is let go unless there is no memory for it, which is told. Its end is told only if nothing more can be heard.
pub fn take<C: Wire>(hall: &mut Hall, place: usize, piece: &mut [u8], wire: &mut C) -> Progress
    requires place { place < length hall.old.guests.items }
    requires awaited { (g : Guest) → slice_get hall.old.guests.items place ≡ Some g → IsAwaited g }
    ensures serves { (lost : List Passage) × IsLost result lost × HallServesStill C.hears C.says hall.old place wire.old lost hall.new wire.new }
    ensures over { result ≡ Progress.AtEnd → 0 < length piece.new → C.is_over wire.new }
    ensures places { length hall.new.guests.items ≡ length hall.old.guests.items }
    ensures guests { StaysAt hall.old place hall.new }
{
    match wire.hear(piece) {
        Ok(0) => Progress::AtEnd,
        Ok(count) => match hall.arrives(place, &piece[..count]) {
            Ok(()) => Progress::Moved,
            Err(_) => Progress::Failed(ServeError::Memory),
        },
        Err(error) if error.kind() == ErrorKind::WouldBlock => Progress::Still,
        Err(error) if error.kind() == ErrorKind::Interrupted => Progress::Moved,
        Err(_) => Progress::Failed(ServeError::Read),
    }
}

/// Answers one request of the guest at a place, where a whole one is there. Where none is, nothing changed.
pub fn reply<S: Shelf>(hall: &mut Hall, place: usize, shelf: &mut S) -> Progress
    requires { place < length hall.old.guests.items }
    ensures still { result ≡ Progress.Still → (hall.new.guests.items ≡ hall.old.guests.items)
        × ((g : Guest) → slice_get hall.old.guests.items place ≡ Some g → AnswerCause g (Ok false)) }
    ensures goes_on { result ≢ Progress.AtEnd }
    ensures answers { S.honest shelf.old → HallAnswers hall.old (S.store shelf.old) (S.failed shelf.old) place hall.new (S.store shelf.new) (S.failed shelf.new) }
    ensures honest { S.honest shelf.old → S.honest shelf.new }
    ensures places { length hall.new.guests.items ≡ length hall.old.guests.items }
    ensures guests { StaysAt hall.old place hall.new }
{
    match hall.answer_at(place, shelf) {
        Ok(true) => Progress::Moved,
        Ok(false) => Progress::Still,
        Err(error) => Progress::Failed(ServeError::from(error)),
    }
}
