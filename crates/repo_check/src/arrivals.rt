//! What a reply brings of an object.

ghost use Rattle.repo_check.specs.Arrivals.{ArrivesAs};

use repo_name::{Kind, Name, name_of};
use repo_wire::{Code, Say};

/// What the reply to the request for an object brings.
#[derive(Clone, Copy, Debug)]
pub enum Arrival<'a> {
    /// The bytes, which have the object's name.
    Named(&'a [u8]),
    /// Bytes of another name.
    Misnamed,
    /// It isn't there.
    Absent,
    /// Another refusal, or a reply of another sort.
    Unwelcome,
}

/// What a reply brings of an object of this name. It takes no memory.
pub fn arrival_of<'a>(kind: Kind, name: Name, say: &'a Say) -> Arrival<'a>
    ensures { ArrivesAs kind name say.now result }
{
    match say {
        Say::Bytes(bytes) if name_of(bytes.as_slice()) == name => Arrival::Named(bytes.as_slice()),
        Say::Bytes(_) => Arrival::Misnamed,
        Say::Refused(Code::Missing) => Arrival::Absent,
        _ => Arrival::Unwelcome,
    }
}
