//! One request, asked over a connection.

ghost use Rattle.repo_wire.specs.Messages.{requests};
ghost use Rattle.repo_wire.specs.Stream.{FitsFrame};
ghost use Rattle.repo_dial.specs.Dialing.{AsksOnce};

use crate::ends::KnownChannel;
use repo_session::{Connection, DriveError};
use repo_wire::{Reply, Request};
use std::alloc::Global;

/// Sends one request, which fits a frame, over a connection, and gives the reply to it. Other replies are passed over. It
/// hears only once the request was said whole, and while the reply to it isn't there. What it heard beyond that reply is let
/// go.
pub fn ask_once<E: KnownChannel>(
    alloc: Global,
    channel: &mut E,
    request: &Request,
) -> Result<Reply, DriveError>
    requires { FitsFrame requests request.now }
    ensures { AsksOnce request.now (E.ends channel.old) result (E.ends channel.new) }
{
    let mut connection = Connection::new(alloc)?;
    connection.ask_over(request, channel)
}
