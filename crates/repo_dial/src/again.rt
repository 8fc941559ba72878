//! The driver of a client over connections that are made one after another.

ghost use Rattle.std.specs.Fn.{CalledAt};
ghost use Rattle.std.specs.Prelude.{◌≡◌, Some, Err};
ghost use Rattle.repo_session.specs.Sinks.{IsHandedOn};
ghost use Rattle.repo_session.specs.declared.driving.DriveError.{DriveError};
ghost use Rattle.repo_dial.specs.Dialing.{Call, Try, driven_by, dialed_in, left_in, talk_in, ends_behind, IsDialed, IsStopped, DrivenOver, TryGives, is_cut, DrivesAgain};

use crate::dialing::Dial;
use crate::ends::KnownChannel;
use crate::farewells::give_back;
use crate::peers::Acquaintance;
use repo_session::{Client, Connection, DriveError, Emission, drive_over};
use repo_wire::Code;
use std::alloc::{AllocError, Global};
use thiserror::Error;

/// Why a client wasn't brought to its end by the last connection that was tried.
#[derive(Clone, Copy, Debug, PartialEq, Eq, Error)]
pub enum TryError {
    /// There was none.
    #[error("not reached")]
    NotReached,
    /// The store wasn't asked for its config over it, or the client wasn't driven to its end.
    #[error("{0}")]
    Drive(DriveError),
    /// The store refused its config, for this.
    #[error("refused {}", .0.number())]
    Refused(Code),
    /// What the store said to the ask for its config is no answer to it.
    #[error("badreply")]
    BadReply,
    /// The store has another config than that of the connections before, so it is another one.
    #[error("the store is another one")]
    OtherStore,
}

impl From<AllocError> for TryError {
    ghost use Rattle.std.specs.Prelude.{◌≡◌};
    ghost use Rattle.repo_session.specs.declared.driving.DriveError.{DriveError};
    ghost use Rattle.repo_dial.specs.declared.again.TryError.{TryError};

    ghost from_gives = { λ e r. r ≡ TryError.Drive DriveError.Memory };

    fn from(_: AllocError) -> TryError {
        TryError::Drive(DriveError::Memory)
    }
}

/// Whether the job may go on over another connection: there was none, or it ended, broke, or brought what is no reply.
fn is_cut(error: TryError) -> bool
    ensures { result ≡ is_cut error }
{
    match error {
        TryError::NotReached => true,
        TryError::Drive(DriveError::Read | DriveError::Write | DriveError::Malformed) => true,
        TryError::Drive(DriveError::Limit | DriveError::Memory | DriveError::Sink) => false,
        TryError::Refused(_) | TryError::BadReply | TryError::OtherStore => false,
    }
}

/// Drives a client over a connection, in turn. Where the sink takes no more, the client's lock is given back over it.
fn carry<C: Client, E: KnownChannel, F: FnMut(&Emission) -> bool>(
    alloc: Global,
    client: &mut C,
    channel: &mut E,
    sink: &mut F,
) -> Result<u64, DriveError>
    requires callable { (state : F) (x : _) → F.pre state x }
    ensures { (call : Call) × (call.came ≡ E.ends channel.old) × (ends_behind call.left call.farewell ≡ E.ends channel.new)
        × DrivenOver (driven_by C.who C.job C.fits C.next C.token_of) client.old call result client.new
        × IsHandedOn (CalledAt F.FnMut) (result ≡ Err DriveError.Sink) sink.old call.said.talk sink.new }
{
    let mut connection = Connection::new(alloc)?;
    let driven = drive_over(client, &mut connection, channel, sink);
    if driven != Err(DriveError::Sink) {
        return driven;
    }
    give_back(alloc, client, channel);
    driven
}

/// Drives a client over a connection, where its store is the one that is known.
fn try_over<C: Client, E: KnownChannel, F: FnMut(&Emission) -> bool>(
    alloc: Global,
    client: &mut C,
    channel: &mut E,
    known: &mut Acquaintance,
    sink: &mut F,
) -> Result<u64, TryError>
    requires callable { (state : F) (x : _) → F.pre state x }
    ensures { (try : Try) × (dialed_in try ≡ Some (E.ends channel.old)) × (left_in try ≡ Some (E.ends channel.new))
        × TryGives (driven_by C.who C.job C.fits C.next C.token_of) known.old client.old try result client.new known.new
        × IsHandedOn (CalledAt F.FnMut) (IsStopped result) sink.old (talk_in try) sink.new }
{
    if let Err(error) = known.meet(alloc, client, channel) {
        return Err(error);
    }
    match carry(alloc, client, channel, sink) {
        Ok(count) => Ok(count),
        Err(error) => Err(TryError::Drive(error)),
    }
}

/// Drives a client so over the next connection, and gives that back.
fn try_once<C: Client, D: Dial, F: FnMut(&Emission) -> bool>(
    alloc: Global,
    client: &mut C,
    dial: &mut D,
    known: &mut Acquaintance,
    sink: &mut F,
) -> Result<u64, TryError>
    requires callable { (state : F) (x : _) → F.pre state x }
    ensures { (try : Try) × IsDialed (D.connections dial.old) try (D.connections dial.new)
        × TryGives (driven_by C.who C.job C.fits C.next C.token_of) known.old client.old try result client.new known.new
        × IsHandedOn (CalledAt F.FnMut) (IsStopped result) sink.old (talk_in try) sink.new }
{
    let Some(mut channel) = dial.dial() else {
        return Err(TryError::NotReached);
    };
    let result = try_over(alloc, client, &mut channel, known, sink);
    dial.hang_up(channel);
    result
}

/// Carries a client's requests as `drive_over` does, over one connection after another: where one can't be had, ends, or
/// breaks, or brings what is no stream of replies, it goes on over the next, and sends the request again that is
/// pending. So many are tried after the first; the error of the last one is told. Other errors end it at once. It gives how
/// many requests were sent over the last connection.
///
/// Where more than one may be tried, the store at the other end of each is asked for its config before the client says
/// anything, and the job goes on only at the store of the first one: `OtherStore` where the config has other bytes.
///
/// What the client gave out is handed to the sink, each part once and in order, whatever connections it takes. Where the sink takes no more, the
/// client's lock is given back over the same connection, by an unlock whose number was not used before.
pub fn drive_again<C: Client, D: Dial, F: FnMut(&Emission) -> bool>(
    alloc: Global,
    client: &mut C,
    dial: &mut D,
    retry: u64,
    sink: &mut F,
) -> Result<u64, TryError>
    requires callable { (state : F) (x : _) → F.pre state x }
    ensures again { DrivesAgain (driven_by C.who C.job C.fits C.next C.token_of) (CalledAt F.FnMut) retry client.old sink.old result client.new sink.new
        (D.connections dial.old) (D.connections dial.new) }
    ensures job { C.job client.new ≡ C.job client.old }
{
    let mut known = Acquaintance::new(retry);
    let mut result = try_once(alloc, client, dial, &mut known, sink);
    for turn in 0..retry {
        match result {
            Err(error) if is_cut(error) => {
                result = try_once(alloc, client, dial, &mut known, sink);
            }
            other => return other,
        }
    }
    result
}
