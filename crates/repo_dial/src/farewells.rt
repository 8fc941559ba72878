//! The end of a lock whose job isn't gone on with.

ghost use Rattle.std.specs.Prelude.{◌≡◌, IfSome, Option};
ghost use Rattle.repo_wire.specs.Messages.{requests};
ghost use Rattle.repo_wire.specs.Stream.{FitsFrame};
ghost use Rattle.repo_dial.specs.Dialing.{Asking, IsFarewell, ends_behind, farewell_of, token_to_end, unlock_in_place};

use crate::asking::ask_once;
use crate::ends::KnownChannel;
use repo_name::Token;
use repo_session::Client;
use repo_wire::{Ask, Request};
use std::alloc::Global;

/// The token whose lock is to be ended: that of the unlock that is pending, or else the one that the client tells.
fn token_to_end(next: &Ask, told: Option<Token>) -> Option<Token>
    ensures { result ≡ token_to_end next.now told }
{
    match next {
        Ask::Unlock(token) => Some(*token),
        _ => told,
    }
}

/// The unlock of a token, in the place of a request that is pending.
fn unlock_in_place(next: &Request, token: Token) -> Request
    requires { FitsFrame requests next.now }
    ensures value { result ≡ unlock_in_place next.now token }
    ensures frame { FitsFrame requests result }
{
    Request {
        instance: next.instance,
        sequence: next.sequence,
        ask: Ask::Unlock(token),
    }
}

/// The unlock that a client asks for in the place of what is pending, where there is a lock to be ended.
fn farewell_of<C: Client>(client: &C) -> Option<Request>
    ensures value { result ≡ farewell_of (C.next client.now) (C.token_of client.now) }
    ensures frame { IfSome result (λ request. FitsFrame requests request) }
{
    let Some(next) = client.pending() else {
        return None;
    };
    match token_to_end(&next.ask, client.token()) {
        Some(token) => Some(unlock_in_place(next, token)),
        None => None,
    }
}

/// Asks for the end of a client's lock, over the connection that stands. What comes of it isn't told: the client is at
/// its end either way.
pub fn give_back<C: Client, E: KnownChannel>(alloc: Global, client: &C, channel: &mut E)
    ensures { (farewell : Option Asking) × IsFarewell (farewell_of (C.next client.now) (C.token_of client.now)) (E.ends channel.old) farewell
        × (E.ends channel.new ≡ ends_behind (E.ends channel.old) farewell) }
{
    if let Some(request) = farewell_of(client) {
        let _ = ask_once(alloc, channel, &request);
    }
}
