//! Connections to a server, made one after another.

ghost use Rattle.std.specs.Prelude.{◌≡◌, ◌≤◌, ◌↔◌, ◌∷◌, [], Some, IfSome, IsSome, option_and_then, option_map};
ghost use Rattle.repo_dial.specs.Dialing.{Connections, Dials, HangsUp, once};

use crate::ends::{KnownChannel, Pair, pair_of};
use std::net::{Net, OpenStream, TcpStream, ToSocketAddrs};
use std::time::Duration;

/// A way to connect to a server, which may be asked for one connection after another.
pub trait Dial {
    /// A connection: both its ends, as one channel.
    type Ends: KnownChannel + Drop;

    /// The connections that will be had, and those that were had and given back, where that is known.
    ghost connections: { Self → Connections };

    /// The next connection. `None` where it can't be had.
    fn dial(&mut self) -> Option<Self::Ends>
        ensures { Dials (connections self.old) (option_map Self.Ends.ends result) (connections self.new) };

    /// Takes a connection back over which nothing more is said.
    fn hang_up(&mut self, connection: Self::Ends)
        ensures { HangsUp (connections self.old) (Self.Ends.ends connection) (connections self.new) };
}

/// A server's address, at which each connection is made anew. The first one may be made before it is asked for.
#[derive(Drop)]
pub struct Address<'a, T: Net> {
    rt: &'a T,
    address: &'a str,
    idle: Option<Duration>,
    ready: Option<Pair<T::Stream, T::Stream>>,
}

/// A stream to the first of an address's hosts that answers. With a time for `idle` each of them has as long to answer; without it the
/// system's own limit holds. How long a name is looked up is the system's affair.
fn stream_to<T: Net>(rt: &T, address: &str, idle: Option<Duration>) -> Option<T::Stream> {
    let Some(idle) = idle else {
        return TcpStream::connect(rt, address).ok();
    };
    let Ok(hosts) = address.to_socket_addrs(rt) else {
        return None;
    };
    for host in hosts {
        if let Ok(stream) = TcpStream::connect_timeout(rt, &host, idle) {
            return Some(stream);
        }
    }
    None
}

/// Connects to an address. With a time for `idle` each host of the address has as long to answer. What is written goes at once.
/// Otherwise the bytes of a put would wait until the head, which is written before them, was acknowledged. If that can't be set,
/// they wait.
fn connect<T: Net>(
    rt: &T,
    address: &str,
    idle: Option<Duration>,
) -> Option<Pair<T::Stream, T::Stream>> {
    let stream = stream_to(rt, address, idle)?;
    let _ = stream.set_nodelay(true);
    pair_of(stream, idle)
}

impl<'a, T: Net> Address<'a, T> {
    /// An address, to which nothing is connected yet. With a time for `idle` it fails to connect if no host of the address
    /// answers in that time, and a read or a write of its connections fails if it waits for longer.
    pub fn new(rt: &'a T, address: &'a str, idle: Option<Duration>) -> Address<'a, T>
        ensures address { result.address.now ≡ address.now }
        ensures idle { result.idle ≡ idle }
        ensures ready { ¬ IsSome result.ready }
    {
        Address {
            rt,
            address,
            idle,
            ready: None,
        }
    }

    /// Makes the next connection before it is asked for, and tries it so many times more at most. It gives how many
    /// of these are left: `None` where it can't be had.
    pub fn reach(&mut self, retry: u64) -> Option<u64>
        ensures left { IfSome result (λ left. left ≤ retry) }
        ensures ready { IsSome result ↔ IsSome self.new.ready }
        ensures same { (self.new.address.now ≡ self.old.address.now) × (self.new.idle ≡ self.old.idle) }
    {
        self.ready = connect(self.rt, self.address, self.idle);
        for tried in 0..retry {
            if self.ready.is_some() {
                return Some(retry - tried);
            }
            self.ready = connect(self.rt, self.address, self.idle);
        }
        if self.ready.is_some() { Some(0) } else { None }
    }
}

impl<T: Net> Dial for Address<'_, T> {
    ghost use Rattle.repo_dial.specs.Dialing.{unknown};

    type Ends = Pair<T::Stream, T::Stream>;

    ghost connections = { λ _. unknown };

    /// The connection that was made before, if there is one; else one that is made now.
    fn dial(&mut self) -> Option<Pair<T::Stream, T::Stream>>
        ensures ready { IsSome self.old.ready → result ≡ self.old.ready }
    {
        match self.ready.take() {
            Some(ready) => Some(ready),
            None => connect(self.rt, self.address, self.idle),
        }
    }

    /// The connection is closed.
    fn hang_up(&mut self, _connection: Pair<T::Stream, T::Stream>) {}
}

/// A connection that is there already; there is no other. It is kept as it was left, once it was given back.
#[derive(Drop)]
pub struct Once<E: Drop> {
    ready: Option<E>,
    /// What was given back; not known, where more than one was.
    left: Option<Option<E>>,
}

impl<E: KnownChannel + Drop> Once<E> {
    /// This connection.
    pub fn new(connection: E) -> Once<E>
        ensures { once E.ends result.ready result.left ≡ record { coming = Some (Some (E.ends connection) ∷ []); had = Some [] } }
    {
        Once {
            ready: Some(connection),
            left: Some(None),
        }
    }

    /// The connection as it was left, once it was given back.
    pub fn given_back(self) -> Option<E>
        ensures { result ≡ option_and_then (λ left. left) self.left }
    {
        self.left.flatten()
    }
}

impl<E: KnownChannel + Drop> Dial for Once<E> {
    ghost use Rattle.repo_dial.specs.Dialing.{once};

    type Ends = E;

    ghost connections = { λ x. once E.ends x.ready x.left };

    fn dial(&mut self) -> Option<E> {
        self.ready.take()
    }

    fn hang_up(&mut self, connection: E) {
        self.left = match self.left {
            Some(None) => Some(Some(connection)),
            _ => None,
        };
    }
}
