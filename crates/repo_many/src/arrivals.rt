//! Connections that come.

ghost use Rattle.std.specs.Prelude.{◌≡◌, None};
ghost use Rattle.repo_many.specs.declared.arrivals.Arrival.{Arrival};

use crate::doors::Look;
use crate::sockets::Socket;
use crate::wires::Link;
use mio::unix::SourceFd;
use mio::{Interest, Poll, Token};
use std::io;
use std::io::{ErrorKind, Read, Write};
use std::net::{OpenListener, OpenStream};
use std::os::fd::AsRawFd;

/// A look for a connection, and the connection if one was taken that can be served.
#[derive(Drop)]
pub struct Arrival<T: Drop> {
    pub look: Look,
    pub socket: Option<Socket<Link<T>>>,
}

/// Has a poll tell when a socket is ready.
pub fn watch<T: AsRawFd>(
    poll: &Poll,
    socket: &T,
    token: Token,
    interest: Interest,
) -> io::Result<()> {
    let fd = socket.as_raw_fd();
    poll.registry()
        .register(&mut SourceFd(&fd), token, interest)
}

/// Has a poll tell anew when a socket is ready, at once if it is.
pub fn watch_anew<T: AsRawFd>(
    poll: &Poll,
    socket: &T,
    token: Token,
    interest: Interest,
) -> io::Result<()> {
    let fd = socket.as_raw_fd();
    poll.registry()
        .reregister(&mut SourceFd(&fd), token, interest)
}

/// Has a poll tell when a connection is ready, from which no read or write waits any more.
fn prepare<T: OpenStream + AsRawFd>(poll: &Poll, stream: &T, place: usize) -> io::Result<()> {
    stream.set_nonblocking(true)?;
    watch(
        poll,
        stream,
        Token(place),
        Interest::READABLE | Interest::WRITABLE,
    )
}

/// A look by which no connection is had.
fn without<T: Drop>(look: Look) -> Arrival<T>
    ensures { result ≡ record { look = look; socket = None } }
{
    Arrival { look, socket: None }
}

/// Takes the next connection to this place, if one waits.
pub fn accept<L: OpenListener>(
    poll: &Poll,
    listener: &L,
    place: usize,
    time: u64,
) -> Arrival<L::Stream>
where
    L::Stream: Read + Write + OpenStream + AsRawFd,
{
    let stream = match listener.accept() {
        Ok((stream, _)) => stream,
        Err(error) if error.kind() == ErrorKind::WouldBlock => return without(Look::Nobody),
        Err(_) => return without(Look::Refused),
    };
    if prepare(poll, &stream, place).is_err() {
        return without(Look::Lost);
    }
    Arrival {
        look: Look::Came,
        socket: Some(Socket {
            stream: Link { stream },
            since: time,
            ready: true,
            at_end: false,
            named: 0,
        }),
    }
}
