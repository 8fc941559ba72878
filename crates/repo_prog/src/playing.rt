//! `vault play` and `vault loop`.

ghost use Rattle.std.specs.Prelude.{◌≡◌, ◌≢◌, ℕ, List, Some};
ghost use Rattle.repo_prog.specs.Commands.{LoopGives, PlayGives};
ghost use Rattle.repo_prog.specs.declared.status.Status.{Status};

use crate::consoles::Console;
use crate::status::{Status, failed};
use repo_play::{Carrier, CarryError, carry, carry_reply, carry_request, play};
use repo_wire::{Reply, Request};
use std::alloc::{AllocGlobal, Global};
use std::io::{Read, Write};
use std::net::{Net, OpenListener, SocketAddr, TcpListener, TcpStream};

/// `vault play`: plays the script of the input over a store in memory, writes what its lines print on the output, and the text
/// of the error that ended it to the faults.
pub fn play_command<R: Read, W: Write, F: Write>(
    alloc: Global,
    input: &mut R,
    console: &mut Console<W, F>,
) -> Status
    ensures gives { (text : List ℕ) → R.remaining input.old ≡ Some text → PlayGives text (W.contents console.old.output) result (R.remaining input.new) (W.contents console.new.output) }
    ensures silent { result ≡ Status.Done → console.new.faults ≡ console.old.faults }
    ensures status { result ≢ Status.Usage }
{
    match play(alloc, input, &mut console.output) {
        Ok(()) => Status::Done,
        Err(error) => failed(&mut console.faults, &error),
    }
}

/// The ends of a client's connection: its own, and the store's.
#[derive(Drop)]
struct Ends<S: Drop> {
    client: S,
    store: S,
}

/// Connections of this machine to itself: each client has one, from its first request on.
#[derive(Drop)]
pub struct Loopback<'a, T: Net> {
    rt: &'a T,
    alloc: Global,
    listener: T::Listener,
    address: SocketAddr,
    /// The connections, each with the number of its client.
    clients: Vec<(usize, Ends<T::Stream>)>,
}

impl<'a, T: Net> Loopback<'a, T> {
    /// Listens at a free port of 127.0.0.1. `NotReached` where there is none.
    pub fn new(rt: &'a T, alloc: Global) -> Result<Loopback<'a, T>, CarryError> {
        let Ok(listener) = TcpListener::bind(rt, "127.0.0.1:0") else {
            return Err(CarryError::NotReached);
        };
        let Ok(address) = listener.local_addr() else {
            return Err(CarryError::NotReached);
        };
        Ok(Loopback {
            rt,
            alloc,
            listener,
            address,
            clients: Vec::new(alloc),
        })
    }

    /// Both ends of one more connection.
    fn connect(&self) -> Result<Ends<T::Stream>, CarryError> {
        let Ok(client) = TcpStream::connect(self.rt, self.address) else {
            return Err(CarryError::NotReached);
        };
        match self.listener.accept() {
            Ok((store, _)) => Ok(Ends { client, store }),
            Err(_) => Err(CarryError::NotReached),
        }
    }

    /// The ends of a client's connection, which is made where there is none.
    fn ends(&mut self, client: usize) -> Result<&mut Ends<T::Stream>, CarryError> {
        let place = self.clients.iter().position(|ends| ends.0 == client);
        let place = match place {
            Some(place) => place,
            None => {
                let ends = self.connect()?;
                self.clients.push((client, ends))?;
                self.clients.len() - 1
            }
        };
        Ok(&mut self.clients[place].1)
    }
}

impl<T: Net> Carrier for Loopback<'_, T> {
    ghost use Rattle.std.specs.Prelude.{⊤};

    ghost fails = { λ _. ⊤ };

    fn request(&mut self, client: usize, request: &Request) -> Result<(), CarryError> {
        let alloc = self.alloc;
        let ends = self.ends(client)?;
        carry_request(alloc, request, &mut ends.store, &mut ends.client)
    }

    fn reply(&mut self, client: usize, reply: &Reply) -> Result<(), CarryError> {
        let alloc = self.alloc;
        let ends = self.ends(client)?;
        carry_reply(alloc, reply, &mut ends.client, &mut ends.store)
    }
}

/// `vault loop`: plays the script of the input as `vault play` does, and has each request and each reply go over a connection of
/// its client before it is delivered. Scripts have fewer lines.
pub fn loop_command<T: Net + AllocGlobal, R: Read, W: Write, F: Write>(
    rt: &T,
    input: &mut R,
    console: &mut Console<W, F>,
) -> Status
    ensures gives { (text : List ℕ) → R.remaining input.old ≡ Some text → LoopGives text (W.contents console.old.output) result
        (R.remaining input.new) (W.contents console.new.output) }
    ensures silent { result ≡ Status.Done → console.new.faults ≡ console.old.faults }
    ensures status { result ≢ Status.Usage }
{
    let carrier = match Loopback::new(rt, rt.alloc()) {
        Ok(carrier) => carrier,
        Err(error) => return failed(&mut console.faults, &error),
    };
    match carry(rt.alloc(), carrier, input, &mut console.output) {
        Ok(()) => Status::Done,
        Err(error) => failed(&mut console.faults, &error),
    }
}
