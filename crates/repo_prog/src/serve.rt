//! `vault serve`.

ghost use Rattle.std.specs.Prelude.{◌≡◌, ◌≤◌, ◌<◌, ◌↔◌, ◌⊎◌, ◌++◌, Option, true, false, IfOk, IsOk, OnOk, OnErr, string_bytes};
ghost use Rattle.std.specs.Io.KnownBytes.{Appends};
ghost use Rattle.repo_prog.specs.Commands.{IsEnd, Listens, ListensAtMost, ListensBy, address_line, listening_line};
ghost use Rattle.repo_prog.specs.Serving.{IsServed, ServesAtOnce, ServesInTurn, Visit, as_served, ending, memory_of};
ghost use Rattle.repo_prog.specs.declared.status.Status.{Status};
ghost use Rattle.repo_store.specs.AppendOnly.{KeepsObjects, OnlyAppends};
ghost use Rattle.repo_store.specs.Output.{AppendsPart};
ghost use Rattle.repo_store.specs.Serving.{Ran};

use crate::addresses::host_alone;
use crate::consoles::Console;
use crate::listeners::{Arrival, Arrivals, Listen};
use crate::status::{Status, failed, failed_by};
use repo_files::{HoldFile, open_store};
use repo_many::{Manner, Served, serve_many};
use repo_store::{AppendOnly, Kept, ServeError, Shelf, Unwritten, serve_over, write_whole};
use std::alloc::{AllocError, AllocGlobal, Global};
use std::fs::Files;
use std::io::{Read, Write};
use std::net::{Net, OpenListener, OpenStream, TcpListener};
use std::os::fd::AsRawFd;
use std::rt::Clock;
use std::time::Duration;

/// How serving a connection ended, and whether taking one failed before, which was reported.
#[derive(Drop)]
struct Visited {
    refused: bool,
    result: Result<u64, ServeError>,
}

/// Waits for the next connection, serves it, from its first request to its end, and gives it back as serving left it. One that
/// can't be served is as one of which nothing can be read.
fn serve_next<L: Listen, S: Shelf, F: Write>(
    alloc: Global,
    listener: &mut L,
    shelf: &mut S,
    faults: &mut F,
) -> Visited
    ensures served { S.honest shelf.old → (visit : Option (Visit L.Ends)) × (result.result ≡ ending visit)
        × IsServed L.accepts L.leaves L.Ends.hears L.Ends.says L.Ends.is_over result.refused visit listener.old (S.store shelf.old) (S.failed shelf.old)
        listener.new (S.store shelf.new) (S.failed shelf.new) }
    ensures kept { S.honest shelf.old → OnlyAppends (S.store shelf.old) (S.store shelf.new) }
    ensures honest { S.honest shelf.old → S.honest shelf.new }
    ensures silent { result.refused ≡ false → faults.new ≡ faults.old }
{
    let Arrival { ends, refused } = listener.accept(faults);
    let result = match ends {
        Some(mut ends) => {
            let served = serve_over(alloc, &mut ends, shelf);
            listener.hang_up(ends);
            served
        }
        None => Err(ServeError::Read),
    };
    Visited { refused, result }
}

/// The status after a connection. If it ended by an error, that is reported.
fn status_after<F: Write>(status: Status, served: Visited, faults: &mut F) -> Status
    ensures silent { result ≡ Status.Done → faults.new ≡ faults.old }
    ensures status { IsEnd status → IsEnd result }
    ensures done { (result ≡ Status.Done) ↔ ((status ≡ Status.Done) × (served.refused ≡ false) × IsOk served.result) }
{
    match served.result {
        Ok(_) if served.refused => Status::Failed,
        Ok(_) => status,
        Err(error) => failed(faults, &error),
    }
}

/// Takes so many connections, one after another, serves each, from its first request to its end, and gives it back to the
/// listener as serving left it: nothing goes over it behind that. If one ends by an error, its text is printed, the next is
/// served, and the status at the end is `Failed`. Taking one that fails is no connection: `read failed` is printed once, the
/// next try comes after a pause, and the status at the end is `Failed`. `Done` means that taking one never failed, and each
/// connection was served and ended without an error.
///
/// The shelf is where the connections' own requests lead, connection after connection, and nothing else; over each, whenever
/// more was heard, all was served that had been heard before. Whatever they bring, a store that only appends keeps each object.
pub fn serve_connections<L: Listen, S: Shelf, F: Write>(
    alloc: Global,
    listener: &mut L,
    connections: u64,
    shelf: &mut S,
    faults: &mut F,
) -> Status
    ensures served { S.honest shelf.old → ServesInTurn L.accepts L.leaves L.Ends.hears L.Ends.says L.Ends.is_over connections result
        listener.old (S.store shelf.old) (S.failed shelf.old) listener.new (S.store shelf.new) (S.failed shelf.new) }
    ensures kept { S.honest shelf.old → OnlyAppends (S.store shelf.old) (S.store shelf.new) }
    ensures honest { S.honest shelf.old → S.honest shelf.new }
    ensures silent { result ≡ Status.Done → faults.new ≡ faults.old }
    ensures status { IsEnd result }
{
    let mut status = Status::Done;
    for turn in 0..connections {
        let served = serve_next(alloc, listener, shelf, faults);
        status = status_after(status, served, faults);
    }
    status
}

/// How many bytes so many mebibytes are. `None` if they are 0.
fn memory_of(mebibytes: u64) -> Option<u64>
    ensures { result ≡ memory_of mebibytes }
{
    if mebibytes == 0 {
        return None;
    }
    Some(mebibytes.saturating_mul(1_048_576))
}

/// Serves so many connections of a bound listener at once, one request of each in turn. A listener that can't be
/// waited for is told as `wait failed`.
fn serve_at_once<
    R: Net + Clock + AllocGlobal,
    L: OpenListener + AsRawFd + Drop,
    S: Shelf,
    F: Write,
>(rt: &R, listener: L, serving: Serving, shelf: &mut S, faults: &mut F) -> Status
where
    L::Stream: Read + Write + OpenStream + AsRawFd,
    ensures hosted { S.honest shelf.old → ServesAtOnce L.Stream.remaining L.Stream.contents (S.store shelf.old) (S.failed shelf.old) (S.store shelf.new) (S.failed shelf.new) }
    ensures kept { S.honest shelf.old → OnlyAppends (S.store shelf.old) (S.store shelf.new) }
    ensures ran { S.honest shelf.old → Ran (S.store shelf.old) (S.failed shelf.old) (S.store shelf.new) (S.failed shelf.new) }
    ensures honest { S.honest shelf.old → S.honest shelf.new }
    ensures silent { result ≡ Status.Done → faults.new ≡ faults.old }
    ensures status { IsEnd result }
{
    let manner = Manner {
        connections: serving.connections,
        at_once: serving.at_once,
        memory: memory_of(serving.memory),
        idle: serving.idle,
    };
    match serve_many(rt, listener, manner, shelf, faults) {
        Ok(Served::Well) => Status::Done,
        Ok(Served::WithErrors) => Status::Failed,
        Err(_) => failed(faults, &"wait failed"),
    }
}

/// Serves the connections of a listener at once, if there is one.
fn serve_given<R: Net + Clock + AllocGlobal, L: OpenListener + AsRawFd + Drop, S: Shelf, F: Write>(
    rt: &R,
    listener: Option<L>,
    serving: Serving,
    shelf: &mut S,
    faults: &mut F,
) -> Status
where
    L::Stream: Read + Write + OpenStream + AsRawFd,
    ensures hosted { S.honest shelf.old → ServesAtOnce L.Stream.remaining L.Stream.contents (S.store shelf.old) (S.failed shelf.old) (S.store shelf.new) (S.failed shelf.new) }
    ensures kept { S.honest shelf.old → OnlyAppends (S.store shelf.old) (S.store shelf.new) }
    ensures ran { S.honest shelf.old → Ran (S.store shelf.old) (S.failed shelf.old) (S.store shelf.new) (S.failed shelf.new) }
    ensures honest { S.honest shelf.old → S.honest shelf.new }
    ensures silent { result ≡ Status.Done → faults.new ≡ faults.old }
    ensures status { IsEnd result }
{
    match listener {
        Some(listener) => serve_at_once(rt, listener, serving, shelf, faults),
        None => failed(faults, &"wait failed"),
    }
}

/// Serves connections as they are to be served: one after another, as they arrive, or several at once, as the bound listener
/// has them.
fn serve_listener<
    R: Net + Clock + AllocGlobal,
    L: OpenListener + AsRawFd + Drop,
    A: Listen<Listener = L>,
    S: Shelf,
    F: Write,
>(rt: &R, arrivals: &mut A, serving: Serving, shelf: &mut S, faults: &mut F) -> Status
where
    L::Stream: Read + Write + OpenStream + AsRawFd,
    ensures served { S.honest shelf.old → serving.at_once ≤ 1 → ServesInTurn A.accepts A.leaves A.Ends.hears A.Ends.says A.Ends.is_over serving.connections result
        arrivals.old (S.store shelf.old) (S.failed shelf.old) arrivals.new (S.store shelf.new) (S.failed shelf.new) }
    ensures hosted { S.honest shelf.old → 1 < serving.at_once → ServesAtOnce L.Stream.remaining L.Stream.contents (S.store shelf.old) (S.failed shelf.old) (S.store shelf.new) (S.failed shelf.new) }
    ensures kept { S.honest shelf.old → OnlyAppends (S.store shelf.old) (S.store shelf.new) }
    ensures ran { S.honest shelf.old → Ran (S.store shelf.old) (S.failed shelf.old) (S.store shelf.new) (S.failed shelf.new) }
    ensures honest { S.honest shelf.old → S.honest shelf.new }
    ensures silent { result ≡ Status.Done → faults.new ≡ faults.old }
    ensures status { IsEnd result }
{
    if serving.at_once > 1 {
        return serve_given(rt, arrivals.give_up(), serving, shelf, faults);
    }
    let alloc = rt.alloc();
    serve_connections(alloc, arrivals, serving.connections, shelf, faults)
}

/// Serves a shelf as it is to be served, and gives it back. What it has is remembered, so nobody else may write to it.
///
/// Its store is where requests lead, and nothing else. Where it only appends each object that it had is there, with the
/// same bytes, whatever was asked.
fn serve_shelf<
    R: Net + Clock + AllocGlobal,
    L: OpenListener + AsRawFd + Drop,
    A: Listen<Listener = L>,
    S: Shelf + Drop,
    F: Write,
>(rt: &R, arrivals: &mut A, serving: Serving, shelf: S, faults: &mut F) -> (Status, S)
where
    L::Stream: Read + Write + OpenStream + AsRawFd,
    ensures served { S.honest shelf → serving.at_once ≤ 1 → ServesInTurn A.accepts A.leaves A.Ends.hears A.Ends.says A.Ends.is_over serving.connections result.0
        arrivals.old (as_served serving.append_only (S.store shelf)) (S.failed shelf) arrivals.new (as_served serving.append_only (S.store result.1)) (S.failed result.1) }
    ensures hosted { S.honest shelf → 1 < serving.at_once
        → ServesAtOnce L.Stream.remaining L.Stream.contents (as_served serving.append_only (S.store shelf)) (S.failed shelf) (as_served serving.append_only (S.store result.1)) (S.failed result.1) }
    ensures kept { S.honest shelf → serving.append_only ≡ true → KeepsObjects (S.store shelf) (S.store result.1) }
    ensures ran { S.honest shelf → Ran (as_served serving.append_only (S.store shelf)) (S.failed shelf) (as_served serving.append_only (S.store result.1)) (S.failed result.1) }
    ensures honest { S.honest shelf → S.honest result.1 }
    ensures silent { result.0 ≡ Status.Done → faults.new ≡ faults.old }
    ensures status { IsEnd result.0 }
{
    if serving.append_only {
        let mut kept = Kept::new(rt.alloc(), AppendOnly::new(shelf));
        let status = serve_listener(rt, arrivals, serving, &mut kept, faults);
        return (status, kept.into_inner().into_inner());
    }
    let mut kept = Kept::new(rt.alloc(), shelf);
    let status = serve_listener(rt, arrivals, serving, &mut kept, faults);
    (status, kept.into_inner())
}

/// How a store is served.
#[derive(Clone, Copy, Debug, PartialEq)]
pub struct Serving {
    /// How many connections are served in all.
    pub connections: u64,
    /// How many at once, 1 to 256: with 1 one after another, each from its first request to its end.
    pub at_once: usize,
    /// How many mebibytes large frames may take together that are being read; 0: enough for the greatest of each connection.
    pub memory: u64,
    /// A connection that is idle for longer than this ends; `None`: none does.
    pub idle: Option<Duration>,
    /// The store only appends: it refuses to delete any object.
    pub append_only: bool,
}

/// The lines that a server writes if its address has this host and leaves the port to the system, which chose this one.
fn left_lines(alloc: Global, host: &str, port: u16) -> Result<String, AllocError>
    ensures { IfOk result (λ lines. string_bytes lines ≡ listening_line ++ address_line host.now port) }
{
    format!(in alloc; "listening\naddress {host}:{port}\n")
}

/// The lines that a server writes once it listens at an address with this port.
fn listening_lines(alloc: Global, address: &str, port: u16) -> Result<String, AllocError>
    ensures { IfOk result (λ lines. ListensBy address.now (string_bytes lines)) }
{
    match host_alone(address) {
        Some(host) => left_lines(alloc, host, port),
        None => String::from_str(alloc, "listening\n"),
    }
}

/// Writes a text, and has it leave at once. On an error some first part of it was written, or none, or all.
fn write_out<W: Write>(text: &str, output: &mut W) -> Result<(), Unwritten>
    ensures ok { OnOk result (Appends (W.contents output.old) (W.contents output.new) text.now) }
    ensures err { OnErr result (AppendsPart (W.contents output.old) (W.contents output.new) text.now ⊎ Appends (W.contents output.old) (W.contents output.new) text.now) }
{
    write_whole(output, text.as_bytes())?;
    match output.flush() {
        Ok(()) => Ok(()),
        Err(_) => Err(Unwritten),
    }
}

/// Writes what a server writes once it listens.
fn show_listening<W: Write, F: Write>(
    alloc: Global,
    address: &str,
    port: u16,
    console: &mut Console<W, F>,
) -> Status
    ensures silent { result ≡ Status.Done → console.new.faults ≡ console.old.faults }
    ensures status { IsEnd result }
    ensures written { result ≡ Status.Done → Listens address.now (W.contents console.old.output) (W.contents console.new.output) }
    ensures cut { result ≡ Status.Failed → ListensAtMost address.now (W.contents console.old.output) (W.contents console.new.output) }
{
    let Ok(lines) = listening_lines(alloc, address, port) else {
        return failed(&mut console.faults, &"out of memory");
    };
    match write_out(lines.as_str(), &mut console.output) {
        Ok(()) => Status::Done,
        Err(error) => failed(&mut console.faults, &error),
    }
}

/// `vault serve`: opens the store in a folder, which it holds until it ends, binds the address, writes
/// `listening` on a line, and serves so many connections, so many at once, each of which ends once it is idle for so
/// long. Where the address leaves the port to the system, a second line tells the address with the port that it has.
/// What the folder has is read once and remembered, since nobody else writes there.
/// A folder that can't be opened, is no store, or is held by another server is told as `shelf failed`, an
/// address as `not reached`, a line that can't be written as `write failed`, want of memory as such; then nothing is served. What
/// writes that were cut off left is removed once the address is bound.
pub fn serve_folder<R: Files + Net + Clock + AllocGlobal + Clone + Drop, W: Write, F: Write>(
    rt: &R,
    folder: &str,
    address: &str,
    serving: Serving,
    console: &mut Console<W, F>,
) -> Status
where
    R::File: HoldFile,
    ensures silent { result ≡ Status.Done → console.new.faults ≡ console.old.faults }
    ensures status { IsEnd result }
    ensures written { result ≡ Status.Done → Listens address.now (W.contents console.old.output) (W.contents console.new.output) }
    ensures cut { result ≡ Status.Failed → ListensAtMost address.now (W.contents console.old.output) (W.contents console.new.output) }
{
    let shelf = match open_store(rt, folder) {
        Ok(shelf) => shelf,
        Err(error) => return failed_by(&mut console.faults, &error, "shelf failed"),
    };
    let listener = match TcpListener::bind(rt, address) {
        Ok(listener) => listener,
        Err(error) => return failed_by(&mut console.faults, &error, "not reached"),
    };
    shelf.folder.disk.clean();
    let port = match listener.local_addr() {
        Ok(bound) => bound.port(),
        Err(error) => return failed_by(&mut console.faults, &error, "not reached"),
    };
    match show_listening(rt.alloc(), address, port, console) {
        Status::Done => {}
        other => return other,
    }
    let mut arrivals = Arrivals::at(rt, listener, serving.idle);
    let (status, _) = serve_shelf(rt, &mut arrivals, serving, shelf, &mut console.faults);
    status
}
