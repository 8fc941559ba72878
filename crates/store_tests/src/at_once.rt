//! Connections of this machine to itself that are served at once.

use crate::connections::{TICKET, TOO_SHORT, token};
use repo_many::{Manner, Served, serve_many};
use repo_store::MemShelf;
use std::io::{Read, Write};
use std::net::{Shutdown, TcpListener, TcpStream};
use std::test::Fail;
use std::time::Duration;

#[test]
fn connections_that_wait_are_served(rt: HostRuntime) -> Result<(), Fail> {
    let listener = TcpListener::bind(&rt, "127.0.0.1:0")?;
    let address = listener.local_addr()?;
    let mut first = TcpStream::connect(&rt, address)?;
    first.write_all(&TICKET)?;
    first.write_all(&TICKET)?;
    first.shutdown(Shutdown::Write)?;
    let mut second = TcpStream::connect(&rt, address)?;
    second.shutdown(Shutdown::Write)?;
    let mut shelf = MemShelf::new(rt.alloc());
    let mut faults = Vec::new(rt.alloc());
    let manner = Manner {
        connections: 2,
        at_once: 3,
        memory: None,
        idle: Some(Duration::from_secs(60)),
    };
    let served = serve_many(&rt, listener, manner, &mut shelf, &mut faults)?;
    let mut reply = [0u8; 37];
    first.read_exact(&mut reply)?;
    let is_first = reply == token(1);
    first.read_exact(&mut reply)?;
    assert!(rt; served == Served::Well && is_first && reply == token(2) && faults.is_empty());
    Ok(())
}

#[test]
fn a_connection_that_makes_no_sense_is_told(rt: HostRuntime) -> Result<(), Fail> {
    let listener = TcpListener::bind(&rt, "127.0.0.1:0")?;
    let address = listener.local_addr()?;
    let mut first = TcpStream::connect(&rt, address)?;
    first.write_all(&TOO_SHORT)?;
    let mut second = TcpStream::connect(&rt, address)?;
    second.write_all(&TICKET)?;
    second.shutdown(Shutdown::Write)?;
    let mut shelf = MemShelf::new(rt.alloc());
    let mut faults = Vec::new(rt.alloc());
    let manner = Manner {
        connections: 2,
        at_once: 2,
        memory: None,
        idle: None,
    };
    let served = serve_many(&rt, listener, manner, &mut shelf, &mut faults)?;
    let mut reply = [0u8; 37];
    second.read_exact(&mut reply)?;
    let is_told = faults.as_slice() == b"malformed\n".as_slice();
    assert!(rt; served == Served::WithErrors && reply == token(1) && is_told);
    Ok(())
}
