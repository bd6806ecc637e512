//! A port, from the line that tells it.

use crate::clients::{ask, gets, listen};
use crate::exchanges::{FIRST_BUG, REPORT};
use desk_http::{ServerFault, serve_port};
use memory_desk::PlainDesk;
use std::alloc::{AllocError, Global};
use std::io::{self, Write};
use std::net::{Ipv4Addr, TcpStream};
use std::test::Fail;

// A writer that keeps what it is given, and calls a port where it is flushed, also by another
// address of this machine.
#[derive(Drop)]
struct Caller<'a> {
    rt: &'a HostRuntime,
    port: u16,
    told: Vec<u8>,
    client: Option<TcpStream>,
    is_refused: bool,
}

impl Write for Caller<'_> {
    fn write(&mut self, buf: &[u8]) -> io::Result<usize> {
        self.told.extend_from_slice(buf)?;
        Ok(buf.len())
    }

    fn flush(&mut self) -> io::Result<()> {
        let other = Ipv4Addr::new(127, 0, 0, 2);
        self.is_refused = TcpStream::connect(self.rt, (other, self.port)).is_err();
        self.client = Some(ask(self.rt, self.port, REPORT.as_bytes())?);
        Ok(())
    }
}

// A port that nobody listens on.
fn free_port(rt: &HostRuntime) -> io::Result<u16> {
    Ok(listen(rt)?.port)
}

// How a new desk's server of one connection at a port ends, which tells the port to a writer.
fn serve<W: Write>(rt: &HostRuntime, port: u16, writer: &mut W) -> Result<(), ServerFault> {
    let alloc = rt.alloc();
    let mut desk = PlainDesk::new(alloc, 1);
    serve_port(rt, alloc, &mut desk, port, 1, writer)
}

// Whether a caller was told its port in a line, and nothing else.
fn is_told(alloc: Global, caller: &Caller<'_>) -> Result<bool, AllocError> {
    let line = format!(in alloc; "Listening on 127.0.0.1:{}\n", caller.port)?;
    Ok(caller.told.as_slice() == line.as_bytes())
}

// Whether a caller's report was answered.
fn is_answered(alloc: Global, caller: &Caller<'_>) -> bool {
    match &caller.client {
        Some(client) => gets(alloc, client, FIRST_BUG),
        None => false,
    }
}

#[test]
fn a_port_is_told_and_then_served_at_127_0_0_1_alone(rt: HostRuntime) -> Result<(), Fail> {
    let alloc = rt.alloc();
    let port = free_port(&rt)?;
    let mut caller = Caller {
        rt: &rt,
        port,
        told: Vec::new(alloc),
        client: None,
        is_refused: false,
    };
    assert!(rt; serve(&rt, port, &mut caller) == Ok(()));
    assert!(rt; is_told(alloc, &caller)?);
    assert!(rt; is_answered(alloc, &caller) && caller.is_refused);
    Ok(())
}

#[test]
fn a_taken_port_is_a_fault_before_anything_is_told(rt: HostRuntime) -> Result<(), Fail> {
    let door = listen(&rt)?;
    let mut told = Vec::new(rt.alloc());
    let ended = serve(&rt, door.port, &mut told);
    assert!(rt; ended == Err(ServerFault::Bind) && told.is_empty());
    Ok(())
}

#[test]
fn a_line_that_can_not_be_written_is_a_fault(rt: HostRuntime) -> Result<(), Fail> {
    let port = free_port(&rt)?;
    let mut room = [0; 20];
    let mut full = room.as_mut_slice();
    let ended = serve(&rt, port, &mut full);
    assert!(rt; ended == Err(ServerFault::Write));
    Ok(())
}
