//! An exchange over a connection, both of whose ends are in this thread.

use crate::clients::{ask, gets, listen};
use crate::exchanges::EXCHANGES;
use desk_http::{Served, serve_one};
use memory_desk::PlainDesk;
use std::alloc::Global;
use std::io;
use std::net::TcpListener;
use std::test::Fail;

// Whether a new desk answers the next client of a listener.
fn answers_next(alloc: Global, listener: &TcpListener) -> io::Result<bool> {
    let (stream, _) = listener.accept()?;
    let mut desk = PlainDesk::new(alloc, 1);
    let told = serve_one(alloc, &mut desk, &mut &stream, &mut &stream);
    Ok(matches!(told, Ok(Served::Answered(_))))
}

#[test]
fn a_report_is_answered_over_loopback(rt: HostRuntime) -> Result<(), Fail> {
    let alloc = rt.alloc();
    let (request, answer) = EXCHANGES[0];
    let door = listen(&rt)?;
    let client = ask(&rt, door.port, request.as_bytes())?;
    assert!(rt; answers_next(alloc, &door.listener)?);
    assert!(rt; gets(alloc, &client, answer));
    Ok(())
}
