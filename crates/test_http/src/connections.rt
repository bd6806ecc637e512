//! Connections, one after another.

use crate::clients::{ask, connect, gets, listen};
use crate::exchanges::{BAD_REQUEST, FIRST_BUG, REPORT, STORE_FAULT};
use crate::visitors::Visitors;
use base_faults::StoreFault;
use desk_http::{ServerFault, serve_connections};
use memory_desk::PlainDesk;
use std::io::{self, Write};
use std::net::{TcpListener, TcpStream};
use std::test::Fail;
use store_failing::FailAt;

const SECOND_BUG: &str = "HTTP/1.1 201 Created\r\nConnection: close\r\nContent-Length: 9\r\n\
    Content-Type: application/json\r\n\r\n{\"bug\":2}";

const TOO_LARGE: &str = "HTTP/1.1 413 Payload Too Large\r\nConnection: close\r\n\
    Content-Length: 21\r\nContent-Type: application/json\r\n\r\n{\"error\":\"too large\"}";

// Whether a new desk serves so many connections without a fault.
fn serves(rt: &HostRuntime, listener: &mut TcpListener, count: u64) -> bool {
    let alloc = rt.alloc();
    let mut desk = PlainDesk::new(alloc, 1);
    serve_connections(rt, alloc, &mut desk, listener, count) == Ok(())
}

#[test]
fn connections_are_served_in_their_order(rt: HostRuntime) -> Result<(), Fail> {
    let mut door = listen(&rt)?;
    let first = ask(&rt, door.port, REPORT.as_bytes())?;
    let second = ask(&rt, door.port, REPORT.as_bytes())?;
    assert!(rt; serves(&rt, &mut door.listener, 2));
    assert!(rt; gets(rt.alloc(), &first, FIRST_BUG));
    assert!(rt; gets(rt.alloc(), &second, SECOND_BUG));
    Ok(())
}

// Two clients that go away, one before its request and one within it.
fn go_away(rt: &HostRuntime, port: u16) -> io::Result<()> {
    drop(connect(rt, port)?);
    let cut = "POST /bugs HTTP/1.1\r\nContent-Length: 62\r\n\r\n{";
    drop(ask(rt, port, cut.as_bytes())?);
    Ok(())
}

#[test]
fn a_client_that_goes_away_ends_its_own_exchange_alone(rt: HostRuntime) -> Result<(), Fail> {
    let mut door = listen(&rt)?;
    go_away(&rt, door.port)?;
    let client = ask(&rt, door.port, REPORT.as_bytes())?;
    assert!(rt; serves(&rt, &mut door.listener, 3));
    assert!(rt; gets(rt.alloc(), &client, FIRST_BUG));
    Ok(())
}

#[test]
fn a_client_that_says_nothing_is_left_after_a_while(rt: HostRuntime) -> Result<(), Fail> {
    let mut door = listen(&rt)?;
    let silent = connect(&rt, door.port)?;
    let client = ask(&rt, door.port, REPORT.as_bytes())?;
    assert!(rt; serves(&rt, &mut door.listener, 2));
    assert!(rt; gets(rt.alloc(), &client, FIRST_BUG));
    assert!(rt; gets(rt.alloc(), &silent, ""));
    Ok(())
}

// A client that has sent a request whose body is too large.
fn ask_too_much(rt: &HostRuntime, port: u16) -> io::Result<TcpStream> {
    let mut client = connect(rt, port)?;
    client.write_all(b"POST /bugs HTTP/1.1\r\nContent-Length: 65537\r\n\r\n")?;
    client.write_all(&[b'x'; 65_537])?;
    Ok(client)
}

#[test]
fn what_is_left_unread_is_drained_so_that_no_answer_is_lost(rt: HostRuntime) -> Result<(), Fail> {
    let mut door = listen(&rt)?;
    let client = ask_too_much(&rt, door.port)?;
    assert!(rt; serves(&rt, &mut door.listener, 1));
    // A connection that is closed with bytes unread is reset.
    assert!(rt; client.take_error()?.is_none());
    assert!(rt; gets(rt.alloc(), &client, TOO_LARGE));
    Ok(())
}

// Whether a server whose store fails at its first change ends as that fault, and one after it
// serves the next connection.
fn fails_and_goes_on(rt: &HostRuntime, listener: &mut TcpListener) -> bool {
    let alloc = rt.alloc();
    let mut store = FailAt::new(PlainDesk::new(alloc, 1), 1, StoreFault::Device);
    serve_connections(rt, alloc, &mut store, listener, 2) == Err(ServerFault::Store)
        && serve_connections(rt, alloc, &mut store, listener, 1) == Ok(())
}

#[test]
fn a_store_that_fails_ends_the_server_after_that_exchange(rt: HostRuntime) -> Result<(), Fail> {
    let mut door = listen(&rt)?;
    let first = ask(&rt, door.port, REPORT.as_bytes())?;
    // this one is left in the queue at first
    let second = ask(&rt, door.port, REPORT.as_bytes())?;
    assert!(rt; fails_and_goes_on(&rt, &mut door.listener));
    assert!(rt; gets(rt.alloc(), &first, STORE_FAULT));
    assert!(rt; gets(rt.alloc(), &second, FIRST_BUG));
    Ok(())
}

// What a server of so many connections of these clients comes to, whose store fails at the change
// of this number.
fn serve_visitors(
    rt: &HostRuntime,
    visitors: &mut Visitors<'_>,
    count: u64,
    fails: u64,
) -> Result<(), ServerFault> {
    let alloc = rt.alloc();
    let mut store = FailAt::new(PlainDesk::new(alloc, 1), fails, StoreFault::Device);
    serve_connections(rt, alloc, &mut store, visitors, count)
}

#[test]
fn each_client_is_sent_its_answer_once(rt: HostRuntime) -> Result<(), Fail> {
    let cut = REPORT.as_bytes().get(..50).unwrap_or(&[]);
    let requests = [REPORT.as_bytes(), b"", cut, REPORT.as_bytes(), b"GET /"];
    let mut visitors = Visitors::new(rt.alloc(), &requests);
    assert!(rt; serve_visitors(&rt, &mut visitors, 4, 9) == Ok(()));
    assert!(rt; visitors.got(1, &[FIRST_BUG, "", BAD_REQUEST, SECOND_BUG]));
    // Of three more connections one can be accepted.
    assert!(rt; serve_visitors(&rt, &mut visitors, 3, 9) == Ok(()));
    assert!(rt; visitors.got(0, &[FIRST_BUG, "", BAD_REQUEST, SECOND_BUG, BAD_REQUEST]));
    Ok(())
}

#[test]
fn a_client_is_sent_the_fault_that_ends_the_server(rt: HostRuntime) -> Result<(), Fail> {
    let requests = [REPORT.as_bytes(), REPORT.as_bytes(), REPORT.as_bytes()];
    let mut visitors = Visitors::new(rt.alloc(), &requests);
    assert!(rt; serve_visitors(&rt, &mut visitors, 3, 2) == Err(ServerFault::Store));
    assert!(rt; visitors.got(1, &[FIRST_BUG, STORE_FAULT]));
    Ok(())
}
