//! Clients of a server.

use std::alloc::Global;
use std::io::{self, Write};
use std::net::{Ipv4Addr, Shutdown, TcpListener, TcpStream};
use std::time::Duration;

/// How long a client waits for the server, in seconds.
const PATIENCE: u64 = 20;

/// A listener, and its port.
#[derive(Drop)]
pub(crate) struct Door {
    pub listener: TcpListener,
    pub port: u16,
}

/// Listens at a free port.
pub(crate) fn listen(rt: &HostRuntime) -> io::Result<Door> {
    let listener = TcpListener::bind(rt, "127.0.0.1:0")?;
    let port = listener.local_addr()?.port();
    Ok(Door { listener, port })
}

/// A client that is connected.
pub(crate) fn connect(rt: &HostRuntime, port: u16) -> io::Result<TcpStream> {
    let client = TcpStream::connect(rt, (Ipv4Addr::LOCALHOST, port))?;
    client.set_read_timeout(Some(Duration::from_secs(PATIENCE)))?;
    client.set_write_timeout(Some(Duration::from_secs(PATIENCE)))?;
    Ok(client)
}

/// A client that has sent these bytes, and sends no more.
pub(crate) fn ask(rt: &HostRuntime, port: u16, request: &[u8]) -> io::Result<TcpStream> {
    let mut client = connect(rt, port)?;
    client.write_all(request)?;
    client.shutdown(Shutdown::Write)?;
    Ok(client)
}

/// Whether a client is sent exactly this.
pub(crate) fn gets(alloc: Global, client: &TcpStream, answer: &str) -> bool {
    match io::read_to_string(alloc, client) {
        Ok(text) => text.as_str() == answer,
        Err(_) => false,
    }
}
