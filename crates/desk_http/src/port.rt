//! A port of this machine.

ghost use Rattle.std.specs.Prelude.{◌≡◌, None, Err, OnOk, OnErr};
ghost use Rattle.std.specs.Io.KnownBytes.{Appends};
ghost use Rattle.http_answers.specs.Stored.{stored};
ghost use Rattle.desk_http.specs.Port.{Serves, place_line};
ghost use Rattle.desk_http.specs.Serving.{IsServing};

use crate::accepting::serve_connections;
use http_requests::write_three;
use itoa::Buffer;
use std::alloc::Global;
use std::io::Write;
use std::net::{Ipv4Addr, Net, TcpListener, TcpStream};
use std::time::Clock;
use store_contract::Records;
use thiserror::Error;

/// Why a server ended before its time.
#[derive(Clone, Copy, Debug, Drop, PartialEq, Eq, Error)]
pub enum ServerFault {
    /// The port could not be listened on.
    #[error("the port can't be listened on")]
    Bind,
    /// The line that tells the port could not be written.
    #[error("the port could not be told")]
    Write,
    /// The store failed.
    #[error("the store failed while it was served")]
    Store,
}

// Writes where the server listens.
fn write_place<W: Write>(writer: &mut W, port: u16) -> Result<(), ServerFault>
    ensures all { OnOk result (Appends (W.contents writer.old) (W.contents writer.new) (place_line port)) }
    ensures write { OnErr result (result ≡ Err ServerFault.Write) }
{
    let mut number = Buffer::new();
    let number = number.format(port);
    let number = number.as_bytes();
    write_three(writer, b"Listening on 127.0.0.1:", number, b"\n").map_err(|_| ServerFault::Write)?;
    writer.flush().map_err(|_| ServerFault::Write)
}

/// Listens on a port of 127.0.0.1, tells so, and serves so many connections, one after another.
///
/// It writes `Listening on 127.0.0.1:N` and a line feed, N being the port, and then serves as
/// `serve_connections` does, with its limits.
/// This is this project's own rule.
///
/// # Errors
///
/// `Bind` where the port can't be listened on, as where it is taken: nothing is written.
/// `Write` where the line can't be written: no connection is served.
/// `Store` where the store failed, right after that exchange.
pub fn serve_port<N, S: Records, W: Write>(
    rt: &N,
    alloc: Global,
    store: &mut S,
    port: u16,
    count: u64,
    writer: &mut W,
) -> Result<(), ServerFault>
where
    N: Net<Listener = TcpListener, Stream = TcpStream> + Clock,
    ensures serves { Serves result (IsServing S.is_kept S.is_honest S.leaves (stored S.desk S.keeping) S.faults count store.old store.new None None result) }
    ensures told { Serves result (Appends (W.contents writer.old) (W.contents writer.new) (place_line port)) }
    ensures bind { result ≡ Err ServerFault.Bind → (store.new ≡ store.old) × (writer.new ≡ writer.old) }
    ensures write { result ≡ Err ServerFault.Write → store.new ≡ store.old }
{
    let Ok(mut listener) = TcpListener::bind(rt, (Ipv4Addr::LOCALHOST, port)) else {
        return Err(ServerFault::Bind);
    };
    write_place(writer, port)?;
    serve_connections(rt, alloc, store, &mut listener, count)
}
