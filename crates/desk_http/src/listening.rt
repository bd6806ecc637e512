//! What connections come from.

ghost use Rattle.std.specs.Prelude.{Option, None, option_map};
ghost use Rattle.desk_http.specs.Serving.{Clients, IsNext, HasEnded, client_of};

use crate::connection::Connection;
use std::io::{Read, Write};
use std::net::{TcpListener, TcpStream};

/// What connections come from, one after another.
pub trait Listens<R: Read, W: Write> {
    /// The clients, where it is known what they send and what they are sent.
    ghost clients: { Self → Option Clients };

    /// The connection of the client that has waited longest; `None` where none could be accepted.
    fn next_connection(&mut self) -> Option<Connection<R, W>>
        ensures { IsNext (clients self.old) (clients self.new) (option_map (client_of R.remaining W.contents) result) };

    /// Ends a connection.
    fn end_connection(&mut self, connection: Connection<R, W>)
        ensures { HasEnded (W.contents connection.writer) (clients self.old) (clients self.new) };
}

// A stream is read by one handle and written by another, so that each end is known by itself.
impl Listens<TcpStream, TcpStream> for TcpListener {
    ghost clients = { λ _. None };

    fn next_connection(&mut self) -> Option<Connection<TcpStream, TcpStream>> {
        let (writer, _) = self.accept().ok()?;
        let reader = writer.try_clone().ok()?;
        Some(Connection { reader, writer })
    }

    fn end_connection(&mut self, connection: Connection<TcpStream, TcpStream>)
        ensures { HasEnded None None None }
    {
        drop(connection);
    }
}
