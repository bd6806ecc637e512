//! The input and the outputs of a command line that is run, good ones and failing ones.

use std::alloc::Global;
use std::io::{self, ErrorKind, Read, Write};
use std::net::{Ipv4Addr, Shutdown, TcpStream};

/// Gives its bytes, or fails at each read.
#[derive(Drop)]
pub(crate) struct GivenInput<'a> {
    pub left: &'a [u8],
    pub fails: bool,
}

impl Read for GivenInput<'_> {
    fn read(&mut self, buf: &mut [u8]) -> io::Result<usize> {
        if self.fails {
            return Err(io::Error::from(ErrorKind::Other));
        }
        let len = self.left.len().min(buf.len());
        buf[..len].copy_from_slice(&self.left[..len]);
        self.left = &self.left[len..];
        Ok(len)
    }
}

/// Keeps what is written, and has room for so many more bytes.
#[derive(Drop)]
pub(crate) struct KeptOutput {
    pub bytes: Vec<u8>,
    room: usize,
}

impl KeptOutput {
    pub fn new(alloc: Global, room: usize) -> KeptOutput {
        KeptOutput {
            bytes: Vec::new(alloc),
            room,
        }
    }
}

impl Write for KeptOutput {
    fn write(&mut self, buf: &[u8]) -> io::Result<usize> {
        let len = buf.len().min(self.room);
        self.bytes.extend_from_slice(&buf[..len])?;
        self.room -= len;
        Ok(len)
    }

    fn flush(&mut self) -> io::Result<()> {
        Ok(())
    }
}

/// Sends a request to a port where it is flushed, as a server does once it listens; what is written
/// to it is left out.
#[derive(Drop)]
pub(crate) struct Caller<'a, 'b> {
    rt: &'a HostRuntime,
    port: u16,
    request: &'b [u8],
    // Stays open until the server has ended.
    client: Option<TcpStream>,
}

impl<'a, 'b> Caller<'a, 'b> {
    pub fn new(rt: &'a HostRuntime, port: u16, request: &'b [u8]) -> Caller<'a, 'b> {
        Caller {
            rt,
            port,
            request,
            client: None,
        }
    }
}

impl Write for Caller<'_, '_> {
    fn write(&mut self, buf: &[u8]) -> io::Result<usize> {
        Ok(buf.len())
    }

    fn flush(&mut self) -> io::Result<()> {
        let mut client = TcpStream::connect(self.rt, (Ipv4Addr::LOCALHOST, self.port))?;
        client.write_all(self.request)?;
        client.shutdown(Shutdown::Write)?;
        self.client = Some(client);
        Ok(())
    }
}
