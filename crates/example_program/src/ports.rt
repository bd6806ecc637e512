//! Ports that command lines name.

use std::alloc::{AllocError, Global};
use std::io;
use std::net::TcpListener;

/// The word of a command line that stands for a port which is taken.
pub(crate) const TAKEN: &str = "--port=TAKEN";

/// The word of a command line that stands for a port on which nobody listens.
pub(crate) const FREE: &str = "--port=FREE";

/// A port on which nobody listens.
pub(crate) fn free_port(rt: &HostRuntime) -> io::Result<u16> {
    let listener = TcpListener::bind(rt, "127.0.0.1:0")?;
    Ok(listener.local_addr()?.port())
}

/// The words of a command line after the program's name, with this option in the place of one that
/// stands for a port.
pub(crate) fn words_of<'a>(
    alloc: Global,
    call: &'a str,
    option: &'a str,
) -> Result<Vec<&'a str>, AllocError> {
    let mut words = Vec::new(alloc);
    for word in call.split('|').skip(1) {
        words.push(match word {
            TAKEN | FREE => option,
            _ => word,
        })?;
    }
    Ok(words)
}
