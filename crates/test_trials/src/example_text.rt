//! What is told of examples, up to the end of memory.

use std::alloc::{AllocError, Global};
use std::io;

/// What is told, and whether there was memory for all of it.
#[derive(Drop)]
pub struct ExampleText {
    pub text: Vec<u8>,
    is_whole: bool,
}

impl ExampleText {
    /// Nothing told yet.
    pub fn new(alloc: Global) -> ExampleText {
        ExampleText {
            text: Vec::new(alloc),
            is_whole: true,
        }
    }

    /// Notes whether there was memory for something.
    pub fn note(&mut self, told: Result<(), AllocError>) {
        if told.is_err() {
            self.is_whole = false;
        }
    }

    /// Tells a text.
    pub fn add(&mut self, text: &str) {
        let told = self.text.extend_from_slice(text.as_bytes());
        self.note(told);
    }

    /// Tells a text that is made where there is memory.
    pub fn add_made(&mut self, text: Result<String, AllocError>) {
        match text {
            Ok(text) => self.add(text.as_str()),
            Err(_) => self.is_whole = false,
        }
    }

    /// Whether there was memory for all.
    pub fn whole(&self) -> Result<(), AllocError> {
        if self.is_whole {
            Ok(())
        } else {
            Err(AllocError)
        }
    }

    /// Prints what was told, which is to be UTF-8.
    pub fn print(&self, rt: &HostRuntime) -> io::Result<()> {
        match std::str::from_utf8(&self.text) {
            Ok(text) => print!(rt; "{text}")?,
            Err(_) => println!(rt; "-- no UTF-8")?,
        }
        self.whole()?;
        Ok(())
    }
}
