//! What the desk in files shows, whatever has become of them.

use crate::schema::{Schema, schema_of};
use desk_run::Records;
use sqlite::{Alter, Connection};
use sqlite_pager::Options;
use std::alloc::Global;
use std::io;
use test_doubles::{
    ConnectionTask, DatabaseFiles, DeskTask, copy_of, on_made, open, over_bytes, over_files,
    run_into,
};

/// What the files of a desk show.
#[derive(Drop)]
pub struct ShownDesk {
    /// What the questions are answered.
    pub text: Vec<u8>,
    /// The schema before the desk is opened.
    pub found: Schema,
    /// The schema once it is closed.
    pub left: Schema,
}

// Looks at the schema, asks the desk the questions, and looks at the schema again.
#[derive(Clone, Copy)]
struct Asking<'a> {
    questions: &'a str,
}

impl DeskTask<ShownDesk> for Asking<'_> {
    fn run_on<R: Records>(&self, alloc: Global, desk: &mut R, look: &mut ShownDesk) {
        let _ = run_into(alloc, desk, self.questions, &mut look.text);
    }
}

impl ConnectionTask<ShownDesk> for Asking<'_> {
    fn run_over<S: Alter>(
        &self,
        alloc: Global,
        conn: Connection<S>,
        look: &mut ShownDesk,
    ) -> Connection<S> {
        let mut conn = conn;
        look.found = schema_of(&mut conn);
        let mut conn = on_made(alloc, open(alloc, conn), self, look);
        look.left = schema_of(&mut conn);
        conn
    }
}

impl ShownDesk {
    /// Nothing seen yet.
    pub fn new(alloc: Global) -> ShownDesk {
        ShownDesk {
            text: Vec::new(alloc),
            found: Schema::Other,
            left: Schema::Other,
        }
    }

    /// Looks at the desk in files with these bytes.
    pub fn look_at(
        &mut self,
        alloc: Global,
        log: &[u8],
        db: &[u8],
        options: Options,
        questions: &str,
    ) -> io::Result<()> {
        over_bytes(alloc, log, db, options, &Asking { questions }, self)
    }
}

/// Under which schema the desk in files is.
pub fn schema_in(alloc: Global, files: &DatabaseFiles) -> io::Result<Schema> {
    let files = copy_of(alloc, files, u64::MAX, u64::MAX)?;
    let mut look = ShownDesk::new(alloc);
    let asking = Asking { questions: "" };
    drop(over_files(alloc, files, Options::new(1), &asking, &mut look));
    Ok(look.found)
}
