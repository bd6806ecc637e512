//! What files hold once their use has ended at some call, and what the desks in them show.

use crate::fronts::{Fronts, Reach};
use crate::schema::Schema;
use crate::shown_desk::ShownDesk;
use sqlite_pager::Options;
use std::alloc::Global;
use std::io;
use test_doubles::DatabaseRemains;

/// The schemas under which desks were found.
#[derive(Clone, Copy)]
pub struct SchemasFound {
    pub first: bool,
    pub second: bool,
    pub third: bool,
}

/// What the desks in files are compared with, and what was found of them.
#[derive(Clone, Copy)]
pub struct Judge<'a> {
    pub fronts: &'a Fronts,
    pub options: Options,
    pub found: SchemasFound,
}

impl<'a> Judge<'a> {
    /// A judge that has found nothing yet.
    pub fn new(fronts: &'a Fronts, options: Options) -> Judge<'a> {
        Judge {
            fronts,
            options,
            found: SchemasFound {
                first: false,
                second: false,
                third: false,
            },
        }
    }

    // Notes the schema under which a desk was found; whether it is one of a desk's.
    fn note(&mut self, found: Schema) -> bool {
        match found {
            Schema::First => self.found.first = true,
            Schema::Second => self.found.second = true,
            Schema::Third => self.found.third = true,
            Schema::Other => {}
        }
        found != Schema::Other
    }

    // Whether a look saw a desk in this reach, under one of the schemas, and under schema 3 once it
    // was opened.
    fn is_well(&mut self, look: &ShownDesk, reach: Reach) -> bool {
        let is_found = self.note(look.found);
        is_found && look.left == Schema::Third && self.fronts.shows(reach, &look.text)
    }

    // Looks at the files with these bytes.
    fn look(&self, alloc: Global, log: &[u8], db: &[u8], look: &mut ShownDesk) -> io::Result<()> {
        let questions = self.fronts.all_questions(alloc)?;
        look.look_at(alloc, log, db, self.options, questions.as_str())
    }

    /// Whether the files with these bytes have a desk in this reach, under one of the schemas, and
    /// under schema 3 once it was opened.
    pub fn is_shown(
        &mut self,
        alloc: Global,
        log: &[u8],
        db: &[u8],
        reach: Reach,
    ) -> io::Result<bool> {
        let mut look = ShownDesk::new(alloc);
        self.look(alloc, log, db, &mut look)?;
        Ok(self.is_well(&look, reach))
    }

    /// Whether there is such a desk, whichever of the files loses what was not synced.
    /// Files are looked at once, where one of them loses nothing.
    pub fn is_always_shown(
        &mut self,
        alloc: Global,
        left: &DatabaseRemains,
        reach: Reach,
    ) -> io::Result<bool> {
        let DatabaseRemains { log, db } = left;
        let log_loses = log.written != log.synced;
        let db_loses = db.written != db.synced;
        let mut is_shown = self.is_shown(alloc, &log.written, &db.written, reach)?;
        if log_loses {
            is_shown = self.is_shown(alloc, &log.synced, &db.written, reach)? && is_shown;
        }
        if db_loses {
            is_shown = self.is_shown(alloc, &log.written, &db.synced, reach)? && is_shown;
        }
        if log_loses && db_loses {
            is_shown = self.is_shown(alloc, &log.synced, &db.synced, reach)? && is_shown;
        }
        Ok(is_shown)
    }
}
