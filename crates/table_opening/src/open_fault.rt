//! Why no desk is created or opened.

use base_faults::StoreFault;
use thiserror::Error;

/// Why no desk is created in a database, or opened.
#[derive(Clone, Copy, Debug, PartialEq, Eq, Drop, Error)]
pub enum OpenFault {
    /// The database says no number of a desk's schema.
    #[error("the database is no desk")]
    NotADesk,
    /// The database says this number of a desk's schema, above 3: a later version made it.
    #[error("the database has the schema {0} of a later version")]
    NewerSchema(u64),
    /// The store failed.
    /// Where a desk is to be created, `Foreign` says that there are tables, but none with the name
    /// of a desk's; where one is to be opened, that the database says schema 1 or 2, and its
    /// tables are not those of a desk under it.
    #[error(transparent)]
    Store(StoreFault),
    /// A desk is to be created, and a table has the name of one of the desk's.
    #[error("the database holds a desk already")]
    NotEmpty,
}

impl From<StoreFault> for OpenFault {
    ghost use Rattle.std.specs.Prelude.{◌≡◌};
    ghost use Rattle.table_opening.specs.declared.open_fault.OpenFault.TheVariants.{Store};

    ghost from_gives = { λ fault e. e ≡ Store fault };

    fn from(fault: StoreFault) -> OpenFault {
        OpenFault::Store(fault)
    }
}
