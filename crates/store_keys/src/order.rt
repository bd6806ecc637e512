//! The order of lists.

ghost use Rattle.std.specs.Prelude.{◌≡◌, ◌++◌, [], ◌∷◌, filter, flat_map, IfOk, OnOk};
ghost use Rattle.bug_record.specs.Severities.{all_severities};
ghost use Rattle.bug_record.specs.declared.severity.Severity.{Severity as SeenSeverity};
ghost use Rattle.store_keys.specs.Listing.{is_row_of, rows_under};

use bug_record::{ListRow, Sequence, Severity};
use std::alloc::{AllocError, Global};

// Rows, kept by their severities.
#[derive(Drop)]
struct RowsBySeverity {
    critical: Vec<ListRow>,
    grave: Vec<ListRow>,
    serious: Vec<ListRow>,
    important: Vec<ListRow>,
    normal: Vec<ListRow>,
    minor: Vec<ListRow>,
    wishlist: Vec<ListRow>,
}

impl RowsBySeverity {
    // No rows.
    fn new(alloc: Global) -> RowsBySeverity
        ensures { (severity : SeenSeverity) → rows_under result severity ≡ [] }
    {
        RowsBySeverity {
            critical: Vec::new(alloc),
            grave: Vec::new(alloc),
            serious: Vec::new(alloc),
            important: Vec::new(alloc),
            normal: Vec::new(alloc),
            minor: Vec::new(alloc),
            wishlist: Vec::new(alloc),
        }
    }

    // Puts a row at the end of those of its severity.
    fn add(&mut self, row: ListRow) -> Result<(), AllocError>
        ensures { OnOk result ((severity : SeenSeverity)
            → rows_under self.new severity ≡ rows_under self.old severity ++ filter (is_row_of severity) (row ∷ [])) }
    {
        match row.severity {
            Severity::Critical => self.critical.push(row)?,
            Severity::Grave => self.grave.push(row)?,
            Severity::Serious => self.serious.push(row)?,
            Severity::Important => self.important.push(row)?,
            Severity::Normal => self.normal.push(row)?,
            Severity::Minor => self.minor.push(row)?,
            Severity::Wishlist => self.wishlist.push(row)?,
        }
        Ok(())
    }

    // The rows, from critical to wishlist.
    fn joined(self) -> Result<Vec<ListRow>, AllocError>
        ensures { IfOk result (λ rows. rows.items ≡ flat_map (rows_under self) all_severities) }
    {
        let RowsBySeverity {
            critical: mut rows,
            mut grave,
            mut serious,
            mut important,
            mut normal,
            mut minor,
            mut wishlist,
        } = self;
        rows.append(&mut grave)?;
        rows.append(&mut serious)?;
        rows.append(&mut important)?;
        rows.append(&mut normal)?;
        rows.append(&mut minor)?;
        rows.append(&mut wishlist)?;
        Ok(rows)
    }
}

/// The rows by severity, from critical to wishlist, and of each severity in their order.
/// The only error is that there is no memory for the rows.
/// The rows are moved, not copied.
/// This project's own rule.
pub fn by_severity(alloc: Global, rows: Vec<ListRow>) -> Result<Sequence<ListRow>, AllocError>
    ensures { IfOk result (λ sorted. sorted ≡ flat_map (λ severity. filter (is_row_of severity) rows.items) all_severities) }
{
    let mut kept = RowsBySeverity::new(alloc);
    for row in rows {
        kept.add(row)?;
    }
    let sorted = kept.joined()?;
    Ok(Sequence::from_vec(sorted))
}
