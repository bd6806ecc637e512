//! How the tables of a desk are made, carried over from an earlier schema, and recognised.
#![tactic(auto)]

mod history;
mod making;
mod names;
mod number;

pub use history::NEWEST;
pub use making::{carry_over, make_tables};
pub use names::{is_blank, names_a_desk_table};
pub use number::{SchemaRead, read_schema};
