//! The names of a desk's tables among those of a schema.

ghost use Rattle.std.specs.Prelude.{◌≡◌, ◌↔◌, IsTrue};
ghost use Rattle.std.specs.List.{list_any};
ghost use Rattle.sqlite_schema.specs.Names.{same_name as same};
ghost use Rattle.table_history.specs.Names.{no_tables, desk_names, has_desk_table};

use sqlite_schema::names::same_name;
use sqlite_schema::schema::Schema;

// Whether a name is that of one of the desk's tables.
fn is_desk_name(name: &[u8]) -> bool
    ensures is { result ≡ list_any (same name.now) desk_names }
{
    same_name(name, b"meta")
        || same_name(name, b"sets")
        || same_name(name, b"bugs")
        || same_name(name, b"marks")
        || same_name(name, b"blocks")
        || same_name(name, b"nodes")
        || same_name(name, b"nearest")
        || same_name(name, b"affects")
        || same_name(name, b"messages")
        || same_name(name, b"outcomes")
        || same_name(name, b"outcome_numbers")
}

/// Whether a table of the schema has the name of one of the desk's eleven tables, where the case of
/// ASCII letters is ignored, as it is in SQL.
pub fn names_a_desk_table(schema: &Schema) -> bool
    ensures names { result ≡ has_desk_table schema.now }
{
    schema
        .tables
        .as_slice()
        .iter()
        .any(|table| is_desk_name(table.name.as_slice()))
}

/// Whether the schema has no table, no index and no view.
pub fn is_blank(schema: &Schema) -> bool
    ensures blank { IsTrue result ↔ (schema.now ≡ no_tables) }
{
    schema.tables.as_slice().is_empty()
        && schema.indexes.as_slice().is_empty()
        && schema.views.as_slice().is_empty()
}
