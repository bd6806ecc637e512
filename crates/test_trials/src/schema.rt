//! The schema of a database, as SQL tells it.

use sqlite::{Alter, Connection};

/// Under which schema the tables of a desk are.
#[derive(Clone, Copy, PartialEq, Eq, Drop)]
pub enum Schema {
    /// Schema 1, with no table of the packages that are affected.
    First,
    /// Schema 2, with that table, and with none of messages.
    Second,
    /// Schema 3, with those of messages.
    Third,
    Other,
}

/// The number that the first row has in its first column; nothing where there is none, or where the
/// question is refused.
pub fn number_asked<S: Alter>(conn: &mut Connection<S>, sql: &str) -> Option<u64> {
    match conn.query_row(sql, &[]) {
        Ok(row) => row.get::<u64>(0).ok(),
        Err(_) => None,
    }
}

/// Under which schema the tables are.
pub fn schema_of<S: Alter>(conn: &mut Connection<S>) -> Schema {
    let number = number_asked(conn, "SELECT schema FROM meta");
    let affected = number_asked(conn, "SELECT count(*) FROM affects");
    let messages = number_asked(conn, "SELECT count(*) FROM messages");
    let outcomes = number_asked(conn, "SELECT count(*) FROM outcomes");
    let numbers = number_asked(conn, "SELECT count(*) FROM outcome_numbers");
    match (number, affected, messages, outcomes, numbers) {
        (Some(1), None, None, None, None) => Schema::First,
        (Some(2), Some(_), None, None, None) => Schema::Second,
        (Some(3), Some(_), Some(_), Some(_), Some(_)) => Schema::Third,
        _ => Schema::Other,
    }
}
