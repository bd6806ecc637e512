//! What SQL statements make of rows, and why they are refused, over any schema: definitions.
//!
//! This crate has no code: its definitions say what one INSERT, DELETE, UPDATE, SELECT,
//! CREATE TABLE or CREATE INDEX makes of the rows, and its lemmas show it of each text that means
//! such a statement.
//! The crates of the desk's tables cite them, one for each of their statements.
#![tactic(auto)]
