//! The history of a desk's schema, step by step.

/// The texts of each step, which make tables and indexes, in the order in which they are run.
/// The schema after the first step has the number 1.
pub(crate) const STEPS: [&[&str]; 3] = [
    &[
        "CREATE TABLE meta (id INTEGER PRIMARY KEY, schema INTEGER NOT NULL, next INTEGER NOT NULL) STRICT",
        "CREATE TABLE sets (set_key INTEGER PRIMARY KEY, package TEXT NOT NULL, severity INTEGER NOT NULL, closed INTEGER NOT NULL, forwarded TEXT, owner TEXT, tags INTEGER NOT NULL, archived INTEGER NOT NULL) STRICT",
        "CREATE TABLE bugs (number INTEGER PRIMARY KEY, set_key INTEGER NOT NULL, title TEXT NOT NULL, submitter TEXT NOT NULL) STRICT",
        "CREATE TABLE marks (set_key INTEGER NOT NULL, kind INTEGER NOT NULL, source TEXT NOT NULL, version TEXT NOT NULL, PRIMARY KEY (set_key, kind, source, version)) STRICT",
        "CREATE TABLE blocks (set_key INTEGER NOT NULL, blocker INTEGER NOT NULL, PRIMARY KEY (set_key, blocker)) STRICT",
        "CREATE TABLE nodes (source TEXT NOT NULL, version TEXT NOT NULL, parent_source TEXT, parent_version TEXT, PRIMARY KEY (source, version)) STRICT",
        "CREATE TABLE nearest (set_key INTEGER NOT NULL, source TEXT NOT NULL, version TEXT NOT NULL, mark_source TEXT NOT NULL, mark_version TEXT NOT NULL, kind INTEGER NOT NULL, PRIMARY KEY (set_key, source, version)) STRICT",
        "CREATE INDEX sets_by_package ON sets (package, archived)",
        "CREATE INDEX bugs_by_set ON bugs (set_key)",
        "CREATE INDEX marks_by_node ON marks (source, version)",
        "CREATE INDEX blocks_by_blocker ON blocks (blocker)",
    ],
    &[
        "CREATE TABLE affects (set_key INTEGER NOT NULL, package TEXT NOT NULL, PRIMARY KEY (set_key, package)) STRICT",
        "CREATE INDEX affects_by_package ON affects (package)",
    ],
    &[
        "CREATE TABLE messages (id TEXT NOT NULL PRIMARY KEY, sender TEXT NOT NULL, message BLOB NOT NULL) STRICT",
        "CREATE TABLE outcomes (id TEXT NOT NULL, place INTEGER NOT NULL, kind INTEGER NOT NULL, number INTEGER, field INTEGER, source TEXT, version TEXT, PRIMARY KEY (id, place)) STRICT",
        "CREATE TABLE outcome_numbers (id TEXT NOT NULL, place INTEGER NOT NULL, number INTEGER NOT NULL, PRIMARY KEY (id, place, number)) STRICT",
    ],
];

/// The number of the newest schema, which all calls but `open` know alone.
pub const NEWEST: u64 = STEPS.len() as u64;
