//! Desks, disks, readers and writers for tests: they stop, fail, give and take in pieces.
//! And random scripts, and bytes out of a text with signs.
#![tactic(auto)]

mod endless;
mod exchanges;
mod failing;
mod limits;
mod made_desks;
mod memory_files;
mod random_scripts;
mod remains;
mod room;
mod script_answers;
mod stopping_files;
mod tasks;
mod text_with_signs;

pub use endless::{RepeatingReader, RoundReader};
pub use exchanges::serve_into;
pub use failing::{FailingReader, FailingWriter, WriterFailure};
pub use limits::limited;
pub use made_desks::{MadeDesk, create, new_desk, open};
pub use memory_files::{
    DatabaseFiles, MemoryFile, connected, copy_of, files_in, files_with, new_files, with_room,
};
pub use random_scripts::ScriptMaker;
pub use remains::{DatabaseRemains, remains_of};
pub use room::Room;
pub use script_answers::{answer_to, run_into};
pub use stopping_files::{StopSetting, goes_on, setting_of, stopping};
pub use tasks::{
    ConnectionTask, DeskTask, in_memory, in_memory_failing, in_tables_failing, on_made, over_bytes,
    over_files,
};
pub use text_with_signs::add_text;
