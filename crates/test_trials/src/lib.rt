//! What a desk may answer to a script, and be after its disk stopped or memory was short.
#![tactic(auto)]

mod example_text;
mod fronts;
mod held_memory;
mod judge;
mod schema;
mod script_run;
mod shown_desk;
mod trial;

pub use example_text::ExampleText;
pub use fronts::{Fronts, Reach};
pub use held_memory::HeldMemory;
pub use judge::{Judge, SchemasFound};
pub use schema::{Schema, number_asked};
pub use script_run::{ScriptRun, ScriptTask};
pub use shown_desk::{ShownDesk, schema_in};
pub use trial::{Trial, TrialScript};
