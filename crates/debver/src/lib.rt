//! Version texts and their order, names of packages, and texts that are kept.
#![tactic(auto)]

mod fault;
mod laws;
mod name;
mod parts;
mod precedence;
mod strings;
mod text;

pub use fault::VersionFault;
pub use laws::{keys_are_endless, keys_go_by_parts, one_reading, order_laws, total_laws};
pub use name::{NameFault, check_name};
pub use parts::{Parts, check, cut};
pub use precedence::{order, total};
pub use text::Text;
