//! Images of sets of merged bugs: where a bug stands, which bugs differ, why one is refused.
//! The values and definitions are those of `bug_record`.
#![tactic(auto)]

mod changes;
mod equal;
mod images;
mod index;
mod kept;
mod laws;
mod lookup;
mod named;
mod parted;
mod refusals;
mod sorted;

pub use changes::{changed, changed_fields};
pub use equal::{equal_members, same_numbers, same_text};
pub use images::{find_image, member_numbers};
pub use index::Index;
pub use laws::{changed_numbers_differ, new_bugs_are_changed};
pub use lookup::{FEW, Lookup, first_bug_refused};
pub use named::{bug_named, other_bugs};
pub use refusals::{archived_refusal, first_refused, records_refusal};
pub use sorted::in_order;
