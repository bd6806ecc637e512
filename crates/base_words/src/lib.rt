//! The words of a line: numbers, bugs, names in any ASCII case, ids, and texts in their limits.
#![tactic(auto)]

mod any_case;
mod blanks;
mod ids;
mod laws;
mod named;
mod texts;
mod words;

pub use any_case::{Spelled, find_spelled, is_word};
pub use blanks::{has_control, is_blank, is_control};
pub use ids::is_id;
pub use laws::one_list_of_words;
pub use named::{AFTER_LARGEST, LARGEST_NUMBER, Named, bug_word, name_word, number_word};
pub use texts::is_text;
pub use words::{Separators, next_word, split_word, split_word_by, split_word_with_commas, trim};
