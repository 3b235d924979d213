//! The graph and the keys that `demo N` runs on, whose N pairs of entities are found one by one, each once the one before it
//! is known. Beside them stand the counts of classes that the command prints, its line, and the number that a word spells.
//! Nothing here reads a file or runs a chase.
//!
//! - `texts`: the graph and the keys
//! - `class_counts`: how many classes labels make, and how many members these have
//! - `counts_line`: the line with all counts
//! - `decimal_word`: the number that a word spells
#![tactic(auto)]

mod class_counts;
mod counts_line;
mod decimal_word;
mod texts;

pub use class_counts::{ClassCounts, count_classes};
pub use counts_line::demo_line;
pub use decimal_word::number_of;
pub use texts::demo_texts;
