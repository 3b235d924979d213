//! The commands of `gkey`, whole but for the system's files and streams: what the words ask for, the files in the order in which
//! they are read, the chase or the checker, and the one text that is written at the end. `run` is all that the program does; its
//! contract relates the words and the files to status, output and error text, and gives each answer its cause.
//!
//! - `words`: the commands and the words that ask for them
//! - `limits`: how large inputs may be, by the words
//! - `file`: the files that a command reads
//! - `reading`: how they are read, up to the first that fails or is refused
//! - `chased`: the chase of a command's files
//! - `match_command`, `prove_command`, `check_command`, `convert_command`, `demo_command`, `merge_command`, `why_command`,
//!   `grow_command`: each command, from the reading of its files to its text
//! - `entities`: which entity of the graph a word names
//! - `ending`: how a run ends, and what it leaves
//! - `texts`: each status with its meaning and the text for the error stream, and the texts of help and version
//! - `top`: `run`
//! - `laws`: what holds of every answer
#![tactic(auto)]

mod chased;
mod check_command;
mod convert_command;
mod demo_command;
mod ending;
mod entities;
mod file;
mod grow_command;
mod laws;
mod limits;
mod match_command;
mod merge_command;
mod prove_command;
mod reading;
mod texts;
mod top;
mod why_command;
mod words;

pub use laws::law_one_output;
pub use limits::ProgramLimits;
pub use texts::{NO_MEMORY, NO_WORDS};
pub use top::{run, run_gated};
pub use words::{CheckFiles, Command, GraphAndKeys, GrowFiles, WhyWords, read_words};
