//! Where files are read from and where text is written to. Two traits say what every reader and every writer
//! promises: a failure comes only where a count of failures rose, and where a device tells its bytes, which bytes
//! were read and written. There are devices over the system's files and streams, which tell no bytes, and devices
//! in memory, which tell theirs.
//!
//! - `failed`: the one answer of a device that failed
//! - `file_fault`: what may be wrong with a file that is read for what it says
//! - `shelf`: files by name
//! - `sink`: a taker of bytes, and `write_all`
//! - `sure_shelf`, `sure_sink`: files and bytes in memory, where no call fails
//! - `mem_shelf`, `mem_sink`: the same with little at once, and with failures where they are asked for
//! - `dir_shelf`, `out_sink`: the system's files and streams
//! - `held_files`, `held_bytes`, `calls`, `retries`: what these stand on
#![tactic(auto)]

mod calls;
pub mod dir_shelf;
mod failed;
pub mod file_fault;
mod held_bytes;
mod held_files;
pub mod mem_shelf;
pub mod mem_sink;
pub mod out_sink;
mod retries;
pub mod shelf;
pub mod sink;
pub mod sure_shelf;
pub mod sure_sink;

pub use dir_shelf::DirShelf;
pub use failed::Failed;
pub use file_fault::{FileFault, FileStop, file_stop};
pub use mem_shelf::MemShelf;
pub use mem_sink::MemSink;
pub use out_sink::OutSink;
pub use shelf::Shelf;
pub use sink::{Sink, write_all};
pub use sure_shelf::SureShelf;
pub use sure_sink::SureSink;
