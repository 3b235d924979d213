//! The classes of a chase: a label for each node, the members of each class, and the journal of identifications that
//! made them. Two nodes have the same label exactly where the journal joins them. An identification relabels the
//! smaller of two classes, so that over all of them a node is relabelled a logarithm of times, and takes no memory.
//!
//! - `book`: the book of classes
//! - `fresh`: the parts of a book in which each node is alone
//! - `choice`: which of two labels stays
//! - `merge`: two classes made one
#![tactic(auto)]

mod book;
mod choice;
mod fresh;
mod merge;

pub use book::Book;
