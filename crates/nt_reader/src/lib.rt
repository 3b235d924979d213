//! Reads files of N-Triples (RDF 1.1 N-Triples) that come in pieces. A line says nothing, a triple or a fault;
//! a file says the triples of its lines in order, or why it is refused and at which line. However the file is
//! cut into pieces, the answer is that of the whole file. What a line and a file say is in `specs/`.
//!
//! - `line`, `lexed_triple`: one line
//! - `reader`: a file in pieces
//! - `state`: what is kept between pieces
//! - `scan`: where a line ends
//! - `laws`: what holds of lines and files for every text
#![tactic(auto)]

mod laws;
mod lexed_triple;
mod line;
mod reader;
mod scan;
mod state;

pub use laws::{
    law_each_file_answers, law_each_line_answers, law_lines_of_the_grammar, law_one_file_answer,
    law_one_line_answer, law_one_list_of_lines,
};
pub use line::read_line;
pub use reader::Reader;
