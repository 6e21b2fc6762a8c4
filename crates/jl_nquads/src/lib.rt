//! Lines of N-Quads: the line of a quad, and an out of quads that puts their lines.
#![tactic(auto)]

mod blanks;
mod code_points;
mod comments;
mod escaped;
mod escapes;
mod framed;
mod framed_tokens;
mod halts;
mod iri_fronts;
mod labels;
mod laws;
mod line_outs;
mod line_stops;
mod lines;
mod names;
mod nexts;
mod objects;
mod read_lines;
#[cfg(test)]
mod reader_rows;
#[cfg(test)]
mod reader_tests;
mod readers;
mod rests;
mod tags;
#[cfg(test)]
mod tests;
mod unframed;

pub use laws::law_lines;
pub use line_outs::LineOut;
pub use line_stops::LineStop;
pub use lines::write_line;
pub use readers::{LineReader, LineStep};
