//! The top call: from the port's bytes to the lines of its quads.
#![tactic(auto)]

mod block_outs;
mod blocks;
mod conversion_pieces;
mod conversion_runs;
mod conversions;
mod pieces;
mod reports;
mod runs;
mod stops;
#[cfg(test)]
mod strict_tests;
#[cfg(test)]
mod tests;
mod top;
mod words;
#[cfg(test)]
mod write_tests;

pub use reports::Report;
pub use top::run;
pub use words::law_words;
