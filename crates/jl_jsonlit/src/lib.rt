//! Canonical JSON (RFC 8785): so far the text of a string.
#![tactic(auto)]

mod strings;
#[cfg(test)]
mod tests;

pub use strings::write_string;
