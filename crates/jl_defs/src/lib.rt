//! The definitions of reading JSON-LD: what a document says, which faults it has, what is due.
//! The definitions stand in `specs/`; this crate has no calls.
#![tactic(auto)]
