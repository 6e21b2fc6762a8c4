//! The processor: from the bytes of a JSON-LD document to its quads, while they arrive.
#![tactic(auto)]

mod engines;
mod events;
mod expansions;
mod feeds;
mod laws;
mod leadings;
mod leads;
mod lents;
mod marks;
mod moves;
mod names;
mod outs;
mod promptness;
mod quads;
mod readers;
mod replays;
mod stops;
mod tellings;
#[cfg(test)]
mod tests;

pub use engines::{Engine, EngineState};
pub use events::{Event, Events, Run};
pub use laws::law_sure;
pub use leadings::Leading;
pub use leads::{Admit, Lead, LeadPart, LeadSpot};
pub use lents::{Lent, LentScalar};
pub use marks::{Mark, MarkKind};
pub use promptness::law_due_is_said;
pub use readers::Reader;
pub use stops::Stop;
