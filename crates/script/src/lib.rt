//! Schedules are read, played and judged, and reports are printed with the verdict on them.
#![tactic(auto)]

mod events;
mod forms;
mod plays;
mod reader;
mod reports;

pub use playing::{Report, lawful, play};
pub use plays::{Played, judged};
pub use reader::schedule;
pub use reports::report;
pub use texts::lines;
