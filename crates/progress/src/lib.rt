//! What a drive shows while it runs: how many turns are done, and how many commits there are in a second. At the end it shows how
//! long commits, aborts and looks took.
#![tactic(auto)]

mod figures;
mod pace;
mod progress;
mod screen;
mod series;
mod stopwatch;
mod table;
mod terminal;
mod turn;

pub use figures::{per_second, percentile};
pub use progress::Progress;
pub use screen::Screen;
pub use series::{Figures, Series};
pub use stopwatch::Stopwatch;
pub use terminal::Terminal;
pub use turn::{Ended, NoWatch, Turn, Watch};
