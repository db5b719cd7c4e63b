//! The board of a shard: what looks see while the shard goes on. One publisher shows it; viewers look without waiting.
#![tactic(auto)]

mod board_copy;
mod change;
mod entry;
mod history;
mod home;
mod making;
mod pages;
mod press;
mod publisher;
mod rule;
mod snapshot;
mod told;
mod viewer;
mod viewers;

pub use entry::BoardEntry;
pub use history::History;
pub use home::Home;
pub use making::{MOST_VIEWERS, check_viewers, start};
pub use pages::KeyPage;
pub use publisher::Publisher;
pub use snapshot::Snapshot;
pub use told::Told;
pub use versions::{Places, copy_install};
pub use viewer::Viewer;
pub use viewers::Viewers;
