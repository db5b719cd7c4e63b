//! The commands over an open store: it is made in a folder, held open for lines, exported, imported into, backed up, and renewed.
#![tactic(auto)]

mod alone;
mod backing_up;
mod exporting;
mod importing;
mod making;
mod opening;
mod options;
mod refusal;
mod renewing;
mod running;

pub use running::{is_service, service};
