//! The machine's files, as commands ask for them, and the logs of a drive in a folder.
#![tactic(auto)]

mod agreeing;
mod beginning;
mod causes;
mod copying;
mod files;
mod folder;
mod log_file;
mod manifest;
mod names;
mod newest;
mod owners;
mod refused;
mod replacing;
mod shards;
mod walking;

pub use agreeing::{Known, check_agreement, known_on};
pub use causes::{Causes, Noted, failed_log};
pub use copying::Copying;
pub use files::HostFiles;
pub use folder::{Expected, FoundLogs, found_in, logs_in, logs_in_memory, refusal_at, refusal_in};
pub use log_file::{LogFile, at_one_moment};
pub use manifest::manifest_text;
pub use names::Name;
pub use newest::{Limit, Newest};
pub use refused::{Refused, RefusedIn, Why};
pub use replacing::{Replacing, draft_beside, open_anew, put_in_place};
