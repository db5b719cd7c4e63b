//! What logs hold, as text.
#![tactic(auto)]

mod doubts;
mod endings;
mod figure;
mod files;
mod following;
mod history_json;
mod history_lines;
mod json;
mod kinds;
mod learning;
mod lines;
mod noting;
mod reading;
mod record_json;
mod shard_log;
mod stats;
mod stats_json;
mod stats_lines;
mod told;

pub use files::{
    dump_file, dump_file_json, history_told, history_told_json, stats_files, stats_files_json,
    value_told, value_told_json,
};
pub use following::tells_its_shard;
pub use history_lines::{found_line, history_text};
pub use inspection::inspect_files;
pub use kinds::Kinds;
pub use lines::dump_text;
pub use noting::note_refusals;
pub use reading::{Dump, End, read_dump};
pub use shard_log::{Found, read_history, read_value};
pub use stats::{FileNumbers, InDoubt, Numbers, Stats, read_stats};
pub use told::{Standing, Told};
