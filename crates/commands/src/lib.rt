//! What the program's commands do and print, over any files and over what runs shards.
#![tactic(auto)]

mod answers;
mod drive_command;
mod engine;
mod help;
mod hints;
mod inspect;
mod key_commands;
mod places;
mod play_command;
mod printing;
mod put_command;
mod settings_text;
mod stats_command;
mod store_folder;

pub use answers::answer;
pub use client::Ended;
pub use command_line::{Command, Form, Source, Words};
pub use engine::{Drive, Engine, Put};
pub use hints::Hints;
pub use output::Stream;
pub use places::place_of;
pub use script::{Report, lawful, play, schedule};
pub use settings_text::settings;
pub use showing::stats_files;
pub use store_folder::splits_of;
pub use system::{Driven, Files, NoVerdict, System};
