//! Command lines: which words are which command.
#![tactic(auto)]

mod commands;
mod explaining;
mod marks;
mod parsing;
mod usage;
mod words;

pub use commands::{Command, Form, Source};
pub use explaining::explanation;
pub use marks::{Marks, Words};
pub use usage::{PAGE, VERSION, paragraph};
