//! What the program answers to command lines.
#![tactic(auto)]

mod host;
mod host_put;

pub use commands::{
    Command, Drive, Driven, Ended, Engine, Files, Form, Hints, NoVerdict, Put, Source, Stream,
    System, Words, answer, place_of, settings,
};
pub use drive::run;
pub use host::{Shown, program};
pub use host_put::put_in_store;
