//! What a command line asks for.
use truetime::Reading;
use units::{Key, Stamp, Value};

/// The source of the value of a write.
#[derive(Drop)]
pub enum Source {
    /// A word told it.
    Word(Value),
    /// Standard input has it, to its end.
    Input,
}

/// How a value is told.
#[derive(Clone, Copy, PartialEq, Eq)]
pub enum Form {
    /// As a line of text.
    Line,
    /// As its bytes, and nothing else.
    Raw,
    /// As a line of JSON.
    Json,
}

/// A command.
#[derive(Drop)]
pub enum Command<'a> {
    /// A text is printed: the page, what is told of a command, or the version.
    Told {
        text: &'static str,
    },
    /// One shard commits the write of a value at the first reading, and settles it at the second.
    Once {
        key: Key,
        value: Value,
        first: Reading,
        second: Reading,
    },
    /// A file with a new log is made.
    Format {
        file: &'a str,
    },
    /// The log in a file of version 1 is written into a new file, as one of version 2.
    Migrate {
        old: &'a str,
        new: &'a str,
    },
    /// The records of the log in a file are written into a new file.
    Compact {
        old: &'a str,
        new: &'a str,
    },
    /// The schedule of a file is played, and the report printed.
    Play {
        file: &'a str,
    },
    /// The logs of shards 0, 1 and so on are judged, with the lines of a file.
    Inspect {
        lines: &'a str,
        logs: Vec<&'a str>,
    },
    /// Nodes and workers are driven by the settings of a file, and a table of how long things took is told too, if `table`.
    Drive {
        file: &'a str,
        table: bool,
    },
    /// What the log in a file holds is told, as JSON, if `json`.
    Dump {
        file: &'a str,
        json: bool,
    },
    /// What the log of the store in a folder says of a key is told.
    History {
        dir: &'a str,
        key: Key,
        json: bool,
    },
    /// The value of a key in the store in a folder is told, at a timestamp or by the latest version.
    Get {
        dir: &'a str,
        key: Key,
        at: Option<Stamp>,
        form: Form,
    },
    /// The write of a value to a key is committed in the store in a folder.
    Put {
        dir: &'a str,
        key: Key,
        value: Source,
    },
    /// What the logs in some files hold is told in figures, or the logs of the store in one folder.
    Stats {
        logs: Vec<&'a str>,
        json: bool,
    },
}
