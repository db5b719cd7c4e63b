//! The forms of the lines of events.
use texts::{Form, Kind};

/// What happens, by the form of its line. A value follows the words of `Write`. Those of `CrashIn` and `FailIn` are followed by the step in
/// which it happens.
#[derive(Clone, Copy)]
pub enum Happening {
    Begin,
    Close,
    Quit,
    Read,
    Write,
    Erase,
    Deliver,
    Look,
    View,
    CrashIn,
    Crash,
    FailIn,
    Resume,
    Settle,
    Advance,
    Nudge,
    Forget,
    Retire,
    Turn,
    Open,
}

/// The forms of all lines of events. If two have one name, the first that fits counts.
pub static FORMS: [Form<Happening>; 20] = [
    Form {
        name: "begin",
        words: &[Kind::Txn],
        is: Happening::Begin,
    },
    Form {
        name: "close",
        words: &[Kind::Txn],
        is: Happening::Close,
    },
    Form {
        name: "quit",
        words: &[Kind::Txn],
        is: Happening::Quit,
    },
    Form {
        name: "read",
        words: &[Kind::Txn, Kind::Key],
        is: Happening::Read,
    },
    Form {
        name: "write",
        words: &[Kind::Txn, Kind::Key],
        is: Happening::Write,
    },
    Form {
        name: "erase",
        words: &[Kind::Txn, Kind::Key],
        is: Happening::Erase,
    },
    Form {
        name: "deliver",
        words: &[Kind::Number, Kind::Earliest, Kind::Latest],
        is: Happening::Deliver,
    },
    Form {
        name: "look",
        words: &[Kind::Shard, Kind::Key, Kind::Stamp],
        is: Happening::Look,
    },
    Form {
        name: "view",
        words: &[Kind::Shard, Kind::Number, Kind::Key, Kind::Stamp],
        is: Happening::View,
    },
    Form {
        name: "crash",
        words: &[Kind::Shard, Kind::Number, Kind::Fate],
        is: Happening::CrashIn,
    },
    Form {
        name: "crash",
        words: &[Kind::Shard],
        is: Happening::Crash,
    },
    Form {
        name: "fail",
        words: &[Kind::Shard, Kind::Number],
        is: Happening::FailIn,
    },
    Form {
        name: "resume",
        words: &[Kind::Shard, Kind::Earliest, Kind::Latest],
        is: Happening::Resume,
    },
    Form {
        name: "settle",
        words: &[Kind::Shard, Kind::Txn, Kind::Earliest, Kind::Latest],
        is: Happening::Settle,
    },
    Form {
        name: "advance",
        words: &[Kind::Shard, Kind::Stamp, Kind::Earliest, Kind::Latest],
        is: Happening::Advance,
    },
    Form {
        name: "nudge",
        words: &[Kind::Shard, Kind::Txn, Kind::Earliest, Kind::Latest],
        is: Happening::Nudge,
    },
    Form {
        name: "forget",
        words: &[Kind::Shard, Kind::Stamp, Kind::Earliest, Kind::Latest],
        is: Happening::Forget,
    },
    Form {
        name: "retire",
        words: &[Kind::Shard, Kind::Txn, Kind::Earliest, Kind::Latest],
        is: Happening::Retire,
    },
    Form {
        name: "turn",
        words: &[Kind::Shard],
        is: Happening::Turn,
    },
    Form {
        name: "open",
        words: &[Kind::Shard],
        is: Happening::Open,
    },
];
