//! Documents with settings.
use made::WrongRows;
use settings::{Settings, Unread};
use std::alloc::Global;
use units::{Fault, Key, Reason};

// The settings that a document should give.
struct Wanted {
    splits: &'static [&'static [u8]],
    stride: u64,
    epsilon: u64,
    workers: u64,
    transactions: u64,
    keys: u64,
    dir: Option<&'static str>,
}

struct Taken {
    what: &'static str,
    text: &'static str,
    wanted: Wanted,
}

static TAKEN: [Taken; 4] = [
    Taken {
        what: "two shards on disks in memory",
        text: "shards = 2\n\
               splits = [\"k0005\"]\n\
               stride = 1000\n\
               epsilon = 100\n\
               workers = 4\n\
               transactions = 50\n\
               keys = 10\n",
        wanted: Wanted {
            splits: &[b"k0005"],
            stride: 1000,
            epsilon: 100,
            workers: 4,
            transactions: 50,
            keys: 10,
            dir: None,
        },
    },
    Taken {
        what: "the least numbers",
        text: "shards = 1\n\
               splits = []\n\
               stride = 0\n\
               epsilon = 0\n\
               workers = 1\n\
               transactions = 1\n\
               keys = 1\n",
        wanted: Wanted {
            splits: &[],
            stride: 0,
            epsilon: 0,
            workers: 1,
            transactions: 1,
            keys: 1,
            dir: None,
        },
    },
    Taken {
        what: "the greatest numbers, in another order, with a folder",
        text: "dir = \"logs\"\n\
               keys = 10000\n\
               transactions = 100000\n\
               workers = 64\n\
               epsilon = 1000000\n\
               stride = 10000000\n\
               splits = [\"a\", \"b\", \"c\", \"d\", \"e\", \"f\", \"g\", \"h\", \"i\", \"j\", \"k\", \"l\", \"m\", \"n\", \"o\"]\n\
               shards = 16\n",
        wanted: Wanted {
            splits: &[
                b"a", b"b", b"c", b"d", b"e", b"f", b"g", b"h", b"i", b"j", b"k", b"l", b"m", b"n",
                b"o",
            ],
            stride: 10_000_000,
            epsilon: 1_000_000,
            workers: 64,
            transactions: 100_000,
            keys: 10_000,
            dir: Some("logs"),
        },
    },
    Taken {
        what: "a key of 64 bytes behind one that it begins with",
        text: "shards = 3\n\
               splits = [\"0\", \"0123456789012345678901234567890123456789012345678901234567890123\"]\n\
               stride = 1\n\
               epsilon = 1\n\
               workers = 2\n\
               transactions = 2\n\
               keys = 2\n\
               dir = \".\"\n",
        wanted: Wanted {
            splits: &[
                b"0",
                b"0123456789012345678901234567890123456789012345678901234567890123",
            ],
            stride: 1,
            epsilon: 1,
            workers: 2,
            transactions: 2,
            keys: 2,
            dir: Some("."),
        },
    },
];

fn are(splits: &[Key], wanted: &[&[u8]]) -> bool {
    for (place, bytes) in wanted.iter().enumerate() {
        match splits.get(place) {
            Some(split) if split.as_bytes() == *bytes => {}
            _ => return false,
        }
    }
    splits.len() == wanted.len()
}

fn gives(settings: &Settings, wanted: &Wanted) -> bool {
    let folder = match &settings.dir {
        Some(dir) => wanted.dir == Some(dir.as_str()),
        None => wanted.dir.is_none(),
    };
    folder
        & are(settings.splits.as_slice(), wanted.splits)
        & (settings.stride.micros() == wanted.stride)
        & (settings.epsilon == wanted.epsilon)
        & (settings.workers == wanted.workers)
        & (settings.transactions == wanted.transactions)
        & (settings.keys == wanted.keys)
}

// A document that is taken, a line for each key.
static LINES: [&str; 7] = [
    "shards = 3",
    "splits = [\"b\", \"c\"]",
    "stride = 1000",
    "epsilon = 100",
    "workers = 4",
    "transactions = 50",
    "keys = 10",
];

// Texts in place of one of its lines. Some are taken; others are refused, each with what is told of it after the name
// of the file.
struct Changed {
    line: usize,
    taken: &'static [&'static str],
    refused: &'static [(&'static str, &'static str)],
}

static CHANGED: [Changed; 7] = [
    Changed {
        line: 0,
        taken: &["shards = 3", "# three\nshards = 0x3"],
        refused: &[
            ("", " the key 'shards' is missing"),
            (
                "shards = 0",
                "1: 'shards' has to be a whole number from 1 to 16",
            ),
            ("shards = 2", "2: 'splits' has 2 keys, and 2 shards want 1"),
            ("shards = 4", "2: 'splits' has 2 keys, and 4 shards want 3"),
            (
                "shards = 17",
                "1: 'shards' has to be a whole number from 1 to 16",
            ),
            (
                "shards = -3",
                "1: 'shards' has to be a whole number from 1 to 16",
            ),
            (
                "shards = 3.0",
                "1: 'shards' has to be a whole number from 1 to 16",
            ),
            (
                "shards = \"3\"",
                "1: 'shards' has to be a whole number from 1 to 16",
            ),
            (
                "shards = true",
                "1: 'shards' has to be a whole number from 1 to 16",
            ),
            (
                "shards = 3\nshards = 3",
                "2: this line is no TOML, tells a key again, or a number beyond 64 bits",
            ),
            (
                "Shards = 3",
                "1: 'Shards' is no key of settings; these are: shards, splits, stride, epsilon, workers, transactions, keys, dir",
            ),
        ],
    },
    Changed {
        line: 1,
        taken: &[
            "splits = [\"B\", \"BB\"]",
            "splits = [\n  \"b\",\n  \"c\",\n]",
        ],
        refused: &[
            ("", " the key 'splits' is missing"),
            ("splits = []", "2: 'splits' has 0 keys, and 3 shards want 2"),
            (
                "splits = [\"b\"]",
                "2: 'splits' has 1 key, and 3 shards want 2",
            ),
            (
                "splits = [\"b\", \"c\", \"d\"]",
                "2: 'splits' has 3 keys, and 3 shards want 2",
            ),
            (
                "splits = [\"c\", \"b\"]",
                "2: the keys of 'splits' have to ascend",
            ),
            (
                "splits = [\"b\", \"b\"]",
                "2: the keys of 'splits' have to ascend",
            ),
            (
                "splits = [\"\", \"b\"]",
                "2: each of 'splits' has to be a text of 1 to 64 bytes",
            ),
            (
                "splits = [\"b\", \"c1234567890123456789012345678901234567890123456789012345678901234\"]",
                "2: each of 'splits' has to be a text of 1 to 64 bytes",
            ),
            (
                "splits = [\"b\", 3]",
                "2: each of 'splits' has to be a text of 1 to 64 bytes",
            ),
            ("splits = \"b\"", "2: 'splits' has to be a list of texts"),
        ],
    },
    Changed {
        line: 2,
        taken: &["stride = 0", "stride = 10000000"],
        refused: &[
            ("", " the key 'stride' is missing"),
            (
                "stride = -1",
                "3: 'stride' has to be a whole number from 0 to 10000000",
            ),
            (
                "stride = 10000001",
                "3: 'stride' has to be a whole number from 0 to 10000000",
            ),
        ],
    },
    Changed {
        line: 3,
        taken: &["epsilon = 0", "epsilon = 1000000"],
        refused: &[
            ("", " the key 'epsilon' is missing"),
            (
                "epsilon = -1",
                "4: 'epsilon' has to be a whole number from 0 to 1000000",
            ),
            (
                "epsilon = 1000001",
                "4: 'epsilon' has to be a whole number from 0 to 1000000",
            ),
        ],
    },
    Changed {
        line: 4,
        taken: &["workers = 1", "workers = 64"],
        refused: &[
            ("", " the key 'workers' is missing"),
            (
                "workers = 0",
                "5: 'workers' has to be a whole number from 1 to 64",
            ),
            (
                "workers = 65",
                "5: 'workers' has to be a whole number from 1 to 64",
            ),
        ],
    },
    Changed {
        line: 5,
        taken: &["transactions = 1", "transactions = 100000"],
        refused: &[
            ("", " the key 'transactions' is missing"),
            (
                "transactions = 0",
                "6: 'transactions' has to be a whole number from 1 to 100000",
            ),
            (
                "transactions = 100001",
                "6: 'transactions' has to be a whole number from 1 to 100000",
            ),
        ],
    },
    Changed {
        line: 6,
        taken: &["keys = 1", "keys = 10000", "keys = 10\ndir = \"logs\""],
        refused: &[
            ("", " the key 'keys' is missing"),
            (
                "keys",
                "7: this line is no TOML, tells a key again, or a number beyond 64 bits",
            ),
            (
                "keys = 0",
                "7: 'keys' has to be a whole number from 1 to 10000",
            ),
            (
                "keys = 10001",
                "7: 'keys' has to be a whole number from 1 to 10000",
            ),
            (
                "keys = 99999999999999999999",
                "7: this line is no TOML, tells a key again, or a number beyond 64 bits",
            ),
            (
                "keys = 10\ndir = 1",
                "8: 'dir' has to be a text that is not empty",
            ),
            (
                "keys = 10\ndir = \"\"",
                "8: 'dir' has to be a text that is not empty",
            ),
            (
                "keys = 10\ndir = [\"logs\"]",
                "8: 'dir' has to be a text that is not empty",
            ),
            (
                "keys = 10\nother = 1",
                "8: 'other' is no key of settings; these are: shards, splits, stride, epsilon, workers, transactions, keys, dir",
            ),
            (
                "keys = 10\n[dir]",
                "8: 'dir' has to be a text that is not empty",
            ),
        ],
    },
];

// Makes the document that has a text in place of one line. A line is left out if there is no memory for it.
fn whole(alloc: Global, at: usize, text: &str) -> String {
    let mut whole = String::new(alloc);
    for (n, line) in LINES.iter().enumerate() {
        let _ = whole.push_str(if n == at { text } else { *line });
        let _ = whole.push('\n');
    }
    whole
}

// Tells whether it is refused as settings, and this is told of it.
fn is_refused(alloc: Global, text: &str, wanted: &str) -> bool {
    let Err(Unread::Wrong(wrong)) = Settings::read_or_tell(alloc, text) else {
        return false;
    };
    let Ok(told) = wrong.told(alloc, text) else {
        return false;
    };
    let right = told.as_str() == wanted;
    drop(told);
    right && Settings::read(alloc, text).err() == Some(Fault::BadRequest(Reason::Settings))
}

// Checks texts for a line, of which the first are taken and the others refused.
fn go_over_texts(wrong: &mut WrongRows, alloc: Global, row: &Changed) {
    for text in row.taken {
        let document = whole(alloc, row.line, *text);
        let right = Settings::read(alloc, document.as_str()).is_ok();
        drop(document);
        wrong.unless_at(right, *text, row.line as u64);
    }
    for (text, told) in row.refused {
        let document = whole(alloc, row.line, *text);
        let right = is_refused(alloc, document.as_str(), *told);
        drop(document);
        wrong.unless_at(right, *text, row.line as u64);
    }
}

// Tells whether the document is taken, and gives what it should.
fn is_taken(alloc: Global, row: &Taken) -> bool {
    match Settings::read(alloc, row.text) {
        Ok(settings) => {
            let gives = gives(&settings, &row.wanted);
            drop(settings);
            gives
        }
        Err(_) => false,
    }
}

/// Checks all rows.
pub fn go_over(wrong: &mut WrongRows, alloc: Global) {
    for row in &TAKEN {
        wrong.unless(is_taken(alloc, row), row.what);
    }
    for row in &CHANGED {
        go_over_texts(wrong, alloc, row);
    }
}
