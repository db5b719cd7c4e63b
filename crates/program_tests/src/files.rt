//! The files over which commands go: lists of lines, logs, stores, settings and a schedule. A log is told without its slots.
use crate::given::File;

const CUT: &[u8] = b"SPNLOG02\xa5\0\0\0\x09";

const BARE: &[u8] = b"SPNLOG02\0";

const ONE_SHARD: &[u8] = b"version = 1\nshards = 1\nsplits = []\nname = \"0123456789abcdef\"\n";

const TWO_SHARDS: &[u8] =
    b"version = 1\nshards = 2\nsplits = [\"m\"]\nname = \"0123456789abcdef\"\n";

// Opened 1; Prepare 1.2 of coordinator 0 at 150, with z=2; its outcome at 200; Prepare 1.5 at 500, with z=3; Prepare 1.6 at 510, with
// y=4; its outcome, aborted.
const OF_SHARD_1: &[u8] = b"SPNLOG02\xa5\0\0\0\x09\x01\0\0\0\0\0\0\0\x01\
    \xa5\0\0\0\x24\x03\0\0\0\0\0\0\0\x01\0\0\0\0\0\0\0\x02\0\0\0\0\0\0\0\0\x96\0\0\0\x01\x01z\x01\0\x012\
    \xa5\0\0\0\x1a\x06\0\0\0\0\0\0\0\x01\0\0\0\0\0\0\0\x02\x01\0\0\0\0\0\0\0\xc8\
    \xa5\0\0\0\x24\x03\0\0\0\0\0\0\0\x01\0\0\0\0\0\0\0\x05\0\0\0\0\0\0\0\x01\xf4\0\0\0\x01\x01z\x01\0\x013\
    \xa5\0\0\0\x24\x03\0\0\0\0\0\0\0\x01\0\0\0\0\0\0\0\x06\0\0\0\0\0\0\0\x01\xfe\0\0\0\x01\x01y\x01\0\x014\
    \xa5\0\0\0\x12\x06\0\0\0\0\0\0\0\x01\0\0\0\0\0\0\0\x06\0\0";

// Texts and lists of lines.
static LISTS: [File<'static>; 7] = [
    File {
        path: "empty",
        bytes: b"",
    },
    File {
        path: "no_text",
        bytes: b"begin \xff",
    },
    File {
        path: "wrong.lines",
        bytes: b"begin 1.2 0\nbegin 1.2\n",
    },
    File {
        path: "lost.lines",
        bytes: b"ack 1.3 200 7\n",
    },
    File {
        path: "read.lines",
        bytes: b"ack 1.2 200 3\nlook a 200 =2\n",
    },
    File {
        path: "order.lines",
        bytes: b"ack 1.2 200 3\nbegin 1.2 5\n",
    },
    File {
        path: "right.lines",
        bytes: b"begin 1.2 2\nack 1.2 200 3\nlook a 200 =1\nlook a 199 none\n",
    },
];

// Logs.
static LOGS: [File<'static>; 14] = [
    // Opened 1.
    File {
        path: "opened.log",
        bytes: b"SPNLOG02\xa5\0\0\0\x09\x01\0\0\0\0\0\0\0\x01\0",
    },
    // Opened 1; Commit 1.2 at 200 by shards 0 and 1.
    File {
        path: "torn.log",
        bytes: b"SPNLOG02\xa5\0\0\0\x09\x01\0\0\0\0\0\0\0\x01\
            \xa5\0\0\0\x1f\x04\0\0\0\0\0\0\0\x01\0\0\0\0\0\0\0\x02\0\0\0\0\0\0\0\xc8\0\x03\0\0\0\0\0",
    },
    // Opened 1; Commit 1.2 at 200 by shard 0, with a=1; its outcome.
    File {
        path: "done.log",
        bytes: b"SPNLOG02\xa5\0\0\0\x09\x01\0\0\0\0\0\0\0\x01\
            \xa5\0\0\0%\x04\0\0\0\0\0\0\0\x01\0\0\0\0\0\0\0\x02\0\0\0\0\0\0\0\xc8\0\x01\0\0\0\x01\x01a\x01\0\x011\
            \xa5\0\0\0\x1a\x06\0\0\0\0\0\0\0\x01\0\0\0\0\0\0\0\x02\x01\0\0\0\0\0\0\0\xc8\0",
    },
    // Opened 1; Commit 1.2 at 200 by shard 0, with a key that has a line feed, and a value that has `=`, a comma and an escape.
    File {
        path: "odd.log",
        bytes: b"SPNLOG02\xa5\0\0\0\x09\x01\0\0\0\0\0\0\0\x01\
            \xa5\0\0\0\x2a\x04\0\0\0\0\0\0\0\x01\0\0\0\0\0\0\0\x02\0\0\0\0\0\0\0\xc8\0\x01\0\0\0\x01\x03b\x0a9\x01\0\x04x=,\x1b\0",
    },
    // Opened 1; Prepare 1.2 of coordinator 0 at 200.
    File {
        path: "promised.log",
        bytes: b"SPNLOG02\xa5\0\0\0\x09\x01\0\0\0\0\0\0\0\x01\
            \xa5\0\0\0\x1e\x03\0\0\0\0\0\0\0\x01\0\0\0\0\0\0\0\x02\0\0\0\0\0\0\0\0\xc8\0\0\0\0\0",
    },
    File {
        path: "old_version.log",
        bytes: b"SPNLOG01\xa5\0\0\0\x09\x01\0\0\0\0\0\0\0\x01\0",
    },
    File {
        path: "old_cut.log",
        bytes: b"SPNLOG01\xa5\0\0\0\x09",
    },
    File {
        path: "cut.log",
        bytes: CUT,
    },
    // No opening.
    File {
        path: "unopened.log",
        bytes: b"SPNLOG02\xa5\0\0\0\x09\x02\0\0\0\0\0\0\0\xc8\0",
    },
    File {
        path: "bare.log",
        bytes: BARE,
    },
    // Opened 1, and after the closed gate what a crash left of Opened 2.
    File {
        path: "unfinished.log",
        bytes: b"SPNLOG02\xa5\0\0\0\x09\x01\0\0\0\0\0\0\0\x01\0\0\0\0\x09\x01\0\0",
    },
    // Opened 1, and a gate that a crash filled.
    File {
        path: "filled.log",
        bytes: b"SPNLOG02\xa5\0\0\0\x09\x01\0\0\0\0\0\0\0\x01\x5a",
    },
    // Opened 1; Commit 1.2 at 200 by shard 0, with a=1; Abort 1.3; Ceiling 300; Opened 2.
    File {
        path: "many.log",
        bytes: b"SPNLOG02\xa5\0\0\0\x09\x01\0\0\0\0\0\0\0\x01\
            \xa5\0\0\0%\x04\0\0\0\0\0\0\0\x01\0\0\0\0\0\0\0\x02\0\0\0\0\0\0\0\xc8\0\x01\0\0\0\x01\x01a\x01\0\x011\
            \xa5\0\0\0\x11\x05\0\0\0\0\0\0\0\x01\0\0\0\0\0\0\0\x03\
            \xa5\0\0\0\x09\x02\0\0\0\0\0\0\x01,\
            \xa5\0\0\0\x09\x01\0\0\0\0\0\0\0\x02\0",
    },
    // Opened 1; Ceiling 300; Horizon 200.
    File {
        path: "forgotten.log",
        bytes: b"SPNLOG02\xa5\0\0\0\x09\x01\0\0\0\0\0\0\0\x01\
            \xa5\0\0\0\x09\x02\0\0\0\0\0\0\x01,\
            \xa5\0\0\0\x09\x07\0\0\0\0\0\0\0\xc8\0",
    },
];

// Settings of drives.
static SETTINGS: [File<'static>; 4] = [
    File {
        path: "good.settings",
        bytes: b"shards = 2\nsplits = [\"k0005\"]\nstride = 1000\nepsilon = 100\nworkers = 4\ntransactions = 50\nkeys = 10\n",
    },
    File {
        path: "torn.settings",
        bytes: b"shards = 1\nsplits = []\nstride = 0\nepsilon = 0\nworkers = 1\ntransactions = 1\nkeys = 1\n",
    },
    File {
        path: "stopped.settings",
        bytes: b"shards = 1\nsplits = []\nstride = 0\nepsilon = 0\nworkers = 1\ntransactions = 1\nkeys = 2\n",
    },
    File {
        path: "unknown.settings",
        bytes: b"shards = 1\nsplits = []\nstride = 0\nepsilon = 0\nworkers = 1\ntransactions = 1\nkeys = 1\nkey = 1\n",
    },
];

// Stores with their logs, or with those of others.
static STORES: [File<'static>; 11] = [
    File {
        path: "one/store.toml",
        bytes: ONE_SHARD,
    },
    // Opened 1; Commit 1.1 at 111 by shard 0, with a=1; its outcome.
    File {
        path: "one/shard-0.log",
        bytes: b"SPNLOG02\xa5\0\0\0\x09\x01\0\0\0\0\0\0\0\x01\
            \xa5\0\0\0\x25\x04\0\0\0\0\0\0\0\x01\0\0\0\0\0\0\0\x01\0\0\0\0\0\0\0o\0\x01\0\0\0\x01\x01a\x01\0\x011\
            \xa5\0\0\0\x1a\x06\0\0\0\0\0\0\0\x01\0\0\0\0\0\0\0\x01\x01\0\0\0\0\0\0\0o\0",
    },
    File {
        path: "two/store.toml",
        bytes: TWO_SHARDS,
    },
    // Opened 1. Commit 1.2 at 200 by shards 0 and 1, with a=1; its outcome. Commit 1.3 at 300, which erases a; its outcome. Commit 1.4 at
    // 400, with a line feed and a backslash.
    File {
        path: "two/shard-0.log",
        bytes: b"SPNLOG02\xa5\0\0\0\x09\x01\0\0\0\0\0\0\0\x01\
            \xa5\0\0\0\x25\x04\0\0\0\0\0\0\0\x01\0\0\0\0\0\0\0\x02\0\0\0\0\0\0\0\xc8\0\x03\0\0\0\x01\x01a\x01\0\x011\
            \xa5\0\0\0\x1a\x06\0\0\0\0\0\0\0\x01\0\0\0\0\0\0\0\x02\x01\0\0\0\0\0\0\0\xc8\
            \xa5\0\0\0\x22\x04\0\0\0\0\0\0\0\x01\0\0\0\0\0\0\0\x03\0\0\0\0\0\0\x01\x2c\0\x01\0\0\0\x01\x01a\0\
            \xa5\0\0\0\x1a\x06\0\0\0\0\0\0\0\x01\0\0\0\0\0\0\0\x03\x01\0\0\0\0\0\0\x01\x2c\
            \xa5\0\0\0\x26\x04\0\0\0\0\0\0\0\x01\0\0\0\0\0\0\0\x04\0\0\0\0\0\0\x01\x90\0\x01\0\0\0\x01\x01a\x01\0\x02\x0a\x5c\0",
    },
    File {
        path: "two/shard-1.log",
        bytes: OF_SHARD_1,
    },
    File {
        path: "swapped/store.toml",
        bytes: TWO_SHARDS,
    },
    File {
        path: "swapped/shard-0.log",
        bytes: OF_SHARD_1,
    },
    File {
        path: "unpromised/store.toml",
        bytes: ONE_SHARD,
    },
    // Opened 1; the outcome of 1.1 at 111, which nobody promised.
    File {
        path: "unpromised/shard-0.log",
        bytes: b"SPNLOG02\xa5\0\0\0\x09\x01\0\0\0\0\0\0\0\x01\
            \xa5\0\0\0\x1a\x06\0\0\0\0\0\0\0\x01\0\0\0\0\0\0\0\x01\x01\0\0\0\0\0\0\0o\0",
    },
    File {
        path: "bare/store.toml",
        bytes: ONE_SHARD,
    },
    File {
        path: "bare/shard-0.log",
        bytes: BARE,
    },
];

// Stores without a log, and manifests that are odd or none.
static FAULTY: [File<'static>; 8] = [
    File {
        path: "cut/store.toml",
        bytes: ONE_SHARD,
    },
    File {
        path: "cut/shard-0.log",
        bytes: CUT,
    },
    File {
        path: "none/store.toml",
        bytes: ONE_SHARD,
    },
    File {
        path: "unnamed/store.toml",
        bytes: b"version = 1\nshards = 1\nsplits = []\n",
    },
    File {
        path: "later/store.toml",
        bytes: b"version = 2\nshards = 1\nsplits = []\nname = \"0123456789abcdef\"\n",
    },
    File {
        path: "unordered/store.toml",
        bytes: b"version = 1\nshards = 3\nsplits = [\"n\", \"m\"]\nname = \"0123456789abcdef\"\n",
    },
    // Its last shard has the keys from the bytes ff, 00 and 61 on.
    File {
        path: "bytes/store.toml",
        bytes: b"version = 1\nshards = 3\nsplits = [\"\\u00ff\", \"\\u00ff\\u0000a\"]\nname = \"0123456789abcdef\"\n",
    },
    File {
        path: "bytes/shard-0.log",
        bytes: BARE,
    },
];

// Logs whose numbers are told.
static COUNTED: [File<'static>; 5] = [
    // Opened 1; Commit 1.2 at 200 by shard 0, with a=1; Abort 1.3; Ceiling 300; Opened 2. After the closed gate stands what a crash left.
    File {
        path: "kinds.log",
        bytes: b"SPNLOG02\xa5\0\0\0\x09\x01\0\0\0\0\0\0\0\x01\
            \xa5\0\0\0%\x04\0\0\0\0\0\0\0\x01\0\0\0\0\0\0\0\x02\0\0\0\0\0\0\0\xc8\0\x01\0\0\0\x01\x01a\x01\0\x011\
            \xa5\0\0\0\x11\x05\0\0\0\0\0\0\0\x01\0\0\0\0\0\0\0\x03\
            \xa5\0\0\0\x09\x02\0\0\0\0\0\0\x01,\
            \xa5\0\0\0\x09\x01\0\0\0\0\0\0\0\x02\0\0\0\0",
    },
    // Opened 1; Commit 1.1 at 100 by shard 1, which writes a=1 and erases b; its outcome.
    File {
        path: "keys.log",
        bytes: b"SPNLOG02\xa5\0\0\0\x09\x01\0\0\0\0\0\0\0\x01\
            \xa5\0\0\0\x28\x04\0\0\0\0\0\0\0\x01\0\0\0\0\0\0\0\x01\0\0\0\0\0\0\0d\0\x02\0\0\0\x02\x01a\x01\0\x011\x01b\0\
            \xa5\0\0\0\x1a\x06\0\0\0\0\0\0\0\x01\0\0\0\0\0\0\0\x01\x01\0\0\0\0\0\0\0d\0",
    },
    // Opened 1; Commit 1.1 at 111 by shard 0, with a=1; its outcome; Ceiling 300; Horizon 111; Horizon 300.
    File {
        path: "passed.log",
        bytes: b"SPNLOG02\xa5\0\0\0\x09\x01\0\0\0\0\0\0\0\x01\
            \xa5\0\0\0\x25\x04\0\0\0\0\0\0\0\x01\0\0\0\0\0\0\0\x01\0\0\0\0\0\0\0o\0\x01\0\0\0\x01\x01a\x01\0\x011\
            \xa5\0\0\0\x1a\x06\0\0\0\0\0\0\0\x01\0\0\0\0\0\0\0\x01\x01\0\0\0\0\0\0\0o\
            \xa5\0\0\0\x09\x02\0\0\0\0\0\0\x01\x2c\
            \xa5\0\0\0\x09\x07\0\0\0\0\0\0\0o\
            \xa5\0\0\0\x09\x07\0\0\0\0\0\0\x01\x2c\0",
    },
    // Opened 1; Horizon 1.
    File {
        path: "early.log",
        bytes: b"SPNLOG02\xa5\0\0\0\x09\x01\0\0\0\0\0\0\0\x01\
            \xa5\0\0\0\x09\x07\0\0\0\0\0\0\0\x01\0",
    },
    // Opened 1; Commit 1.2 at 200 by shard 0; Commit 1.3 at 300 by shard 1.
    File {
        path: "mixed.log",
        bytes: b"SPNLOG02\xa5\0\0\0\x09\x01\0\0\0\0\0\0\0\x01\
            \xa5\0\0\0\x1f\x04\0\0\0\0\0\0\0\x01\0\0\0\0\0\0\0\x02\0\0\0\0\0\0\0\xc8\0\x01\0\0\0\0\
            \xa5\0\0\0\x1f\x04\0\0\0\0\0\0\0\x01\0\0\0\0\0\0\0\x03\0\0\0\0\0\0\x01\x2c\0\x02\0\0\0\0\0",
    },
];

// Renewed logs, and what is asked of them.
static RETIRED: [File<'static>; 2] = [
    File {
        path: "gone/store.toml",
        bytes: ONE_SHARD,
    },
    // Opened 1; Commit 1.1 at 111 by shard 0, with a=1; its outcome; Retired 1.2.
    File {
        path: "gone/shard-0.log",
        bytes: b"SPNLOG02\xa5\0\0\0\x09\x01\0\0\0\0\0\0\0\x01\
            \xa5\0\0\0\x25\x04\0\0\0\0\0\0\0\x01\0\0\0\0\0\0\0\x01\0\0\0\0\0\0\0o\0\x01\0\0\0\x01\x01a\x01\0\x011\
            \xa5\0\0\0\x1a\x06\0\0\0\0\0\0\0\x01\0\0\0\0\0\0\0\x01\x01\0\0\0\0\0\0\0o\
            \xa5\0\0\0\x11\x0c\0\0\0\0\0\0\0\x01\0\0\0\0\0\0\0\x02\0",
    },
];

// Stores whose logs were renewed.
static RENEWED: [File<'static>; 6] = [
    File {
        path: "renewed/store.toml",
        bytes: TWO_SHARDS,
    },
    File {
        path: "renewed/right.lines",
        bytes: b"begin 1.1 0\nack 1.1 111 5\nlook a 111 =9\nread 1.9 a =1\nack 1.2 200 6\n",
    },
    File {
        path: "renewed/lost.lines",
        bytes: b"look a 111 =9\nack 1.4 401 7\n",
    },
    // Base 1 200 0; versions of a at 111 and, erased, at 200. 1.1 settled at 111 by shard 0, and 1.2 at 200 by shards 0 and 1. Opened 2;
    // Commit 1.4 at 400 by shard 0, with a=7.
    File {
        path: "renewed/shard-0.log",
        bytes: b"SPNLOG02\xa5\0\0\0\x19\x08\0\0\0\0\0\0\0\x01\0\0\0\0\0\0\0\xc8\0\0\0\0\0\0\0\0\
            \xa5\0\0\0\x0f\x09\x01a\0\0\0\0\0\0\0o\x01\0\x011\
            \xa5\0\0\0\x0c\x09\x01a\0\0\0\0\0\0\0\xc8\0\
            \xa5\0\0\0\x1b\x0a\0\0\0\0\0\0\0\x01\0\0\0\0\0\0\0\x01\0\0\0\0\0\0\0o\0\x01\
            \xa5\0\0\0\x1b\x0a\0\0\0\0\0\0\0\x01\0\0\0\0\0\0\0\x02\0\0\0\0\0\0\0\xc8\0\x03\
            \xa5\0\0\0\x09\x01\0\0\0\0\0\0\0\x02\
            \xa5\0\0\0%\x04\0\0\0\0\0\0\0\x01\0\0\0\0\0\0\0\x04\0\0\0\0\0\0\x01\x90\0\x01\0\0\0\x01\x01a\x01\0\x017\0",
    },
    // Base 1 200 0; a version of z at 200; 1.2 closed at 200, and 1.6 aborted; Prepare 1.5 of coordinator 0 at 500, with z=3; Opened 2.
    File {
        path: "renewed/shard-1.log",
        bytes: b"SPNLOG02\xa5\0\0\0\x19\x08\0\0\0\0\0\0\0\x01\0\0\0\0\0\0\0\xc8\0\0\0\0\0\0\0\0\
            \xa5\0\0\0\x0f\x09\x01z\0\0\0\0\0\0\0\xc8\x01\0\x012\
            \xa5\0\0\0\x1b\x0b\0\0\0\0\0\0\0\x01\0\0\0\0\0\0\0\x02\0\x01\0\0\0\0\0\0\0\xc8\
            \xa5\0\0\0\x13\x0b\0\0\0\0\0\0\0\x01\0\0\0\0\0\0\0\x06\0\0\
            \xa5\0\0\0$\x03\0\0\0\0\0\0\0\x01\0\0\0\0\0\0\0\x05\0\0\0\0\0\0\0\x01\xf4\0\0\0\x01\x01z\x01\0\x013\
            \xa5\0\0\0\x09\x01\0\0\0\0\0\0\0\x02\0",
    },
    // Opened 1; Base 1 0 0.
    File {
        path: "misplaced.log",
        bytes: b"SPNLOG02\xa5\0\0\0\x09\x01\0\0\0\0\0\0\0\x01\
            \xa5\0\0\0\x19\x08\0\0\0\0\0\0\0\x01\0\0\0\0\0\0\0\0\0\0\0\0\0\0\0\0\0",
    },
];

// A schedule, settings that are refused, and logs that are there.
static GIVEN: [File<'static>; 6] = [
    // Two events, the second of which may not happen.
    File {
        path: "a.schedule",
        bytes: b"shards 3\nsplit m\nsplit t\nstride 0\n100 begin 1.1\n99 begin 1.2\n",
    },
    File {
        path: "wrong.settings",
        bytes: b"shards = 0\n",
    },
    File {
        path: "memory.settings",
        bytes: b"shards = 2\nsplits = [\"m\"]\nstride = 1000\nepsilon = 100\nworkers = 1\ntransactions = 1\nkeys = 3\n",
    },
    File {
        path: "files.settings",
        bytes: b"shards = 2\nsplits = [\"m\"]\nstride = 1000\nepsilon = 100\nworkers = 1\ntransactions = 1\nkeys = 3\ndir = \"kept\"\n",
    },
    File {
        path: "kept/shard-0.log",
        bytes: BARE,
    },
    File {
        path: "kept/shard-1.log",
        bytes: CUT,
    },
];

// A body that names a table costs much to prove, so each is handed on.
fn lists() -> &'static [File<'static>] {
    &LISTS
}

fn logs() -> &'static [File<'static>] {
    &LOGS
}

fn settings() -> &'static [File<'static>] {
    &SETTINGS
}

fn stores() -> &'static [File<'static>] {
    &STORES
}

fn faulty() -> &'static [File<'static>] {
    &FAULTY
}

fn counted() -> &'static [File<'static>] {
    &COUNTED
}

fn renewed() -> &'static [File<'static>] {
    &RENEWED
}

fn retired() -> &'static [File<'static>] {
    &RETIRED
}

fn given() -> &'static [File<'static>] {
    &GIVEN
}

/// Gives all files. No two have one path.
pub fn all_files() -> [&'static [File<'static>]; 9] {
    [
        lists(),
        logs(),
        settings(),
        stores(),
        faulty(),
        counted(),
        retired(),
        renewed(),
        given(),
    ]
}
