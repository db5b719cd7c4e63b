//! What is told of a renewed log that is not whole from the first: below its horizon nothing can be told.
use crate::given::{Asked, File, REFUSED, TAKEN, comes_to};
use made::WrongRows;
use std::alloc::Global;

// A store of one shard: Base 1 200 150; versions of a at 111 and, erased, at 200. And one whose horizon was logged and which was not renewed:
// Opened 1; Commit 1.1 at 111 by shard 0, with a=1; its outcome; Ceiling 300; Horizon 250.
static FILES: [File<'static>; 4] = [
    File {
        path: "pruned/store.toml",
        bytes: b"version = 1\nshards = 1\nsplits = []\nname = \"0123456789abcdef\"\n",
    },
    File {
        path: "pruned/shard-0.log",
        bytes: b"SPNLOG02\xa5\0\0\0\x19\x08\0\0\0\0\0\0\0\x01\0\0\0\0\0\0\0\xc8\0\0\0\0\0\0\0\x96\
            \xa5\0\0\0\x0f\x09\x01a\0\0\0\0\0\0\0o\x01\0\x011\
            \xa5\0\0\0\x0c\x09\x01a\0\0\0\0\0\0\0\xc8\0\0",
    },
    File {
        path: "horizon/store.toml",
        bytes: b"version = 1\nshards = 1\nsplits = []\nname = \"0123456789abcdef\"\n",
    },
    File {
        path: "horizon/shard-0.log",
        bytes: b"SPNLOG02\xa5\0\0\0\x09\x01\0\0\0\0\0\0\0\x01\
            \xa5\0\0\0%\x04\0\0\0\0\0\0\0\x01\0\0\0\0\0\0\0\x01\0\0\0\0\0\0\0o\0\x01\0\0\0\x01\x01a\x01\0\x011\
            \xa5\0\0\0\x1a\x06\0\0\0\0\0\0\0\x01\0\0\0\0\0\0\0\x01\x01\0\0\0\0\0\0\0o\
            \xa5\0\0\0\x09\x02\0\0\0\0\0\0\x01\x2c\
            \xa5\0\0\0\x09\x07\0\0\0\0\0\0\0\xfa\0",
    },
];

static ROWS: [Asked; 6] = [
    Asked {
        lines: &[
            "get pruned a 0",
            "get pruned a 111",
            "get pruned a 149",
            "get pruned b 149",
        ],
        refused: "fault: 15 TooOld\n",
        ..REFUSED
    },
    Asked {
        lines: &[
            "get pruned a 150",
            "get pruned a 199",
            "get horizon a",
            "get horizon a 111",
        ],
        printed: "=1\n",
        ..TAKEN
    },
    Asked {
        lines: &[
            "get pruned a",
            "get pruned a 200",
            "get pruned b 150",
            "get horizon a 110",
        ],
        printed: "none\n",
        ..TAKEN
    },
    Asked {
        lines: &["history pruned a"],
        printed: "whole from 150\n111 - =1\n200 - none\n",
        ..TAKEN
    },
    Asked {
        lines: &["history pruned b"],
        printed: "whole from 150\n",
        ..TAKEN
    },
    Asked {
        lines: &["history horizon a"],
        printed: "111 1.1 =1\n",
        ..TAKEN
    },
];

// A body that names a table costs much to prove.
fn files() -> &'static [File<'static>] {
    &FILES
}

fn rows() -> &'static [Asked] {
    &ROWS
}

/// Goes over what is told.
pub fn go_over(wrong: &mut WrongRows, alloc: Global) {
    for row in rows() {
        for line in row.lines {
            wrong.unless(comes_to(alloc, &[files()], line, row), line);
        }
    }
}
