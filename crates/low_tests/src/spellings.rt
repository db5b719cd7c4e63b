//! The bytes of records.
use crate::checks::{Row, go_over, go_over_all, is_spelled};
use crate::text_logs::record_of;
use made::WrongRows;
use record::Record;
use spelling::{decode, encoded_len};
use std::alloc::Global;

/// A record, and its bytes.
pub struct Vector {
    what: &'static str,
    line: &'static str,
    bytes: &'static [u8],
}

/// An opening of epoch 1.
pub const OPENED: &[u8] = &[1, 0, 0, 0, 0, 0, 0, 0, 1];

/// A ceiling at 200.
pub const CEILING: &[u8] = &[2, 0, 0, 0, 0, 0, 0, 0, 0xc8];

const PREPARE: &[u8] = &[
    3, 0, 0, 0, 0, 0, 0, 0, 1, 0, 0, 0, 0, 0, 0, 0, 2, 0, 0, 0, 0, 0, 0, 0, 0, 0xc8, 0, 0, 0, 1, 1,
    0x7a, 1, 0, 1, 0x31,
];

/// A commit of 1.1 at 111, parts 0, that reads nothing and writes `1` to `a`.
pub const COMMIT: &[u8] = &[
    4, 0, 0, 0, 0, 0, 0, 0, 1, 0, 0, 0, 0, 0, 0, 0, 1, 0, 0, 0, 0, 0, 0, 0, 0x6f, 0, 1, 0, 0, 0, 1,
    1, 0x61, 1, 0, 1, 0x31,
];

/// Transaction 1.1 committed at 111.
pub const OUTCOME: &[u8] = &[
    6, 0, 0, 0, 0, 0, 0, 0, 1, 0, 0, 0, 0, 0, 0, 0, 1, 1, 0, 0, 0, 0, 0, 0, 0, 0x6f,
];

// A commit of 1.1 at 111, parts 0, that reads a and b and writes nothing.
const READS: &[u8] = &[
    4, 0, 0, 0, 0, 0, 0, 0, 1, 0, 0, 0, 0, 0, 0, 0, 1, 0, 0, 0, 0, 0, 0, 0, 0x6f, 0, 1, 0, 2, 1,
    0x61, 1, 0x62, 0, 0,
];

static VECTORS: [Vector; 17] = [
    Vector {
        what: "an opening",
        line: "opened 1",
        bytes: OPENED,
    },
    Vector {
        what: "a ceiling",
        line: "ceiling 200",
        bytes: CEILING,
    },
    Vector {
        what: "a promise",
        line: "prepare 1.2 0 200 - z=1",
        bytes: PREPARE,
    },
    Vector {
        what: "a decision",
        line: "commit 1.1 111 0 - a=1",
        bytes: COMMIT,
    },
    Vector {
        what: "an abort",
        line: "abort 1.9",
        bytes: &[5, 0, 0, 0, 0, 0, 0, 0, 1, 0, 0, 0, 0, 0, 0, 0, 9],
    },
    Vector {
        what: "an outcome",
        line: "outcome 1.1 committed 111",
        bytes: OUTCOME,
    },
    Vector {
        what: "a horizon",
        line: "horizon 200",
        bytes: &[7, 0, 0, 0, 0, 0, 0, 0, 0xc8],
    },
    // Of a renewed log's head.
    Vector {
        what: "a base",
        line: "base 1 111 0",
        bytes: &[
            8, 0, 0, 0, 0, 0, 0, 0, 1, 0, 0, 0, 0, 0, 0, 0, 0x6f, 0, 0, 0, 0, 0, 0, 0, 0,
        ],
    },
    Vector {
        what: "a base with a horizon",
        line: "base 3 500 200",
        bytes: &[
            8, 0, 0, 0, 0, 0, 0, 0, 3, 0, 0, 0, 0, 0, 0, 1, 0xf4, 0, 0, 0, 0, 0, 0, 0, 0xc8,
        ],
    },
    Vector {
        what: "a version",
        line: "version 111 a=1",
        bytes: &[9, 1, 0x61, 0, 0, 0, 0, 0, 0, 0, 0x6f, 1, 0, 1, 0x31],
    },
    Vector {
        what: "an erasure",
        line: "version 111 a!",
        bytes: &[9, 1, 0x61, 0, 0, 0, 0, 0, 0, 0, 0x6f, 0],
    },
    Vector {
        what: "a settled decision",
        line: "settled 1.1 111 0",
        bytes: &[
            0x0a, 0, 0, 0, 0, 0, 0, 0, 1, 0, 0, 0, 0, 0, 0, 0, 1, 0, 0, 0, 0, 0, 0, 0, 0x6f, 0, 1,
        ],
    },
    Vector {
        what: "a settled decision of two shards",
        line: "settled 1.2 200 0,1",
        bytes: &[
            0x0a, 0, 0, 0, 0, 0, 0, 0, 1, 0, 0, 0, 0, 0, 0, 0, 2, 0, 0, 0, 0, 0, 0, 0, 0xc8, 0, 3,
        ],
    },
    Vector {
        what: "a closed promise",
        line: "closed 1.2 0 committed 200",
        bytes: &[
            0x0b, 0, 0, 0, 0, 0, 0, 0, 1, 0, 0, 0, 0, 0, 0, 0, 2, 0, 1, 0, 0, 0, 0, 0, 0, 0, 0xc8,
        ],
    },
    Vector {
        what: "a closed promise that was aborted",
        line: "closed 1.2 15 aborted",
        bytes: &[
            0x0b, 0, 0, 0, 0, 0, 0, 0, 1, 0, 0, 0, 0, 0, 0, 0, 2, 0x0f, 0,
        ],
    },
    // It may come anywhere behind an opening or a base.
    Vector {
        what: "ids that are retired",
        line: "retired 1.5",
        bytes: &[0x0c, 0, 0, 0, 0, 0, 0, 0, 1, 0, 0, 0, 0, 0, 0, 0, 5],
    },
    Vector {
        what: "ids of earlier runs that are retired",
        line: "retired 300.0",
        bytes: &[0x0c, 0, 0, 0, 0, 0, 0, 1, 0x2c, 0, 0, 0, 0, 0, 0, 0, 0],
    },
];

fn copy_is_spelled(alloc: Global, item: &Record, bytes: &[u8]) -> bool {
    let Ok(copied) = item.copy(alloc) else {
        return false;
    };
    let spelled = is_spelled(alloc, &copied, bytes) && encoded_len(&copied) == bytes.len() as u64;
    drop(copied);
    spelled
}

fn is_read_back(alloc: Global, bytes: &[u8]) -> bool {
    let Ok(Some(item)) = decode(alloc, bytes) else {
        return false;
    };
    let read = is_spelled(alloc, &item, bytes) && copy_is_spelled(alloc, &item, bytes);
    drop(item);
    read
}

// The record is spelled so and is read from these bytes, and its copy is spelled so too.
impl Row for Vector {
    fn tell(&self, wrong: &mut WrongRows, rt: &HostRuntime) {
        let alloc = rt.alloc();
        let spelled = match record_of(alloc, self.line) {
            Some(item) => {
                let spelled = is_spelled(alloc, &item, self.bytes);
                drop(item);
                spelled
            }
            None => false,
        };
        wrong.unless(spelled && is_read_back(alloc, self.bytes), self.what);
    }
}

/// Bytes that are a record, or not.
pub struct Read {
    what: &'static str,
    bytes: &'static [u8],
    is_record: bool,
}

// Unknown kinds, lengths that do not fit, and records of one number.
static NUMBERS: [Read; 15] = [
    Read {
        what: "no byte",
        bytes: &[],
        is_record: false,
    },
    Read {
        what: "kind 0",
        bytes: &[0, 0, 0, 0, 0, 0, 0, 0, 1],
        is_record: false,
    },
    Read {
        what: "kind 13",
        bytes: &[13, 0, 0, 0, 0, 0, 0, 0, 1, 0, 0, 0, 0, 0, 0, 0, 5],
        is_record: false,
    },
    Read {
        what: "a byte left over",
        bytes: &[2, 0, 0, 0, 0, 0, 0, 0, 0xc8, 0],
        is_record: false,
    },
    Read {
        what: "a byte too few",
        bytes: &[
            4, 0, 0, 0, 0, 0, 0, 0, 1, 0, 0, 0, 0, 0, 0, 0, 1, 0, 0, 0, 0, 0, 0, 0, 0x6f, 0, 1, 0,
            0, 0, 1, 1, 0x61, 1, 0, 1,
        ],
        is_record: false,
    },
    Read {
        what: "epoch 0",
        bytes: &[1, 0, 0, 0, 0, 0, 0, 0, 0],
        is_record: false,
    },
    Read {
        what: "epoch 2^62",
        bytes: &[1, 0x40, 0, 0, 0, 0, 0, 0, 0],
        is_record: false,
    },
    Read {
        what: "stamp 2^62",
        bytes: &[2, 0x40, 0, 0, 0, 0, 0, 0, 0],
        is_record: false,
    },
    Read {
        what: "the last stamp",
        bytes: &[2, 0x3f, 255, 255, 255, 255, 255, 255, 255],
        is_record: true,
    },
    Read {
        what: "a horizon at 0",
        bytes: &[7, 0, 0, 0, 0, 0, 0, 0, 0],
        is_record: true,
    },
    Read {
        what: "a horizon at the last stamp",
        bytes: &[7, 0x3f, 255, 255, 255, 255, 255, 255, 255],
        is_record: true,
    },
    Read {
        what: "a horizon at 2^62",
        bytes: &[7, 0x40, 0, 0, 0, 0, 0, 0, 0],
        is_record: false,
    },
    Read {
        what: "a horizon with a byte left over",
        bytes: &[7, 0, 0, 0, 0, 0, 0, 0, 0xc8, 0],
        is_record: false,
    },
    Read {
        what: "a horizon with a byte too few",
        bytes: &[7, 0, 0, 0, 0, 0, 0, 0xc8],
        is_record: false,
    },
    Read {
        what: "a horizon of its kind alone",
        bytes: &[7],
        is_record: false,
    },
];

// Promises and decisions.
static DECISIONS: [Read; 6] = [
    Read {
        what: "reads a and b",
        bytes: READS,
        is_record: true,
    },
    Read {
        what: "coordinator 15",
        bytes: &[
            3, 0, 0, 0, 0, 0, 0, 0, 1, 0, 0, 0, 0, 0, 0, 0, 2, 15, 0, 0, 0, 0, 0, 0, 0, 0xc8, 0, 0,
            0, 1, 1, 0x7a, 1, 0, 1, 0x31,
        ],
        is_record: true,
    },
    Read {
        what: "coordinator 16",
        bytes: &[
            3, 0, 0, 0, 0, 0, 0, 0, 1, 0, 0, 0, 0, 0, 0, 0, 2, 16, 0, 0, 0, 0, 0, 0, 0, 0xc8, 0, 0,
            0, 1, 1, 0x7a, 1, 0, 1, 0x31,
        ],
        is_record: false,
    },
    Read {
        what: "no shard takes part",
        bytes: &[
            4, 0, 0, 0, 0, 0, 0, 0, 1, 0, 0, 0, 0, 0, 0, 0, 1, 0, 0, 0, 0, 0, 0, 0, 0x6f, 0, 0, 0,
            0, 0, 1, 1, 0x61, 1, 0, 1, 0x31,
        ],
        is_record: false,
    },
    Read {
        what: "reads b and b",
        bytes: &[
            4, 0, 0, 0, 0, 0, 0, 0, 1, 0, 0, 0, 0, 0, 0, 0, 1, 0, 0, 0, 0, 0, 0, 0, 0x6f, 0, 1, 0,
            2, 1, 0x62, 1, 0x62, 0, 0,
        ],
        is_record: false,
    },
    Read {
        what: "reads c and b",
        bytes: &[
            4, 0, 0, 0, 0, 0, 0, 0, 1, 0, 0, 0, 0, 0, 0, 0, 1, 0, 0, 0, 0, 0, 0, 0, 0x6f, 0, 1, 0,
            2, 1, 0x63, 1, 0x62, 0, 0,
        ],
        is_record: false,
    },
];

// Bases, of a renewed log's head.
static BASES: [Read; 9] = [
    Read {
        what: "a base of its kind alone",
        bytes: &[8],
        is_record: false,
    },
    Read {
        what: "a base with a byte too few",
        bytes: &[
            8, 0, 0, 0, 0, 0, 0, 0, 1, 0, 0, 0, 0, 0, 0, 0, 0x6f, 0, 0, 0, 0, 0, 0, 0,
        ],
        is_record: false,
    },
    Read {
        what: "a base with a byte left over",
        bytes: &[
            8, 0, 0, 0, 0, 0, 0, 0, 1, 0, 0, 0, 0, 0, 0, 0, 0x6f, 0, 0, 0, 0, 0, 0, 0, 0, 0,
        ],
        is_record: false,
    },
    Read {
        what: "a base of epoch 0",
        bytes: &[
            8, 0, 0, 0, 0, 0, 0, 0, 0, 0, 0, 0, 0, 0, 0, 0, 0x6f, 0, 0, 0, 0, 0, 0, 0, 0,
        ],
        is_record: false,
    },
    Read {
        what: "a base of epoch 2^62",
        bytes: &[
            8, 0x40, 0, 0, 0, 0, 0, 0, 0, 0, 0, 0, 0, 0, 0, 0, 0x6f, 0, 0, 0, 0, 0, 0, 0, 0,
        ],
        is_record: false,
    },
    Read {
        what: "a base with a greatest timestamp 2^62",
        bytes: &[
            8, 0, 0, 0, 0, 0, 0, 0, 1, 0x40, 0, 0, 0, 0, 0, 0, 0, 0, 0, 0, 0, 0, 0, 0, 0,
        ],
        is_record: false,
    },
    Read {
        what: "a base with a horizon 2^62",
        bytes: &[
            8, 0, 0, 0, 0, 0, 0, 0, 1, 0, 0, 0, 0, 0, 0, 0, 0x6f, 0x40, 0, 0, 0, 0, 0, 0, 0,
        ],
        is_record: false,
    },
    Read {
        what: "a base of the last timestamps",
        bytes: &[
            8, 0x3f, 0xff, 0xff, 0xff, 0xff, 0xff, 0xff, 0xff, 0x3f, 0xff, 0xff, 0xff, 0xff, 0xff,
            0xff, 0xff, 0x3f, 0xff, 0xff, 0xff, 0xff, 0xff, 0xff, 0xff,
        ],
        is_record: true,
    },
    Read {
        what: "a base with a horizon above its greatest timestamp",
        bytes: &[
            8, 0, 0, 0, 0, 0, 0, 0, 1, 0, 0, 0, 0, 0, 0, 0, 1, 0, 0, 0, 0, 0, 0, 0, 2,
        ],
        is_record: true,
    },
];

// Versions and erasures.
static VERSIONS: [Read; 11] = [
    Read {
        what: "a version of its kind alone",
        bytes: &[9],
        is_record: false,
    },
    Read {
        what: "a version with a byte too few",
        bytes: &[9, 1, 0x61, 0, 0, 0, 0, 0, 0, 0, 0x6f, 1, 0, 1],
        is_record: false,
    },
    Read {
        what: "a version with a byte left over",
        bytes: &[9, 1, 0x61, 0, 0, 0, 0, 0, 0, 0, 0x6f, 1, 0, 1, 0x31, 0],
        is_record: false,
    },
    Read {
        what: "an erasure with a byte left over",
        bytes: &[9, 1, 0x61, 0, 0, 0, 0, 0, 0, 0, 0x6f, 0, 0],
        is_record: false,
    },
    Read {
        what: "an erasure with a byte too few",
        bytes: &[9, 1, 0x61, 0, 0, 0, 0, 0, 0, 0, 0x6f],
        is_record: false,
    },
    Read {
        what: "a version with option byte 2",
        bytes: &[9, 1, 0x61, 0, 0, 0, 0, 0, 0, 0, 0x6f, 2, 0, 1, 0x31],
        is_record: false,
    },
    Read {
        what: "an erasure with option byte 2",
        bytes: &[9, 1, 0x61, 0, 0, 0, 0, 0, 0, 0, 0x6f, 2],
        is_record: false,
    },
    Read {
        what: "a version of a key without a byte",
        bytes: &[9, 0, 0, 0, 0, 0, 0, 0, 0, 0x6f, 0],
        is_record: false,
    },
    Read {
        what: "a version at 2^62",
        bytes: &[9, 1, 0x61, 0x40, 0, 0, 0, 0, 0, 0, 0, 0],
        is_record: false,
    },
    Read {
        what: "a version with a value that is cut short",
        bytes: &[9, 1, 0x61, 0, 0, 0, 0, 0, 0, 0, 0x6f, 1, 0, 2, 0x31],
        is_record: false,
    },
    Read {
        what: "a version with an empty value",
        bytes: &[9, 1, 0x61, 0, 0, 0, 0, 0, 0, 0, 0x6f, 1, 0, 0],
        is_record: true,
    },
];

// Settled decisions and closed promises.
static ENDED: [Read; 14] = [
    Read {
        what: "a settled decision of its kind alone",
        bytes: &[0x0a],
        is_record: false,
    },
    Read {
        what: "a settled decision with a byte too few",
        bytes: &[
            0x0a, 0, 0, 0, 0, 0, 0, 0, 1, 0, 0, 0, 0, 0, 0, 0, 1, 0, 0, 0, 0, 0, 0, 0, 0x6f, 0,
        ],
        is_record: false,
    },
    Read {
        what: "a settled decision with a byte left over",
        bytes: &[
            0x0a, 0, 0, 0, 0, 0, 0, 0, 1, 0, 0, 0, 0, 0, 0, 0, 1, 0, 0, 0, 0, 0, 0, 0, 0x6f, 0, 1,
            0,
        ],
        is_record: false,
    },
    Read {
        what: "a settled decision of no shard",
        bytes: &[
            0x0a, 0, 0, 0, 0, 0, 0, 0, 1, 0, 0, 0, 0, 0, 0, 0, 1, 0, 0, 0, 0, 0, 0, 0, 0x6f, 0, 0,
        ],
        is_record: false,
    },
    Read {
        what: "a settled decision at 2^62",
        bytes: &[
            0x0a, 0, 0, 0, 0, 0, 0, 0, 1, 0, 0, 0, 0, 0, 0, 0, 1, 0x40, 0, 0, 0, 0, 0, 0, 0, 0, 1,
        ],
        is_record: false,
    },
    Read {
        what: "a closed promise of its kind alone",
        bytes: &[0x0b],
        is_record: false,
    },
    Read {
        what: "a closed promise with a byte too few",
        bytes: &[
            0x0b, 0, 0, 0, 0, 0, 0, 0, 1, 0, 0, 0, 0, 0, 0, 0, 2, 0, 1, 0, 0, 0, 0, 0, 0, 0,
        ],
        is_record: false,
    },
    Read {
        what: "a closed promise with a byte left over",
        bytes: &[
            0x0b, 0, 0, 0, 0, 0, 0, 0, 1, 0, 0, 0, 0, 0, 0, 0, 2, 0, 1, 0, 0, 0, 0, 0, 0, 0, 0xc8,
            0,
        ],
        is_record: false,
    },
    Read {
        what: "an aborted promise with a byte left over",
        bytes: &[
            0x0b, 0, 0, 0, 0, 0, 0, 0, 1, 0, 0, 0, 0, 0, 0, 0, 2, 0, 0, 0,
        ],
        is_record: false,
    },
    Read {
        what: "an aborted promise with a byte too few",
        bytes: &[0x0b, 0, 0, 0, 0, 0, 0, 0, 1, 0, 0, 0, 0, 0, 0, 0, 2, 0],
        is_record: false,
    },
    Read {
        what: "a closed promise with option byte 2",
        bytes: &[
            0x0b, 0, 0, 0, 0, 0, 0, 0, 1, 0, 0, 0, 0, 0, 0, 0, 2, 0, 2, 0, 0, 0, 0, 0, 0, 0, 0xc8,
        ],
        is_record: false,
    },
    Read {
        what: "an aborted promise with option byte 2",
        bytes: &[0x0b, 0, 0, 0, 0, 0, 0, 0, 1, 0, 0, 0, 0, 0, 0, 0, 2, 0, 2],
        is_record: false,
    },
    Read {
        what: "a closed promise of coordinator 16",
        bytes: &[
            0x0b, 0, 0, 0, 0, 0, 0, 0, 1, 0, 0, 0, 0, 0, 0, 0, 2, 0x10, 1, 0, 0, 0, 0, 0, 0, 0,
            0xc8,
        ],
        is_record: false,
    },
    Read {
        what: "a closed promise at 2^62",
        bytes: &[
            0x0b, 0, 0, 0, 0, 0, 0, 0, 1, 0, 0, 0, 0, 0, 0, 0, 2, 0, 1, 0x40, 0, 0, 0, 0, 0, 0, 0,
        ],
        is_record: false,
    },
];

// Ids that are retired.
static RETIRED: [Read; 9] = [
    Read {
        what: "a retired id of its kind alone",
        bytes: &[0x0c],
        is_record: false,
    },
    Read {
        what: "a retired id with a byte too few",
        bytes: &[0x0c, 0, 0, 0, 0, 0, 0, 0, 1, 0, 0, 0, 0, 0, 0, 0],
        is_record: false,
    },
    Read {
        what: "a retired id with a byte left over",
        bytes: &[0x0c, 0, 0, 0, 0, 0, 0, 0, 1, 0, 0, 0, 0, 0, 0, 0, 5, 0],
        is_record: false,
    },
    Read {
        what: "a retired id of its run alone",
        bytes: &[0x0c, 0, 0, 0, 0, 0, 0, 0, 1],
        is_record: false,
    },
    Read {
        what: "a retired id of run 0",
        bytes: &[0x0c, 0, 0, 0, 0, 0, 0, 0, 0, 0, 0, 0, 0, 0, 0, 0, 5],
        is_record: false,
    },
    Read {
        what: "a retired id of run 2^62",
        bytes: &[0x0c, 0x40, 0, 0, 0, 0, 0, 0, 0, 0, 0, 0, 0, 0, 0, 0, 5],
        is_record: false,
    },
    Read {
        what: "a retired id of number 2^62",
        bytes: &[0x0c, 0, 0, 0, 0, 0, 0, 0, 1, 0x40, 0, 0, 0, 0, 0, 0, 0],
        is_record: false,
    },
    Read {
        what: "the first id, which retires none",
        bytes: &[0x0c, 0, 0, 0, 0, 0, 0, 0, 1, 0, 0, 0, 0, 0, 0, 0, 0],
        is_record: true,
    },
    Read {
        what: "the last id is retired to",
        bytes: &[
            0x0c, 0x3f, 0xff, 0xff, 0xff, 0xff, 0xff, 0xff, 0xff, 0x3f, 0xff, 0xff, 0xff, 0xff,
            0xff, 0xff, 0xff,
        ],
        is_record: true,
    },
];

impl Row for Read {
    fn tell(&self, wrong: &mut WrongRows, rt: &HostRuntime) {
        let right = match decode(rt.alloc(), self.bytes) {
            Ok(Some(item)) => {
                drop(item);
                self.is_record
            }
            Ok(None) => !self.is_record,
            Err(_) => false,
        };
        wrong.unless(right, self.what);
    }
}

// A body that names a table costs much to prove, so a function hands each on.
fn numbers() -> &'static [Read] {
    &NUMBERS
}

fn decisions() -> &'static [Read] {
    &DECISIONS
}

fn bases() -> &'static [Read] {
    &BASES
}

fn versions() -> &'static [Read] {
    &VERSIONS
}

fn ended() -> &'static [Read] {
    &ENDED
}

fn retired() -> &'static [Read] {
    &RETIRED
}

/// Checks how records are spelled.
pub fn tell_vectors(wrong: &mut WrongRows, rt: &HostRuntime) {
    go_over(wrong, rt, "spellings", &VECTORS);
}

/// Checks which bytes are records.
pub fn tell_read(wrong: &mut WrongRows, rt: &HostRuntime) {
    go_over_all(
        wrong,
        rt,
        "bytes that are read",
        &[
            numbers(),
            decisions(),
            bases(),
            versions(),
            ended(),
            retired(),
        ],
    );
}
