//! Stores in folders whose logs are renewed, one command after the other.
use crate::moved::{DONE, LINES, Step, end, go_over};

// A line of `renew` for the first log begins so.
const SIZES: &[u8] = b"shard-0.log 9";

// The keys and values that were imported, and one that was put between two of them.
const ALL: &[u8] =
    b"a 1\na\\x20b two\\x0alines\nc:\\x5ctemp \\x5cx41\nk \nm \"q\",\\x20\\x0d\nn \\x00\nz 3\nz\\xc3\\xa4 \\xc3\\x9f\n\\xff \\x80,\n";

// A store of two shards is renewed again and again. Values stay; the past stays until it is not kept.
static RENEWED: [Step; 14] = [
    Step {
        words: "make ./two m",
        ..DONE
    },
    Step {
        words: "renew ./two",
        output: SIZES,
        ..DONE
    },
    Step {
        words: "import ./two",
        input: LINES,
        output: b"imported 8\n",
        ..DONE
    },
    Step {
        words: "renew ./two",
        output: SIZES,
        ..DONE
    },
    Step {
        words: "export ./two",
        output: LINES,
        errors: "exported 8 at ",
        ..DONE
    },
    Step {
        words: "import ./two",
        input: b"a 2\nz 3\n",
        output: b"imported 2\n",
        ..DONE
    },
    Step {
        words: "import ./two",
        input: LINES,
        output: b"imported 8\n",
        ..DONE
    },
    Step {
        words: "renew --keep 9000000000000000 ./two",
        output: SIZES,
        ..DONE
    },
    Step {
        words: "export ./two 0",
        errors: "exported 0 at 0",
        ..DONE
    },
    Step {
        words: "renew ./two --keep=0",
        output: SIZES,
        ..DONE
    },
    Step {
        words: "export ./two 0",
        errors: "fault: 15 TooOld\n",
        status: 2,
        ..DONE
    },
    Step {
        words: "backup ./two ./copy",
        ..DONE
    },
    Step {
        words: "export ./copy",
        output: ALL,
        errors: "exported 9 at ",
        ..DONE
    },
    Step {
        words: "renew ./none",
        errors: "fault: 2 Device\n--> ",
        status: 2,
        ..DONE
    },
];

// Fails if a renewal loses a value, forgets a past that is to be kept, or keeps one that is not.
#[test]
fn stores_are_renewed(rt: HostRuntime) {
    end(&rt, go_over(&rt, &rt, &RENEWED));
}
