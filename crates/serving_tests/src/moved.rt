//! Stores in folders that are exported, imported into and backed up, one command after the other.
use crate::streams::Paper;
use made::{Folder, WrongRows};
use service::service;
use std::alloc::Global;
use std::fs::File;
use std::process::Abort;
use std::random::RandomSource;
use std::rt::Files;
use std::sync::Wait;
use std::thread::Threads;
use std::time;

/// A command, and what it has to come to. A word that begins with `./` names something in the folder.
#[derive(Clone, Copy)]
pub struct Step {
    pub words: &'static str,
    pub input: &'static [u8],
    /// What is printed; of `renew`, whose sizes hang on times, what that begins with.
    pub output: &'static [u8],
    /// What standard error begins with.
    pub errors: &'static str,
    pub status: u8,
}

/// A command that does its work and prints nothing.
pub const DONE: Step = Step {
    words: "",
    input: b"",
    output: b"",
    errors: "",
    status: 0,
};

/// Keys and values of each kind, in the order of the keys: line feeds, blanks, quotes, commas, no bytes, letters of UTF-8, and bytes that are no text.
pub const LINES: &[u8] =
    b"a 1\na\\x20b two\\x0alines\nc:\\x5ctemp \\x5cx41\nk \nm \"q\",\\x20\\x0d\nn \\x00\nz\\xc3\\xa4 \\xc3\\x9f\n\\xff \\x80,\n";

const ROWS: &[u8] =
    b"\"key\",\"value\"\n\"a\",\"1\"\n\"a b\",\"two\nlines\"\n\"c:\\x5ctemp\",\"\\x5cx41\"\n\"k\",\"\"\n\"m\",\"\"\"q\"\", \r\"\n\"n\",\"\\x00\"\n\"z\xc3\xa4\",\"\xc3\x9f\"\n\"\\xff\",\"\\x80,\"\n";

// A store of two shards becomes one of four, by lines and by rows, and is copied.
static MOVED: [Step; 18] = [
    Step {
        words: "make ./two m",
        ..DONE
    },
    Step {
        words: "export ./two",
        errors: "exported 0 at ",
        ..DONE
    },
    Step {
        words: "export --csv ./two",
        output: b"\"key\",\"value\"\n",
        errors: "exported 0 at ",
        ..DONE
    },
    Step {
        words: "import ./two",
        input: LINES,
        output: b"imported 8\n",
        ..DONE
    },
    Step {
        words: "export ./two",
        output: LINES,
        errors: "exported 8 at ",
        ..DONE
    },
    Step {
        words: "export ./two --csv",
        output: ROWS,
        errors: "exported 8 at ",
        ..DONE
    },
    Step {
        words: "make ./four g m t",
        ..DONE
    },
    Step {
        words: "import ./four",
        input: LINES,
        output: b"imported 8\n",
        ..DONE
    },
    Step {
        words: "export ./four",
        output: LINES,
        errors: "exported 8 at ",
        ..DONE
    },
    Step {
        words: "make ./rows g m t",
        ..DONE
    },
    Step {
        words: "import ./rows --csv",
        input: ROWS,
        output: b"imported 8\n",
        ..DONE
    },
    Step {
        words: "export ./rows",
        output: LINES,
        errors: "exported 8 at ",
        ..DONE
    },
    Step {
        words: "import ./rows",
        input: LINES,
        output: b"imported 8\n",
        ..DONE
    },
    Step {
        words: "backup ./rows ./copy",
        ..DONE
    },
    Step {
        words: "import ./rows",
        input: b"b later\n",
        output: b"imported 1\n",
        ..DONE
    },
    Step {
        words: "export ./copy",
        output: LINES,
        errors: "exported 8 at ",
        ..DONE
    },
    Step {
        words: "export ./copy 0",
        errors: "exported 0 at 0",
        ..DONE
    },
    Step {
        words: "import ./two",
        output: b"imported 0\n",
        ..DONE
    },
];

// What is refused: by its words, by a line, and by what is in a folder.
static REFUSED: [Step; 20] = [
    Step {
        words: "make ./two m",
        ..DONE
    },
    Step {
        words: "export",
        errors: "fault: 7 BadRequest(command)\n--> DIR is missing\nusage: shards export [--csv] DIR [AT]\n",
        status: 2,
        ..DONE
    },
    Step {
        words: "export --csv --csv ./two",
        errors: "fault: 7 BadRequest(command)\n--> '--csv' stands twice\nusage: shards export [--csv] DIR [AT]\n",
        status: 2,
        ..DONE
    },
    Step {
        words: "export --csv ./two x",
        errors: "fault: 7 BadRequest(command)\n--> AT is a whole number of microseconds, and not 'x'\n",
        status: 2,
        ..DONE
    },
    Step {
        words: "import ./two x",
        errors: "fault: 7 BadRequest(command)\n--> 'x' is one word too many\n",
        status: 2,
        ..DONE
    },
    Step {
        words: "backup ./two",
        errors: "fault: 7 BadRequest(command)\n--> TO is missing\nusage: shards backup DIR TO\n",
        status: 2,
        ..DONE
    },
    Step {
        words: "import ./two",
        input: b"a 1\nb\nc 3\n",
        output: b"imported 0\n",
        errors: "fault: 7 BadRequest(syntax 2)\n--> standard input:2\n",
        status: 2,
    },
    Step {
        words: "import ./two",
        input: b"a 1\nb 2",
        output: b"imported 0\n",
        errors: "fault: 7 BadRequest(syntax 2)\n--> standard input:2\n",
        status: 2,
    },
    Step {
        words: "import ./two",
        input: b"a \\q\n",
        output: b"imported 0\n",
        errors: "fault: 7 BadRequest(syntax 1)\n--> standard input:1\n",
        status: 2,
    },
    Step {
        words: "import ./two",
        input: b" 1\n",
        output: b"imported 0\n",
        errors: "fault: 7 BadRequest(syntax 1)\n--> standard input:1\n",
        status: 2,
    },
    Step {
        words: "import ./two",
        input: b"a \xff\n",
        output: b"imported 0\n",
        errors: "fault: 7 BadRequest(syntax 1)\n--> standard input:1\n",
        status: 2,
    },
    Step {
        words: "import --csv ./two",
        input: b"a,1\n",
        output: b"imported 0\n",
        errors: "fault: 7 BadRequest(syntax 1)\n--> standard input:1\n",
        status: 2,
    },
    Step {
        words: "import --csv ./two",
        input: b"key,value\n\"a\nb\",1\nc\n",
        output: b"imported 0\n",
        errors: "fault: 7 BadRequest(syntax 4)\n--> standard input:4\n",
        status: 2,
    },
    Step {
        words: "export ./two",
        errors: "exported 0 at ",
        ..DONE
    },
    Step {
        words: "export ./two 4611686018427387903",
        errors: "fault: 9 NotYet\n",
        status: 2,
        ..DONE
    },
    Step {
        words: "export ./none",
        errors: "fault: 2 Device\n--> ",
        status: 2,
        ..DONE
    },
    Step {
        words: "backup ./none ./copy",
        errors: "fault: 2 Device\n--> ",
        status: 2,
        ..DONE
    },
    Step {
        words: "backup ./two ./copy",
        ..DONE
    },
    Step {
        words: "backup ./two ./copy",
        errors: "fault: 2 Device\n--> ",
        status: 2,
        ..DONE
    },
    Step {
        words: "export ./copy",
        errors: "exported 0 at ",
        ..DONE
    },
];

// Carries out a step: what is printed to both outputs, and the status.
fn carried_out<
    R: Files<File = File, Dir = <HostRuntime as Files>::Dir>
        + Eprint
        + RandomSource
        + Threads
        + Wait
        + time::Clock
        + Sync
        + Abort,
>(rt: &R, host: &HostRuntime, folder: &Folder, step: &Step) -> (Vec<u8>, Vec<u8>, u8) {
    let alloc = host.alloc();
    let owned = owned_words(rt, alloc, folder, step.words);
    let mut words = Vec::new(alloc);
    for word in &owned {
        words.push(word.as_str()).ok().expect(rt, "memory");
    }
    let path = folder.path(alloc, "printed").ok().expect(rt, "memory");
    let output = File::create(rt, path.as_str()).ok().expect(rt, "a file");
    drop(path);
    let mut errors = Paper {
        bytes: Vec::new(alloc),
        is_gone: false,
    };
    let typed = folder.put(host, "typed", step.input);
    typed.ok().expect(rt, "a file");
    let path = folder.path(alloc, "typed").ok().expect(rt, "memory");
    let input = File::open(rt, path.as_str()).ok().expect(rt, "a file");
    drop(path);
    let status = service(
        rt,
        alloc,
        words.as_slice(),
        false,
        input,
        output,
        &mut errors,
    );
    drop(words);
    drop(owned);
    let printed = folder.read(host, "printed").ok().expect(rt, "a file");
    (printed, errors.bytes, status)
}

fn owned_words(test: &impl Abort, alloc: Global, folder: &Folder, line: &str) -> Vec<String> {
    let mut words = Vec::new(alloc);
    for word in line.split(' ') {
        let word = match word.strip_prefix("./") {
            Some(name) => folder.path(alloc, name).ok().expect(test, "memory"),
            None => format!(in alloc; "{word}").ok().expect(test, "memory"),
        };
        words.push(word).ok().expect(test, "memory");
    }
    words
}

// Whether what was printed is that of a step.
fn is_printed(step: &Step, output: &[u8]) -> bool {
    if step.words.starts_with("renew") {
        output.starts_with(step.output) && output.is_empty() == step.output.is_empty()
    } else {
        output == step.output
    }
}

/// Carries out some steps in a folder, and notes those that come to something else.
pub fn go_over<
    R: Files<File = File, Dir = <HostRuntime as Files>::Dir>
        + Eprint
        + RandomSource
        + Threads
        + Wait
        + time::Clock
        + Sync
        + Abort,
>(rt: &R, host: &HostRuntime, steps: &[Step]) -> WrongRows {
    let folder = Folder::new(host).ok().expect(rt, "a folder");
    let mut wrong = WrongRows::none(host.alloc());
    for (place, step) in steps.iter().enumerate() {
        let (output, errors, status) = carried_out(rt, host, &folder, step);
        let holds = is_printed(step, &output)
            && errors.as_slice().starts_with(step.errors.as_bytes())
            && errors.is_empty() == step.errors.is_empty()
            && status == step.status;
        wrong.unless_at(holds, step.words, place as u64);
        drop(output);
        drop(errors);
    }
    wrong.unless(folder.remove(host), "the folder");
    wrong
}

/// Fails if a row was wrong.
pub fn end(test: &impl Abort, wrong: WrongRows) {
    assert!(test; wrong.is_none(), "{}", wrong.text());
    drop(wrong);
}

// Fails if a pair is lost, changed, or put at another key, when a store is exported and imported by lines or by rows, or copied.
#[test]
fn stores_are_moved(rt: HostRuntime) {
    end(&rt, go_over(&rt, &rt, &MOVED));
}

// Fails if wrong words or lines are taken, something is written before the refused line, or a copy is made over another store.
#[test]
fn wrong_lines_and_folders_are_refused(rt: HostRuntime) {
    end(&rt, go_over(&rt, &rt, &REFUSED));
}
