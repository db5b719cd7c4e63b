//! Files in memory, and drives and writes of nothing, for commands that ask for them.
use commands::{
    Drive, Driven, Ended, Engine, Files, Hints, NoVerdict, Put, Stream, System, answer,
};
use disk::Disk;
use made::{id, stamp, with_slots};
use simdisk::SimDisk;
use std::alloc::{AllocError, Global};
use std::io;
use std::io::Write;
use units::{Fault, Verdict};

/// A file in memory.
#[derive(Clone, Copy)]
pub struct File<'f> {
    /// The path under which a command asks for it.
    pub path: &'static str,
    /// What it holds. A log is told without its slots.
    pub bytes: &'f [u8],
}

/// The files of a system, in memory.
#[derive(Clone, Copy)]
pub struct Memory<'f> {
    /// The files, in a few lists.
    pub files: &'f [&'f [File<'f>]],
}

impl<'f> Memory<'f> {
    fn file(&self, path: &str) -> Option<&'f [u8]> {
        for files in self.files {
            for file in *files {
                if file.path == path {
                    return Some(file.bytes);
                }
            }
        }
        None
    }
}

impl Files for Memory<'_> {
    type Log = SimDisk;

    fn read(&self, alloc: Global, path: &str, most: u64) -> Result<Vec<u8>, Fault> {
        match self.file(path) {
            Some(bytes) => Ok(bytes[..bytes.len().min(most as usize)].to_vec(alloc)?),
            None => Err(Fault::Device),
        }
    }

    fn create(&self, alloc: Global, path: &str) -> Result<SimDisk, Fault> {
        match self.file(path) {
            Some(_) => Err(Fault::Device),
            None => Ok(SimDisk::new(alloc)),
        }
    }

    fn open(&self, alloc: Global, path: &str) -> Result<SimDisk, Fault> {
        let Some(told) = self.file(path) else {
            return Err(Fault::Device);
        };
        let bytes = with_slots(alloc, told)?;
        let mut disk = SimDisk::new(alloc);
        match disk.write_at(0, &bytes) {
            Ok(()) => Ok(disk),
            Err(_) => Err(Fault::Device),
        }
    }
}

/// What standard input has.
const INPUT: &[u8] = b"stands";

impl Hints for Memory<'_> {
    fn hint(&self, _line: &str) {}

    fn input(&self, alloc: Global, most: u64) -> Result<Vec<u8>, Fault> {
        let bytes = INPUT;
        Ok(bytes[..bytes.len().min(most as usize)].to_vec(alloc)?)
    }
}

// Drives nothing. What came of it is told by the settings, some of which are told too, and by whether a table is wanted: a drive of one key is
// torn, and one of two has counts and no verdict.
fn told(alloc: Global, drive: Drive<'_>) -> Result<Driven, NoVerdict> {
    let settings = drive.settings;
    if settings.keys == 2 {
        return Err(NoVerdict {
            fault: Fault::Device,
            text: format!(in alloc; "looks 2\n").ok(),
        });
    }
    let (says, verdict) = if settings.keys == 1 {
        ("no torn 1.2", Verdict::Torn(id(2)))
    } else {
        ("yes", Verdict::Yes)
    };
    let stride = settings.stride.micros();
    let table = if drive.table { "table\n" } else { "" };
    let text = format!(in alloc;
        "stride {stride}\nepsilon {}\nworkers {}\nlooks {}\nverdict {says}\n{table}",
        settings.epsilon, settings.workers, settings.keys
    );
    match text {
        Ok(text) => Ok(Driven { text, verdict }),
        Err(_) => Err(NoVerdict::from(Fault::Memory)),
    }
}

// Writes nothing. What became of a write is told by its value.
fn ended(_alloc: Global, write: Put<'_>) -> Result<Ended, Fault> {
    match write.value.as_bytes() {
        b"stands" => Ok(Ended::Committed(stamp(112))),
        b"dropped" => Ok(Ended::Aborted),
        b"silent" => Ok(Ended::Unknown(id(2))),
        _ => Err(Fault::Stranger),
    }
}

/// How many writes each output takes before it fails, and how it is compared.
#[derive(Clone, Copy)]
pub struct Writes {
    /// How many standard output takes.
    pub out: u32,
    /// How many standard error takes.
    pub err: u32,
    /// Whether all that is printed is compared, or only how it begins.
    pub whole: bool,
}

/// Outputs that take all writes, and are compared whole.
pub const AMPLE: Writes = Writes {
    out: 1_000_000,
    err: 1_000_000,
    whole: true,
};

// Keeps what it takes, and fails once it took so many writes.
#[derive(Drop)]
struct Paper {
    bytes: Vec<u8>,
    left: u32,
}

impl Write for Paper {
    fn write(&mut self, buf: &[u8]) -> io::Result<usize> {
        if self.left == 0 {
            return Err(io::Error::from(io::ErrorKind::BrokenPipe));
        }
        self.left -= 1;
        self.bytes.write(buf)
    }

    fn flush(&mut self) -> io::Result<()> {
        Ok(())
    }
}

/// What a command came to.
#[derive(Drop)]
pub struct Printed {
    /// What was printed to standard output.
    pub out: Vec<u8>,
    /// What was printed to standard error.
    pub err: Vec<u8>,
    /// The exit status.
    pub status: u8,
}

/// Carries out a command line over some files. If memory is refused for its words, it has none.
pub fn print(alloc: Global, files: &[&[File<'_>]], line: &str, writes: Writes) -> Printed {
    let words = match words_of(alloc, line) {
        Ok(words) => words,
        Err(_) => Vec::new(alloc),
    };
    let system = System {
        files: Memory { files },
        drive: Engine {
            run: told,
            put: ended,
        },
    };
    let mut out = Stream::new(Paper {
        bytes: Vec::new(alloc),
        left: writes.out,
    });
    let mut err = Stream::new(Paper {
        bytes: Vec::new(alloc),
        left: writes.err,
    });
    let disk = SimDisk::new(alloc);
    let (status, disk) = answer(alloc, &words, &system, disk, &mut out, &mut err);
    drop(disk);
    drop(words);
    Printed {
        out: out.into_writer().bytes,
        err: err.into_writer().bytes,
        status,
    }
}

/// Command lines that come to the same.
#[derive(Clone, Copy)]
pub struct Asked {
    /// The lines. Single spaces part the words of a line.
    pub lines: &'static [&'static str],
    /// What is printed to standard output.
    pub printed: &'static str,
    /// What is printed to standard error.
    pub refused: &'static str,
    /// How many writes the outputs take.
    pub writes: Writes,
    /// The exit status.
    pub status: u8,
}

/// A row that prints nothing, with status 0.
pub const TAKEN: Asked = Asked {
    lines: &[],
    printed: "",
    refused: "",
    writes: AMPLE,
    status: 0,
};

/// A row that prints nothing, with status 2.
pub const REFUSED: Asked = Asked { status: 2, ..TAKEN };

/// The words that play the file `a.schedule`.
pub const PLAY: &str = "play a.schedule";

/// Splits a line into words. An empty line has none.
pub fn words_of(alloc: Global, line: &str) -> Result<Vec<&str>, AllocError> {
    let mut words = Vec::new(alloc);
    if !line.is_empty() {
        for word in line.split(' ') {
            words.push(word)?;
        }
    }
    Ok(words)
}

/// Tells whether a line over some files comes to what the row says.
pub fn comes_to(alloc: Global, files: &[&[File<'_>]], line: &str, row: &Asked) -> bool {
    let printed = print(alloc, files, line, row.writes);
    let wanted = row.printed.as_bytes();
    let right = printed.out.starts_with(wanted)
        && (!row.writes.whole || printed.out.len() == wanted.len())
        && printed.err.as_slice() == row.refused.as_bytes()
        && printed.status == row.status;
    drop(printed);
    right
}
