//! A write and a drive by a clock that goes on by whole hundredths of a second: timestamps tell the epsilon.
use crate::command_lines::{
    DONE, EMPTY, MANIFEST, Output, Step, furnished, lent, prints, put, put_log, words_of,
};
use crate::verdict::end;
use made::{Folder, WrongRows};
use std::alloc::Allocator;
use std::fmt::Display;
use std::fs::{Metadata, OpenOptions};
use std::io;
use std::io::{Input, Lines};
use std::random::RandomSource;
use std::rt::{Clock, Files};
use std::sync::Wait;
use std::thread::Threads;
use std::time::Duration;

// A runtime, but for its clock.
#[derive(Drop)]
struct Coarse<'r, R> {
    rt: &'r R,
}

impl<R: Clock> Clock for Coarse<'_, R> {
    fn monotonic(&self) -> io::Result<Duration> {
        self.rt.monotonic()
    }

    // The last whole hundredth of a second.
    fn since_1970(&self) -> io::Result<Duration> {
        let since = self.rt.since_1970()?;
        let millis = u64::try_from(since.as_millis()).unwrap_or(0);
        Ok(Duration::from_millis((millis / 10).saturating_mul(10)))
    }

    fn sleep(&self, duration: Duration) {
        self.rt.sleep(duration)
    }
}

impl<R: Wait> Wait for Coarse<'_, R> {}

impl<R: Threads> Threads for Coarse<'_, R> {}

impl<R: Eprint> Eprint for Coarse<'_, R> {
    fn eprint<D: Display + Drop>(&self, value: D) -> io::Result<()> {
        self.rt.eprint(value)
    }

    fn eprintln<D: Display + Drop>(&self, value: D) -> io::Result<()> {
        self.rt.eprintln(value)
    }
}

impl<R: Input> Input for Coarse<'_, R> {
    type Reader = R::Reader;

    fn read_line<A: Allocator + Clone>(&self, buf: &mut String<A>) -> io::Result<usize> {
        self.rt.read_line(buf)
    }

    fn lines<A: Allocator>(&self, alloc: A) -> Lines<R::Reader, A> {
        self.rt.lines(alloc)
    }

    fn reader(&self) -> R::Reader {
        self.rt.reader()
    }
}

impl<R: RandomSource> RandomSource for Coarse<'_, R> {
    fn fill_bytes(&self, buf: &mut [u8]) -> io::Result<()> {
        self.rt.fill_bytes(buf)
    }
}

impl<R: Files> Files for Coarse<'_, R> {
    type File = R::File;

    type Dir = R::Dir;

    fn open_file(&self, how: &OpenOptions, path: &str) -> io::Result<R::File> {
        self.rt.open_file(how, path)
    }

    fn open_dir(&self, path: &str) -> io::Result<R::Dir> {
        self.rt.open_dir(path)
    }

    fn metadata(&self, path: &str) -> io::Result<Metadata> {
        self.rt.metadata(path)
    }

    fn symlink_metadata(&self, path: &str) -> io::Result<Metadata> {
        self.rt.symlink_metadata(path)
    }

    fn copy(&self, from: &str, to: &str) -> io::Result<u64> {
        self.rt.copy(from, to)
    }

    fn rename(&self, from: &str, to: &str) -> io::Result<()> {
        self.rt.rename(from, to)
    }

    fn remove_file(&self, path: &str) -> io::Result<()> {
        self.rt.remove_file(path)
    }

    fn create_dir(&self, path: &str) -> io::Result<()> {
        self.rt.create_dir(path)
    }

    fn remove_dir(&self, path: &str) -> io::Result<()> {
        self.rt.remove_dir(path)
    }

    fn remove_dir_all<B: Allocator>(&self, alloc: B, path: &str) -> io::Result<()> {
        self.rt.remove_dir_all(alloc, path)
    }
}

// By this clock a reading ends an epsilon after a whole hundredth of a second. A commit of an empty store is one microsecond later.
const PUT: Step = Step {
    output: Output::CommittedBehind(1_001),
    ..DONE
};

// What a drive of one worker over files is asked for, but for its folder. No ceiling lies ahead of what is served.
const SETTINGS: &str =
    "shards = 2\nsplits = [\"k0005\"]\nstride = 0\nepsilon = 2000\nworkers = 1\ntransactions = 20\nkeys = 10\n";

// A commit waits for the next hundredth, so few of them have one reading.
static DRIVEN: [Step; 2] = [
    Step {
        lines: &["drive ./coarse.settings"],
        output: Output::Driven(20),
        ..DONE
    },
    Step {
        lines: &["dump ./shard-0.log", "dump ./shard-1.log"],
        output: Output::OutcomesFrom(2_000),
        ..DONE
    },
];

// Fails if the store that a write is put to has no epsilon, or another one than 1,000 microseconds.
#[test]
fn a_put_by_a_coarse_clock(rt: HostRuntime) {
    let folder = furnished(&rt, &rt);
    put(&rt, &rt, &folder, "store.toml", MANIFEST);
    put_log(&rt, &rt, &folder, "shard-0.log", EMPTY);
    put_log(&rt, &rt, &folder, "shard-1.log", EMPTY);
    let mut wrong = WrongRows::none(rt.alloc());
    let line = "put ./. k0001 once";
    let whole = words_of(&rt, &rt, &folder, line);
    let words = lent(&rt, rt.alloc(), whole.as_slice());
    let right = prints(&Coarse { rt: &rt }, rt.alloc(), words.as_slice(), &PUT);
    drop(words);
    drop(whole);
    wrong.unless(right, line);
    wrong.unless(folder.remove(&rt), "the folder");
    end(&rt, wrong);
}

// Fails if the nodes of a drive are served by a clock without the epsilon of its settings.
#[test]
fn a_drive_by_a_coarse_clock(rt: HostRuntime) {
    let folder = furnished(&rt, &rt);
    let dir = folder.path(rt.alloc(), ".").ok().expect(&rt, "memory");
    let text = format!(in rt.alloc(); "{SETTINGS}dir = \"{dir}\"\n");
    drop(dir);
    let text = text.ok().expect(&rt, "settings");
    put(&rt, &rt, &folder, "coarse.settings", text.as_bytes());
    drop(text);
    let mut wrong = WrongRows::none(rt.alloc());
    for step in &DRIVEN {
        for line in step.lines {
            let whole = words_of(&rt, &rt, &folder, line);
            let words = lent(&rt, rt.alloc(), whole.as_slice());
            let right = prints(&Coarse { rt: &rt }, rt.alloc(), words.as_slice(), step);
            drop(words);
            drop(whole);
            wrong.unless(right, line);
        }
    }
    wrong.unless(folder.remove(&rt), "the folder");
    end(&rt, wrong);
}
