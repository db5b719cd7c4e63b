//! The files of a runtime, of which one call fails.
use std::fmt::Display;
use std::fs::{File, Metadata, OpenOptions};
use std::io;
use std::random::RandomSource;
use std::rt::Files;
use std::sync::atomic::{AtomicU64, Ordering};

/// The files of a runtime, of which one call fails.
#[derive(Drop)]
pub struct Faulty<'r> {
    rt: &'r HostRuntime,
    calls: AtomicU64,
    fails: u64,
}

impl<'r> Faulty<'r> {
    /// The files of a runtime, of whose calls the one of this number fails, from 0.
    pub fn new(rt: &'r HostRuntime, fails: u64) -> Faulty<'r> {
        Faulty {
            rt,
            calls: AtomicU64::new(0),
            fails,
        }
    }

    // Counts a call, which fails if it is the one.
    fn call(&self) -> io::Result<()> {
        if self.calls.fetch_add(1, Ordering::SeqCst) == self.fails {
            Err(io::Error::from(io::ErrorKind::StorageFull))
        } else {
            Ok(())
        }
    }

    /// Whether the call was made that is to fail.
    pub fn has_failed(&self) -> bool {
        self.calls.load(Ordering::SeqCst) > self.fails
    }
}

impl Files for Faulty<'_> {
    type File = File;

    type Dir = <HostRuntime as Files>::Dir;

    fn open_file(&self, how: &OpenOptions, path: &str) -> io::Result<File> {
        self.call()?;
        self.rt.open_file(how, path)
    }

    fn open_dir(&self, path: &str) -> io::Result<Self::Dir> {
        self.call()?;
        self.rt.open_dir(path)
    }

    fn metadata(&self, path: &str) -> io::Result<Metadata> {
        self.call()?;
        self.rt.metadata(path)
    }

    fn symlink_metadata(&self, path: &str) -> io::Result<Metadata> {
        self.call()?;
        self.rt.symlink_metadata(path)
    }

    fn copy(&self, from: &str, to: &str) -> io::Result<u64> {
        self.call()?;
        self.rt.copy(from, to)
    }

    fn rename(&self, from: &str, to: &str) -> io::Result<()> {
        self.call()?;
        self.rt.rename(from, to)
    }

    fn remove_file(&self, path: &str) -> io::Result<()> {
        self.call()?;
        self.rt.remove_file(path)
    }

    fn create_dir(&self, path: &str) -> io::Result<()> {
        self.call()?;
        self.rt.create_dir(path)
    }

    fn remove_dir(&self, path: &str) -> io::Result<()> {
        self.call()?;
        self.rt.remove_dir(path)
    }

    fn remove_dir_all<B: std::alloc::Allocator>(&self, alloc: B, path: &str) -> io::Result<()> {
        self.call()?;
        self.rt.remove_dir_all(alloc, path)
    }
}

impl RandomSource for Faulty<'_> {
    fn fill_bytes(&self, buf: &mut [u8]) -> io::Result<()> {
        self.call()?;
        self.rt.fill_bytes(buf)
    }
}

impl Eprint for Faulty<'_> {
    fn eprint<D: Display + Drop>(&self, value: D) -> io::Result<()> {
        self.rt.eprint(value)
    }

    fn eprintln<D: Display + Drop>(&self, value: D) -> io::Result<()> {
        self.rt.eprintln(value)
    }
}
