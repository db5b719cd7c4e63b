//! The machine's files, as commands ask for them.
use crate::causes::Noted;
use crate::folder::{Expected, refusal_in};
use crate::log_file::{LogFile, at_one_moment};
use crate::names::read_front;
use crate::refused::{Refused, RefusedIn};
use filedisk::Cause;
use std::alloc::Global;
use std::cell::Cell;
use std::fs::File;
use std::rt;
use system::{Files, Note};
use units::{Fault, Splits};

/// The files of the machine. Texts are read as they are, and links are followed. Logs are opened to be read alone, each as it stands at one
/// moment. `create` makes a file, and nothing else does. Notes go to standard error, if that is watched.
#[derive(Drop)]
pub struct HostFiles<'r, R> {
    /// The runtime, through which the system is asked.
    pub rt: &'r R,
    /// Standard error is a terminal.
    pub is_watched: bool,
    /// Why the store that a command was over was refused, if that was noted.
    pub noted: Option<&'r Noted>,
    /// Why the last file that was to be made was not.
    unmade: Cell<Option<Cause>>,
}

impl<'r, R> HostFiles<'r, R> {
    /// Creates the files of a runtime. `is_watched` says whether notes are printed.
    pub fn new(rt: &'r R, is_watched: bool) -> HostFiles<'r, R> {
        HostFiles {
            rt,
            is_watched,
            noted: None,
            unmade: Cell::new(None),
        }
    }

    fn last_noted(&self) -> Option<Refused> {
        self.noted?.last()
    }
}

impl<R: rt::Files<File = File> + Eprint> Files for HostFiles<'_, R> {
    type Log = LogFile;

    fn read(&self, alloc: Global, path: &str, most: u64) -> Result<Vec<u8>, Fault> {
        match read_front(self.rt, alloc, path, most) {
            Ok(bytes) => Ok(bytes),
            Err(refused) => Err(refused.fault),
        }
    }

    fn create(&self, _alloc: Global, path: &str) -> Result<LogFile, Fault> {
        match LogFile::create(self.rt, path) {
            Ok(log) => Ok(log),
            Err(cause) => {
                self.unmade.set(Some(cause));
                Err(Fault::from(cause))
            }
        }
    }

    fn open(&self, alloc: Global, path: &str) -> Result<LogFile, Fault> {
        match LogFile::open(self.rt, alloc, path) {
            Ok(log) => Ok(log),
            Err(refused) => Err(refused.fault),
        }
    }

    fn at_one_moment(&self, alloc: Global, logs: &mut [LogFile]) -> Result<(), Fault> {
        at_one_moment(self.rt, alloc, logs)
    }

    fn why(&self, alloc: Global, path: &str) -> Option<String> {
        let why = read_front(self.rt, alloc, path, 0).err()?.why?;
        format!(in alloc; "{why}").ok()
    }

    fn why_unopened(&self, alloc: Global, folder: &str, splits: &Splits) -> Option<String> {
        let refused = match self.last_noted() {
            Some(refused) if refused.is_explained() => refused,
            _ => refusal_in(self.rt, alloc, folder, splits, Expected::Either)?,
        };
        if !refused.is_explained() {
            return None;
        }
        let told = RefusedIn { folder, refused };
        format!(in alloc; "{told}").ok()
    }

    fn why_unmade(&self, alloc: Global) -> Option<String> {
        let cause = self.unmade.get()?;
        format!(in alloc; "{cause}").ok()
    }

    fn give_back(&self, log: LogFile) {
        self.unmade.set(log.cause());
        drop(log);
    }

    fn wants_notes(&self) -> bool {
        self.is_watched
    }

    fn tell(&self, note: Note) {
        if self.is_watched {
            let _told = self.rt.eprintln(note);
        }
    }
}
