//! Cores and desks that are asked and turned over: their answers, what the file then holds, and what an opening finds in it.
use crate::answers::{Told, is_told};
use crate::cores::{Setting, bytes_on, core_of, plain};
use crate::given::{Given, input_of, reading};
use crate::logs::{Line, with_log};
use board::Viewer;
use disk::{Disk, Fate};
use made::{WrongRows, key, stamp, with_slots};
use message::{Input, Outbox};
use node::{Core, Desk};
use simdisk::{Choice, SimDisk};
use std::alloc::Global;
use std::process::Abort;
use std::sync::Wait;
use truetime::Reading;
use units::{Fault, Seen};

// What is seen at a key: one byte, 0 if there is none, or why nothing is seen.
type Sees = Result<u8, Fault>;

/// A question, with the expected answer.
#[derive(Clone, Copy)]
pub enum Ask {
    Given(Given, Told),
    Turn(Result<(), Fault>),
    // The key is one letter, looked up at a time.
    Look(u8, u32, Sees),
    // The rest is asked of desks alone. This keeps versions for so many microseconds, and turns over a log that has grown by so many bytes.
    Renew(u64, u64, Result<(), Fault>),
    Advance(u32),
    // Forgets what is older than this many microseconds.
    KeepFor(u64, Result<(), Fault>),
    // Lets versions go that the horizon has passed: whether the board had all.
    LetGo(bool),
    // What the viewer sees.
    View(u8, u32, Sees),
    // The end of the log, and the horizon.
    Gate(u64),
    Horizon(u64),
    // How many versions the core has.
    Versions(usize),
}

/// The two ends of a reading, and the question at it.
pub type Asked = (u64, u64, Ask);

/// A file without its slots, and the first two slots.
pub struct Bytes {
    pub told: &'static [u8],
    pub slots: [u8; 18],
}

/// A shard with its questions, what its file holds then, and what an opening after that finds.
#[derive(Clone, Copy)]
pub struct Row {
    pub name: &'static str,
    pub shard: u8,
    // No slot is left: each names an area without a record.
    pub is_spent: bool,
    // A device call that will fail, counted from the first write after the opening.
    pub fails: Option<u64>,
    pub before: &'static [Asked],
    pub asks: &'static [Asked],
    // The bytes of the file, or its length.
    pub bytes: Option<&'static Bytes>,
    pub size: Option<u64>,
    // The fate of the change that is not synced, if there is a crash then.
    pub fate: Option<Fate>,
    pub log: &'static [Line],
    // What is asked after the shard is opened again, and what the log then holds after the lines of `log`.
    pub again: &'static [Asked],
    pub then: &'static [Line],
}

/// What is asked: a core, or a desk with a viewer. Code that asks both knows no more than this of either, which costs less to prove.
pub trait Asks {
    /// Gives it an input, and returns the answer.
    fn give(&mut self, alloc: Global, now: &Reading, input: &Input) -> Result<Outbox, Fault>;

    /// Tells whether any other question is answered as expected.
    fn is_served(&mut self, alloc: Global, now: &Reading, ask: Ask) -> bool;

    /// Ends it, and returns its disk.
    fn ended(self) -> SimDisk;
}

// A desk with a viewer.
struct Watched<'a, R: Wait> {
    desk: Desk<SimDisk, &'a R>,
    viewers: Vec<Viewer>,
}

/// A core or a desk.
#[derive(Clone, Copy)]
pub enum Kind {
    Core,
    Desk,
}

// The desk of a core.
fn desk_of<'a, R: Wait + Abort>(rt: &'a R, alloc: Global, core: Core<SimDisk>) -> Watched<'a, R> {
    match Desk::new(rt, alloc, core, 1) {
        Ok((desk, viewers)) => Watched { desk, viewers },
        Err((_, core)) => {
            drop(core.stop());
            rt.panic("no desk")
        }
    }
}

// What a look comes to, with the buffer that it was given.
fn sees(seen: Result<Seen, Fault>, buffer: &[u8]) -> Sees {
    match seen {
        Ok(Seen::Absent) => Ok(0),
        Ok(Seen::Value(_)) => match buffer.first() {
            Some(first) => Ok(*first),
            None => Ok(0),
        },
        Err(fault) => Err(fault),
    }
}

// Whether a core shows this.
fn is_shown(core: &Core<SimDisk>, ask: Ask) -> bool {
    match ask {
        Ask::Look(letter, at, wanted) => {
            let mut buffer = [9u8; 4];
            let seen = core.look(&key(letter), stamp(at), &mut buffer);
            sees(seen, &buffer) == wanted
        }
        Ask::Gate(gate) => core.gate() == gate,
        Ask::Horizon(at) => core.horizon().micros() == at,
        Ask::Versions(count) => core.installs().len() == count,
        _ => false,
    }
}

// Whether a viewer sees this.
fn is_viewed(viewers: &mut [Viewer], letter: u8, at: u32, wanted: Sees) -> bool {
    match viewers.first_mut() {
        Some(viewer) => {
            let mut buffer = [9u8; 4];
            let seen = viewer.look(&key(letter), stamp(at), &mut buffer);
            sees(seen, &buffer) == wanted
        }
        None => false,
    }
}

impl Asks for Core<SimDisk> {
    fn give(&mut self, alloc: Global, now: &Reading, input: &Input) -> Result<Outbox, Fault> {
        self.on(alloc, now, input)
    }

    fn is_served(&mut self, alloc: Global, _now: &Reading, ask: Ask) -> bool {
        match ask {
            Ask::Turn(wanted) => self.turn_over(alloc) == wanted,
            ask => is_shown(self, ask),
        }
    }

    fn ended(self) -> SimDisk {
        self.stop()
    }
}

impl<R: Wait> Asks for Watched<'_, R> {
    fn give(&mut self, _alloc: Global, now: &Reading, input: &Input) -> Result<Outbox, Fault> {
        self.desk.deliver(now, input)
    }

    fn is_served(&mut self, _alloc: Global, now: &Reading, ask: Ask) -> bool {
        match ask {
            Ask::Turn(wanted) => self.desk.turn_over() == wanted,
            Ask::Renew(micros, least, wanted) => self.desk.renew(now, micros, least) == wanted,
            Ask::KeepFor(micros, wanted) => self.desk.keep_for(now, micros) == wanted,
            Ask::LetGo(wanted) => self.desk.let_go() == Ok(wanted),
            Ask::Advance(to) => match self.desk.advance(now, stamp(to)) {
                Ok(told) => told.safe() == stamp(to),
                Err(_) => false,
            },
            Ask::View(letter, at, wanted) => is_viewed(&mut self.viewers, letter, at, wanted),
            ask => is_shown(self.desk.core(), ask),
        }
    }

    fn ended(self) -> SimDisk {
        let Watched { desk, viewers } = self;
        drop(viewers);
        desk.close()
    }
}

// Whether the question is answered as expected.
fn is_answered<S: Asks>(rt: &impl Abort, alloc: Global, shard: &mut S, asked: &Asked) -> bool {
    let now = reading(rt, asked.0, asked.1);
    match asked.2 {
        Ask::Given(given, wanted) => {
            let input = input_of(rt, alloc, given);
            let answer = shard.give(alloc, &now, &input);
            drop(input);
            is_told(answer, wanted)
        }
        ask => shard.is_served(alloc, &now, ask),
    }
}

fn ask_all<S: Asks>(
    wrong: &mut WrongRows,
    rt: &impl Abort,
    alloc: Global,
    shard: &mut S,
    name: &str,
    asks: &[Asked],
) {
    for (place, asked) in asks.iter().enumerate() {
        let held = is_answered(rt, alloc, shard, asked);
        wrong.unless_at(held, name, place as u64);
    }
}

// The disk of a core or desk that was asked all of these, first `before` and then `asks`.
fn left_by<S: Asks>(
    wrong: &mut WrongRows,
    rt: &impl Abort,
    alloc: Global,
    shard: S,
    name: &str,
    before: &[Asked],
    asks: &[Asked],
) -> SimDisk {
    let mut shard = shard;
    ask_all(wrong, rt, alloc, &mut shard, name, before);
    ask_all(wrong, rt, alloc, &mut shard, name, asks);
    shard.ended()
}

/// Opens the shard of a disk, asks it all of these, and returns its disk.
pub fn left<R: Wait + Abort>(
    wrong: &mut WrongRows,
    rt: &R,
    alloc: Global,
    kind: Kind,
    disk: SimDisk,
    setting: Setting,
    name: &str,
    before: &[Asked],
    asks: &[Asked],
) -> SimDisk {
    let core = core_of(rt, alloc, disk, setting);
    match kind {
        Kind::Core => left_by(wrong, rt, alloc, core, name, before, asks),
        Kind::Desk => {
            let desk = desk_of(rt, alloc, core);
            left_by(wrong, rt, alloc, desk, name, before, asks)
        }
    }
}

// The bytes of a file with these first two slots.
fn bytes_of(rt: &impl Abort, alloc: Global, told: &Bytes) -> Vec<u8> {
    let mut bytes = with_slots(alloc, told.told).ok().expect(rt, "memory");
    for (place, byte) in bytes.iter_mut().skip(8).zip(told.slots) {
        *place = byte;
    }
    bytes
}

/// Checks that the disk holds this file.
pub fn compare_bytes(
    wrong: &mut WrongRows,
    rt: &impl Abort,
    alloc: Global,
    disk: &mut SimDisk,
    name: &str,
    wanted: &Bytes,
) {
    let bytes = bytes_on(rt, alloc, disk);
    let told_bytes = bytes_of(rt, alloc, wanted);
    let same = bytes.as_slice() == told_bytes.as_slice();
    drop(told_bytes);
    drop(bytes);
    wrong.unless_at(same, name, disk.len());
}

/// Crashes the disk, with this fate of the oldest change that is not synced. Without a fate the disk stays, and no call of it will fail.
pub fn crashed(rt: &impl Abort, alloc: Global, disk: SimDisk, fate: Option<Fate>) -> SimDisk {
    let mut disk = disk;
    disk.arm(None);
    let Some(fate) = fate else {
        return disk;
    };
    let fates = vec![in alloc; fate].ok().expect(rt, "memory");
    let choice = Choice::from_vec(fates);
    let disk = disk.crash(&choice);
    drop(choice);
    disk
}

/// Checks that the disk of a shard is as the row says. It crashes if the row says so, is opened again, and asked once more.
pub fn found<R: Wait + Abort>(
    wrong: &mut WrongRows,
    rt: &R,
    alloc: Global,
    kind: Kind,
    disk: SimDisk,
    row: &Row,
) {
    let name = row.name;
    let mut disk = disk;
    if let Some(wanted) = row.bytes {
        compare_bytes(wrong, rt, alloc, &mut disk, name, wanted);
    }
    if let Some(size) = row.size {
        wrong.unless_at(disk.len() == size, name, disk.len());
    }
    let disk = crashed(rt, alloc, disk, row.fate);
    let disk = with_log(wrong, alloc, disk, name, row.log, &[]);
    let again = plain(row.shard, 0);
    let disk = left(wrong, rt, alloc, kind, disk, again, name, &[], row.again);
    drop(with_log(wrong, alloc, disk, name, row.log, row.then));
}

/// Asks the shard of a disk what the row says, opens it again, and asks it once more.
pub fn go_on<R: Wait + Abort>(
    wrong: &mut WrongRows,
    rt: &R,
    alloc: Global,
    kind: Kind,
    disk: SimDisk,
    row: &Row,
) {
    let setting = Setting {
        fails: row.fails,
        ..plain(row.shard, 0)
    };
    let (name, before, asks) = (row.name, row.before, row.asks);
    let disk = left(wrong, rt, alloc, kind, disk, setting, name, before, asks);
    found(wrong, rt, alloc, kind, disk, row);
}
