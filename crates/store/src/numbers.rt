//! Numbers of a store while it is served, which any thread may read without a lock.
ghost use Rattle.std.specs.Prelude.{◌≡◌, IfErr};
ghost use Rattle.store.specs.Numbers.{is_commit};

use crate::client_numbers::{ClientCounts, ClientNumbers, push_clients};
use crate::retiring::Retiring;
use letters::{Gauges, Taken};
use message::{Answer, Envelope, Input, Message};
use std::alloc::Global;
use std::sync::Arc;
use std::sync::atomic::{AtomicU64, Ordering};
use units::Fault;

// So often a file is turned over at most.
const MOST_TURNOVERS: u64 = 1_024;

/// What a shard has done since its store was opened, and how it stands. Counts begin at 0 with each opening.
#[derive(Clone, Copy, PartialEq, Eq)]
pub struct ShardNumbers {
    /// Letters and chores that it took.
    pub taken: u64,
    /// Letters and chores that it refused.
    pub refused: u64,
    /// Transactions that it decided and settled: each commit is counted once, by the least shard that it wrote or read on.
    pub commits: u64,
    /// Answers by which it told a session that its transaction was aborted.
    pub aborts: u64,
    /// Answers by which it told a session that its transaction was ended while it read: an older one wanted a key of it (a wound).
    pub wounds: u64,
    /// Letters that waited for it when it was about to do its chores.
    pub waiting: u64,
    /// Transactions that read, wait, have promised or are decided here, when it last showed something: 1,024 at most.
    pub rows: u64,
    /// Versions that it holds.
    pub versions: u64,
    /// The greatest timestamp that it has assigned, applied or served, in microseconds.
    pub last: u64,
    /// The timestamp below which it answers no view, in microseconds; 0 if it never forgot.
    pub horizon: u64,
    /// The offset in its file, in bytes, at which its log ends, and the one at which the present area of the log begins.
    pub log_bytes: u64,
    pub area_begins: u64,
    /// How often its file was turned over since it was made: 1,024 times at most.
    pub turnovers: u64,
    /// The timestamp up to which it serves views, in microseconds; 0 until it first did.
    pub served: u64,
    /// How often it went on in serving views, and how often that was refused.
    pub advances: u64,
    pub late: u64,
    /// Whether it has stopped. It stops for one reason: its device failed.
    pub has_stopped: bool,
    /// How often its disk was opened again after it had stopped.
    pub restarts: u64,
    /// Transactions that it has promised to commit and of whose end it has not heard: 64 at most. They are counted ten times a second at most,
    /// and when it shows something.
    pub in_doubt: u64,
    /// The least timestamp at which it promised one of these, in microseconds; 0 if there is none.
    pub doubt_since: u64,
    /// How often it was asked to forget what is older than `Options::keep`, and was not refused.
    pub forgets: u64,
    /// How often it was asked to turn its log over if that has grown (`Options::renew`), and was refused.
    pub turnovers_refused: u64,
    /// The number of the fault by which that, or a request to forget, was refused last; 0 if none was.
    pub fault: u64,
}

// The counts of a shard. Only the thread that serves the shard writes them.
#[derive(Drop)]
pub(crate) struct ShardCounts {
    taken: AtomicU64,
    refused: AtomicU64,
    commits: AtomicU64,
    aborts: AtomicU64,
    wounds: AtomicU64,
    waiting: AtomicU64,
    rows: AtomicU64,
    versions: AtomicU64,
    last: AtomicU64,
    horizon: AtomicU64,
    log_bytes: AtomicU64,
    area_begins: AtomicU64,
    turnovers: AtomicU64,
    served: AtomicU64,
    advances: AtomicU64,
    late: AtomicU64,
    stopped: AtomicU64,
    restarts: AtomicU64,
    in_doubt: AtomicU64,
    doubt_since: AtomicU64,
    forgets: AtomicU64,
    turnovers_refused: AtomicU64,
    fault: AtomicU64,
}

impl ShardNumbers {
    /// Gives how many turnovers the file still takes.
    pub fn turnovers_left(&self) -> u64 {
        MOST_TURNOVERS.saturating_sub(self.turnovers)
    }
}

impl ShardCounts {
    fn new() -> ShardCounts {
        ShardCounts {
            taken: AtomicU64::new(0),
            refused: AtomicU64::new(0),
            commits: AtomicU64::new(0),
            aborts: AtomicU64::new(0),
            wounds: AtomicU64::new(0),
            waiting: AtomicU64::new(0),
            rows: AtomicU64::new(0),
            versions: AtomicU64::new(0),
            last: AtomicU64::new(0),
            horizon: AtomicU64::new(0),
            log_bytes: AtomicU64::new(0),
            area_begins: AtomicU64::new(0),
            turnovers: AtomicU64::new(0),
            served: AtomicU64::new(0),
            advances: AtomicU64::new(0),
            late: AtomicU64::new(0),
            stopped: AtomicU64::new(0),
            restarts: AtomicU64::new(0),
            in_doubt: AtomicU64::new(0),
            doubt_since: AtomicU64::new(0),
            forgets: AtomicU64::new(0),
            turnovers_refused: AtomicU64::new(0),
            fault: AtomicU64::new(0),
        }
    }

    /// Counts an input that was taken, and what it put out.
    pub(crate) fn count_taken(&self, input: &Input, out: &[Envelope]) {
        more(&self.taken, 1);
        if is_commit(input) {
            more(&self.commits, 1);
        }
        self.count_ends(out);
    }

    /// Counts inputs that were taken together, and what was due after them.
    pub(crate) fn count_all(&self, inputs: &[Input], taken: &Taken) {
        let mut told = taken.outboxes.iter();
        for (place, input) in inputs.iter().enumerate() {
            match taken.refusals.get(place) {
                Some(Some(_)) => self.count_refused(1),
                _ => match told.next() {
                    Some(out) => self.count_taken(input, out.as_slice()),
                    None => {}
                },
            }
        }
        for out in told {
            self.count_due(out.as_slice());
        }
    }

    // Counts what was due: a wait that was granted, or a transaction that was settled, which tells its session that it committed.
    fn count_due(&self, out: &[Envelope]) {
        more(&self.taken, 1);
        if tells_commit(out) {
            more(&self.commits, 1);
        }
        self.count_ends(out);
    }

    // Counts the sessions that messages tell of an abort or a wound.
    fn count_ends(&self, out: &[Envelope]) {
        for envelope in out {
            if is_abort(&envelope.message) {
                more(&self.aborts, 1);
            }
            if is_wound(&envelope.message) {
                more(&self.wounds, 1);
            }
        }
    }

    /// Counts so many inputs that were refused.
    pub(crate) fn count_refused(&self, count: u64) {
        more(&self.refused, count);
    }

    /// Takes over how many letters wait.
    pub(crate) fn set_waiting(&self, letters: u64) {
        self.waiting.store(letters, Ordering::SeqCst);
    }

    /// Counts that a board shows new things: up to which timestamp views are served then, if it was not refused. And takes over how the shard
    /// stands.
    pub(crate) fn count_shown(&self, served: Option<u64>, gauges: &Gauges) {
        match served {
            Some(served) => {
                more(&self.advances, 1);
                self.served.store(served, Ordering::SeqCst);
            }
            None => more(&self.late, 1),
        }
        self.take_over(gauges);
    }

    fn take_over(&self, gauges: &Gauges) {
        self.rows.store(gauges.rows as u64, Ordering::SeqCst);
        self.versions
            .store(gauges.versions as u64, Ordering::SeqCst);
        self.last.store(gauges.last.micros(), Ordering::SeqCst);
        self.horizon
            .store(gauges.horizon.micros(), Ordering::SeqCst);
        self.log_bytes.store(gauges.log_ends, Ordering::SeqCst);
        self.area_begins.store(gauges.area_begins, Ordering::SeqCst);
        self.turnovers.store(gauges.turnovers, Ordering::SeqCst);
        self.stopped
            .store(number_of(gauges.is_stopped), Ordering::SeqCst);
    }

    /// Takes over how many transactions are in doubt, and since which timestamp.
    pub(crate) fn set_in_doubt(&self, count: u64, since: u64) {
        self.in_doubt.store(count, Ordering::SeqCst);
        self.doubt_since.store(since, Ordering::SeqCst);
    }

    /// Counts a request to forget, and why it was refused, if it was.
    pub(crate) fn count_forget(&self, asked: &Result<(), Fault>) {
        match asked {
            Ok(()) => more(&self.forgets, 1),
            Err(fault) => self
                .fault
                .store(u64::from(fault.number()), Ordering::SeqCst),
        }
    }

    /// Counts a request to turn the log over if it has grown, if that was refused, and why.
    pub(crate) fn count_turnover(&self, asked: &Result<(), Fault>) {
        if let Err(fault) = asked {
            more(&self.turnovers_refused, 1);
            self.fault
                .store(u64::from(fault.number()), Ordering::SeqCst);
        }
    }

    /// Counts that its disk was opened again.
    pub(crate) fn count_restart(&self) {
        more(&self.restarts, 1);
        self.stopped.store(0, Ordering::SeqCst);
    }

    fn read(&self) -> ShardNumbers {
        ShardNumbers {
            taken: self.taken.load(Ordering::SeqCst),
            refused: self.refused.load(Ordering::SeqCst),
            commits: self.commits.load(Ordering::SeqCst),
            aborts: self.aborts.load(Ordering::SeqCst),
            wounds: self.wounds.load(Ordering::SeqCst),
            waiting: self.waiting.load(Ordering::SeqCst),
            rows: self.rows.load(Ordering::SeqCst),
            versions: self.versions.load(Ordering::SeqCst),
            last: self.last.load(Ordering::SeqCst),
            horizon: self.horizon.load(Ordering::SeqCst),
            log_bytes: self.log_bytes.load(Ordering::SeqCst),
            area_begins: self.area_begins.load(Ordering::SeqCst),
            turnovers: self.turnovers.load(Ordering::SeqCst),
            served: self.served.load(Ordering::SeqCst),
            advances: self.advances.load(Ordering::SeqCst),
            late: self.late.load(Ordering::SeqCst),
            has_stopped: self.stopped.load(Ordering::SeqCst) != 0,
            restarts: self.restarts.load(Ordering::SeqCst),
            in_doubt: self.in_doubt.load(Ordering::SeqCst),
            doubt_since: self.doubt_since.load(Ordering::SeqCst),
            forgets: self.forgets.load(Ordering::SeqCst),
            turnovers_refused: self.turnovers_refused.load(Ordering::SeqCst),
            fault: self.fault.load(Ordering::SeqCst),
        }
    }
}

// 1 for yes, 0 for no.
fn number_of(yes: bool) -> u64 {
    if yes { 1 } else { 0 }
}

// Raises a count that nobody else writes.
pub(crate) fn more(count: &AtomicU64, by: u64) {
    let before = count.load(Ordering::SeqCst);
    count.store(before.saturating_add(by), Ordering::SeqCst);
}

// An input that was taken is a commit of this shard's: it settles a transaction that it decided.
fn is_commit(input: &Input) -> bool
    ensures { result ≡ is_commit input.now }
{
    matches!(input, Input::Settle(_))
}

// Tells whether a session is told that its transaction committed.
fn tells_commit(out: &[Envelope]) -> bool {
    for envelope in out {
        if is_committed(&envelope.message) {
            return true;
        }
    }
    false
}

fn is_committed(message: &Message) -> bool {
    match message {
        Message::Done(done) => done.outcome().is_some(),
        _ => false,
    }
}

fn is_abort(message: &Message) -> bool {
    match message {
        Message::Done(done) => done.outcome().is_none(),
        _ => false,
    }
}

fn is_wound(message: &Message) -> bool {
    match message {
        Message::ReadAnswer(answer) => matches!(answer.answer, Answer::Refused),
        _ => false,
    }
}

/// The numbers of a store that is served. Any thread may read them at any time, without a lock; each number is right by itself, and they are not of
/// one moment together. Beside them it has of which transactions the store still speaks.
#[derive(Drop)]
pub struct Numbers {
    alloc: Global,
    shards: Vec<ShardCounts>,
    clients: Vec<ClientCounts>,
    retiring: Retiring,
}

impl Numbers {
    /// Nothing was counted yet, of so many shards and clients.
    pub(crate) fn new(alloc: Global, shards: usize, clients: usize) -> Result<Numbers, Fault>
        ensures { IfErr result (λ fault. fault ≡ Fault.Memory) }
    {
        let mut counts = Vec::new(alloc);
        for _shard in 0..shards {
            counts.push(ShardCounts::new())?;
        }
        let mut of_clients = Vec::new(alloc);
        for _client in 0..clients {
            of_clients.push(ClientCounts::new())?;
        }
        Ok(Numbers {
            alloc,
            shards: counts,
            clients: of_clients,
            retiring: Retiring::new(alloc, shards, clients)?,
        })
    }

    pub(crate) fn retiring(&self) -> &Retiring {
        &self.retiring
    }

    pub(crate) fn counts(&self, shard: usize) -> Option<&ShardCounts> {
        self.shards.get(shard)
    }

    pub(crate) fn counts_of_client(&self, client: usize) -> Option<&ClientCounts> {
        self.clients.get(client)
    }

    /// Tells how many shards there are.
    pub fn shards(&self) -> usize {
        self.shards.len()
    }

    /// Reads the numbers of a shard. `None` if there is none of that number.
    pub fn of(&self, shard: usize) -> Option<ShardNumbers> {
        match self.shards.get(shard) {
            Some(counts) => Some(counts.read()),
            None => None,
        }
    }

    /// Tells how many clients there are.
    pub fn clients(&self) -> usize {
        self.clients.len()
    }

    /// Reads the numbers of a client. `None` if there is none of that number.
    pub fn of_client(&self, client: usize) -> Option<ClientNumbers> {
        match self.clients.get(client) {
            Some(counts) => Some(counts.read()),
            None => None,
        }
    }

    /// Writes all numbers as a text that Prometheus reads: for each its kind, and a line for each shard or client. How long closings took is a
    /// histogram for each client.
    pub fn text(&self) -> Result<String, Fault>
        ensures { IfErr result (λ fault. fault ≡ Fault.Memory) }
    {
        let mut text = String::new(self.alloc);
        for name in &COUNTS {
            self.push(&mut text, *name, "counter")?;
        }
        for name in &GAUGES {
            self.push(&mut text, *name, "gauge")?;
        }
        push_clients(&mut text, &self.clients)?;
        Ok(text)
    }

    // Adds one number of all shards.
    fn push(&self, text: &mut String, name: &str, kind: &str) -> Result<(), Fault>
        ensures { IfErr result (λ fault. fault ≡ Fault.Memory) }
    {
        write!(text, "# TYPE spanner_shards_{name} {kind}\n")?;
        for (shard, counts) in self.shards.iter().enumerate() {
            let value = value_of(&counts.read(), name);
            write!(text, "spanner_shards_{name}{{shard=\"{shard}\"}} {value}\n")?;
        }
        Ok(())
    }
}

/// Makes the numbers of so many shards and clients, of which nothing was counted yet.
pub(crate) fn numbers_of(
    alloc: Global,
    shards: usize,
    clients: usize,
) -> Result<Arc<Numbers, Global>, Fault>
    ensures { IfErr result (λ fault. fault ≡ Fault.Memory) }
{
    let numbers = Numbers::new(alloc, shards, clients)?;
    Ok(Arc::new(alloc, numbers)?)
}

// The names of the numbers that only rise.
static COUNTS: [&'static str; 10] = [
    "taken",
    "refused",
    "commits",
    "aborts",
    "wounds",
    "advances",
    "late",
    "forgets",
    "turnovers_refused",
    "restarts",
];

// The names of those that tell how a shard stands.
static GAUGES: [&'static str; 13] = [
    "waiting",
    "rows",
    "versions",
    "served",
    "last",
    "horizon",
    "log_bytes",
    "area_begins",
    "turnovers",
    "stopped",
    "in_doubt",
    "doubt_since",
    "fault",
];

// The number of this name.
fn value_of(numbers: &ShardNumbers, name: &str) -> u64 {
    match name {
        "taken" => numbers.taken,
        "refused" => numbers.refused,
        "commits" => numbers.commits,
        "aborts" => numbers.aborts,
        "wounds" => numbers.wounds,
        "waiting" => numbers.waiting,
        "rows" => numbers.rows,
        "versions" => numbers.versions,
        "last" => numbers.last,
        "horizon" => numbers.horizon,
        "log_bytes" => numbers.log_bytes,
        "area_begins" => numbers.area_begins,
        "turnovers" => numbers.turnovers,
        "served" => numbers.served,
        "advances" => numbers.advances,
        "late" => numbers.late,
        "in_doubt" => numbers.in_doubt,
        "doubt_since" => numbers.doubt_since,
        "forgets" => numbers.forgets,
        "turnovers_refused" => numbers.turnovers_refused,
        "restarts" => numbers.restarts,
        "fault" => numbers.fault,
        _ => number_of(numbers.has_stopped),
    }
}
