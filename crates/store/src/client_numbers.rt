//! Numbers of a client, and how long its transactions took to close.
ghost use Rattle.std.specs.Prelude.{◌≡◌, IfErr};

use crate::numbers::more;
use std::sync::atomic::{AtomicU64, Ordering};
use std::time::Duration;
use units::Fault;

/// The bounds of `ClientNumbers::closings`, in microseconds: each is four times the one before. The last is 17 seconds.
pub const CLOSING_BOUNDS: [u64; 9] = [
    256, 1_024, 4_096, 16_384, 65_536, 262_144, 1_048_576, 4_194_304, 16_777_216,
];

/// What a client has done since its store was opened. Counts begin at 0 with each opening.
#[derive(Clone, Copy, PartialEq, Eq)]
pub struct ClientNumbers {
    /// Calls of `Client::transact` and `Client::transact_within`.
    pub calls: u64,
    /// Attempts of these that have ended.
    pub attempts: u64,
    /// Attempts that committed.
    pub commits: u64,
    /// Attempts that were aborted or abandoned.
    pub aborts: u64,
    /// Attempts of whose end nobody told.
    pub unknown: u64,
    /// How many of those that committed closed within each of `CLOSING_BOUNDS` and not within the one before, and at last how many took longer.
    pub closings: [u64; 10],
    /// For how many microseconds all of these closed, together.
    pub closing_micros: u64,
    /// For how many microseconds the longest of these closed.
    pub longest: u64,
}

impl ClientNumbers {
    /// Gives how many attempts were made after a first one of a call.
    pub fn retries(&self) -> u64 {
        self.attempts.saturating_sub(self.calls)
    }

    /// Gives the least of `CLOSING_BOUNDS` within which so many of 100 closings took, or the longest if that is above all of these. `None` if
    /// none has closed.
    pub fn percentile(&self, percent: u64) -> Option<u64> {
        let mut left = u128::from(self.commits) * u128::from(percent.min(100));
        if self.commits == 0 {
            return None;
        }
        for (place, bound) in CLOSING_BOUNDS.iter().enumerate() {
            let within = u128::from(self.closings.get(place).copied().unwrap_or(0)) * 100;
            if left <= within {
                return Some(*bound);
            }
            left = left.saturating_sub(within);
        }
        Some(self.longest)
    }
}

// The counts of a client. Only the thread that has the client writes them.
#[derive(Drop)]
pub(crate) struct ClientCounts {
    calls: AtomicU64,
    attempts: AtomicU64,
    commits: AtomicU64,
    aborts: AtomicU64,
    unknown: AtomicU64,
    closings: [AtomicU64; 10],
    closing_micros: AtomicU64,
    longest: AtomicU64,
}

impl ClientCounts {
    pub(crate) fn new() -> ClientCounts {
        ClientCounts {
            calls: AtomicU64::new(0),
            attempts: AtomicU64::new(0),
            commits: AtomicU64::new(0),
            aborts: AtomicU64::new(0),
            unknown: AtomicU64::new(0),
            closings: [
                AtomicU64::new(0),
                AtomicU64::new(0),
                AtomicU64::new(0),
                AtomicU64::new(0),
                AtomicU64::new(0),
                AtomicU64::new(0),
                AtomicU64::new(0),
                AtomicU64::new(0),
                AtomicU64::new(0),
                AtomicU64::new(0),
            ],
            closing_micros: AtomicU64::new(0),
            longest: AtomicU64::new(0),
        }
    }

    /// Counts a call that runs a transaction.
    pub(crate) fn count_call(&self) {
        more(&self.calls, 1);
    }

    /// Counts an attempt that has ended, and how long it took to close, if it committed.
    pub(crate) fn count_attempt(
        &self,
        ended: &Result<client::Ended, Fault>,
        took: Option<Duration>,
    ) {
        more(&self.attempts, 1);
        match ended {
            Ok(client::Ended::Committed(_)) => {
                more(&self.commits, 1);
                self.count_closing(micros_of(took));
            }
            Ok(client::Ended::Aborted) => more(&self.aborts, 1),
            Ok(client::Ended::Unknown(_)) => more(&self.unknown, 1),
            Err(_) => {}
        }
    }

    fn count_closing(&self, micros: u64) {
        if let Some(count) = self.closings.get(place_of(micros)) {
            more(count, 1);
        }
        more(&self.closing_micros, micros);
        self.longest.fetch_max(micros, Ordering::SeqCst);
    }

    /// Reads them.
    pub(crate) fn read(&self) -> ClientNumbers {
        let mut closings = [0; 10];
        for (count, read) in closings.iter_mut().zip(&self.closings) {
            *count = read.load(Ordering::SeqCst);
        }
        ClientNumbers {
            calls: self.calls.load(Ordering::SeqCst),
            attempts: self.attempts.load(Ordering::SeqCst),
            commits: self.commits.load(Ordering::SeqCst),
            aborts: self.aborts.load(Ordering::SeqCst),
            unknown: self.unknown.load(Ordering::SeqCst),
            closings,
            closing_micros: self.closing_micros.load(Ordering::SeqCst),
            longest: self.longest.load(Ordering::SeqCst),
        }
    }
}

// A time in microseconds; 0 if the clock gave none.
fn micros_of(took: Option<Duration>) -> u64 {
    match took {
        Some(took) => u64::try_from(took.as_micros()).unwrap_or(u64::MAX),
        None => 0,
    }
}

// The place of the least bound that a time does not exceed, or the place after all.
fn place_of(micros: u64) -> usize {
    let mut place = 0_usize;
    for bound in &CLOSING_BOUNDS {
        if micros <= *bound {
            return place;
        }
        place = place.saturating_add(1);
    }
    place
}

// The names of the numbers that only rise.
static NAMES: [&'static str; 6] = [
    "calls", "attempts", "retries", "commits", "aborts", "unknown",
];

// The number of this name.
fn value_of(numbers: &ClientNumbers, name: &str) -> u64 {
    match name {
        "calls" => numbers.calls,
        "attempts" => numbers.attempts,
        "retries" => numbers.retries(),
        "commits" => numbers.commits,
        "aborts" => numbers.aborts,
        _ => numbers.unknown,
    }
}

/// Writes the numbers of clients as Prometheus reads them.
pub(crate) fn push_clients(text: &mut String, clients: &[ClientCounts]) -> Result<(), Fault>
    ensures { IfErr result (λ fault. fault ≡ Fault.Memory) }
{
    for name in &NAMES {
        let name = *name;
        write!(text, "# TYPE spanner_clients_{name} counter\n")?;
        for (client, counts) in clients.iter().enumerate() {
            let value = value_of(&counts.read(), name);
            write!(
                text,
                "spanner_clients_{name}{{client=\"{client}\"}} {value}\n"
            )?;
        }
    }
    write!(text, "# TYPE spanner_clients_closing_micros histogram\n")?;
    for (client, counts) in clients.iter().enumerate() {
        push_closings(text, client, &counts.read())?;
    }
    Ok(())
}

// Writes how long the closings of a client took: of each bound how many took as long at most, then their sum and their number.
fn push_closings(text: &mut String, client: usize, numbers: &ClientNumbers) -> Result<(), Fault>
    ensures { IfErr result (λ fault. fault ≡ Fault.Memory) }
{
    let name = "spanner_clients_closing_micros";
    let mut count = 0_u64;
    for (place, bound) in CLOSING_BOUNDS.iter().enumerate() {
        count = count.saturating_add(numbers.closings.get(place).copied().unwrap_or(0));
        write!(
            text,
            "{name}_bucket{{client=\"{client}\",le=\"{bound}\"}} {count}\n"
        )?;
    }
    let all = numbers.commits;
    let micros = numbers.closing_micros;
    write!(
        text,
        "{name}_bucket{{client=\"{client}\",le=\"+Inf\"}} {all}\n"
    )?;
    write!(text, "{name}_sum{{client=\"{client}\"}} {micros}\n")?;
    write!(text, "{name}_count{{client=\"{client}\"}} {all}\n")?;
    Ok(())
}
