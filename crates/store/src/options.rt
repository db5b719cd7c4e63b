//! How a store is parted and served.
ghost use Rattle.std.specs.Prelude.{◌≡◌, ◌⊎◌, ◌+◌, ◌<◌, ◌≤◌, Err, IfErr, IfOk, None, Some, false};

use host_files::Limit;
use units::{Fault, Reason, Splits, Stamp, Stride};

/// How a store is parted over shards, and how it is served.
#[derive(Drop)]
pub struct Options {
    /// The keys that part the shards: one shard more than there are.
    pub splits: Splits,
    /// How far ahead of its served time each shard that is looked at logs a ceiling, in microseconds. After a crash or a restart nothing
    /// commits until the clock has passed the last ceiling, up to a stride later. With a small stride a shard that is looked at logs more of
    /// them. A shard that is only written to logs none.
    pub stride: Stride,
    /// How far the true time may be from the machine's clock on either side: 0 to 1,000,000 microseconds. A commit waits twice as long.
    pub epsilon: u64,
    /// How many clients work at the same time: 1 to 64.
    pub clients: u64,
    /// How many rounds the first attempt of a transaction waits for others, and up to three more by the client's number. Each further attempt
    /// waits one more, and 100 at most. In a round all its shards say that it waits. It takes 20 milliseconds, or longer if they say so later. So
    /// transactions that wait for each other end soon, and none is given up for a long queue.
    pub patience: u32,
    /// For how many milliseconds a client waits for a shard that says nothing, or nothing new of what it has decided. Then a transaction that
    /// closes is `Unknown`.
    pub give_up: u64,
    /// For how many microseconds a shard keeps what its keys were before, so that views which are no older are answered; or `None`, for good.
    /// A shard that is written to or looked at forgets now and then what is older. A view of that is refused as `TooOld`, for good, also
    /// if the store is opened again by other options.
    pub keep: Option<u64>,
    /// By how many bytes the log of a shard has to grow before it is turned over, in its file, into one of what the shard holds. It also has
    /// to be more than twice as long as it was after the last turnover of this opening. Or `None`, never. A file takes 1,024 turnovers: of a few
    /// bytes they are soon spent, and then its log grows on.
    pub renew: Option<u64>,
    /// How far into its file a log may begin, in bytes, when it is turned over. If it begins farther, and farther than twice what it held, it goes on
    /// in a new file, which gets the name of the former one: so files stay small. Or `None`: they do not shrink. A store that was opened over disks
    /// (`Store::open`) stays in them.
    pub shrink: Option<u64>,
    /// After how many more transactions a shard retires their ids, or `None`, never. It retires those that no client speaks of any more and that
    /// no shard has prepared, at most once a second. It then keeps nothing of how they ended, in memory and in a log that is turned over. Else
    /// it keeps that for good, some 150 bytes each. `Client::outcome` of a retired id is `Unknown`, and `inspect` passes over it.
    pub retire: Option<u64>,
    /// How far the greatest timestamp of a folder's logs may be ahead of the machine's clock, in microseconds, beyond the stride. One that is farther
    /// ahead was written by a clock that was wrong, or the clock is wrong now: then the store is refused as `Future`, and nothing is logged.
    pub ahead: u64,
    /// Whether `Store::open_folder` makes a store in a folder that holds none. Else that is refused, so a service that names a wrong folder
    /// hears so.
    pub make: bool,
}

// Half a second: at most two ceilings a second of a shard that is looked at.
pub(crate) const STRIDE: u64 = 500_000;

// Ten seconds.
pub(crate) const AHEAD: u64 = 10_000_000;

// 64 MiB.
const LONG_LOG: u64 = 67_108_864;

const MANY_IDS: u64 = 10_000;

// A millisecond.
pub(crate) const EPSILON: u64 = 1_000;

impl Options {
    /// So many clients over these shards: a stride of 500,000 microseconds, an epsilon of 1,000, a patience of 100 milliseconds, and 30 seconds
    /// for a shard that says nothing. All versions are kept. A log is turned over once it has grown by 64 MiB, and goes on in a new file once it
    /// begins so far into its own. Ids are retired after 10,000 transactions. A folder without a store gets none. Logs may be 10 seconds
    /// ahead of the clock.
    pub fn new(splits: Splits, clients: u64) -> Options
        ensures splits { result.splits ≡ splits }
        ensures clients { result.clients ≡ clients }
        ensures times { (result.stride ≡ 500000) × (result.epsilon ≡ 1000) × (result.patience ≡ 5)
            × (result.give_up ≡ 30000) }
        ensures all { result.keep ≡ None }
        ensures flat { (result.renew ≡ Some 67108864) × (result.shrink ≡ Some 67108864)
            × (result.retire ≡ Some 10000) }
        ensures ahead { result.ahead ≡ 10000000 }
        ensures make { result.make ≡ false }
    {
        let stride = match Stride::new(STRIDE) {
            Some(stride) => stride,
            None => unreachable!(),
        };
        Options {
            splits,
            stride,
            epsilon: EPSILON,
            clients,
            patience: 5,
            give_up: 30_000,
            keep: None,
            renew: Some(LONG_LOG),
            shrink: Some(LONG_LOG),
            retire: Some(MANY_IDS),
            ahead: AHEAD,
            make: false,
        }
    }

    // How far logs may be ahead of a clock that tells this present: a ceiling lies as far ahead as the stride says.
    pub(crate) fn limit(&self, present: Stamp) -> Limit
        ensures present { result.present ≡ present }
        ensures ahead { result.ahead ≤ self.now.stride + self.now.ahead }
    {
        Limit {
            present,
            ahead: self.stride.micros().saturating_add(self.ahead),
        }
    }

    // How many clients there are. Options beyond their limits are refused as `settings`.
    pub(crate) fn checked_clients(&self) -> Result<usize, Fault>
        ensures clients { IfOk result (λ clients. clients ≡ self.now.clients) }
        ensures few { IfOk result (λ clients. (0 < clients) × (clients ≤ 64)) }
        ensures limits { (1000000 < self.now.epsilon)
            ⊎ ((self.now.clients ≡ 0) ⊎ (64 < self.now.clients))
            → result ≡ Err (Fault.BadRequest Reason.Settings) }
        ensures refused { IfErr result (λ fault. fault ≡ Fault.BadRequest Reason.Settings) }
    {
        if self.epsilon > 1_000_000 || self.clients == 0 || self.clients > 64 {
            return Err(Fault::BadRequest(Reason::Settings));
        }
        Ok(self.clients as usize)
    }
}
