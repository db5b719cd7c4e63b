//! The options of `serve` and `renew`, and the limits of their numbers.
use units::Stride;

/// An option that takes a number.
#[derive(Clone, Copy)]
pub struct Numbered {
    /// Its name, without the hyphens.
    pub name: &'static str,
    /// The least number that it takes.
    pub least: u64,
    /// The greatest number that it takes.
    pub most: u64,
}

/// How many clients work side by side.
pub const CLIENTS: Numbered = Numbered {
    name: "clients",
    least: 1,
    most: 64,
};

/// How far the clock may be from true time, in microseconds.
pub const EPSILON: Numbered = Numbered {
    name: "epsilon",
    least: 0,
    most: 1_000_000,
};

/// How far ahead of the served time a ceiling is logged, in microseconds.
pub const STRIDE: Numbered = Numbered {
    name: "stride",
    least: 0,
    most: Stride::MAX,
};

/// How long views of the past are answered, in microseconds. `renew` has this one too.
pub const KEEP: Numbered = Numbered {
    name: "keep",
    least: 0,
    most: u64::MAX,
};

/// How many bytes a log grows by before it is turned over.
pub const RENEW: Numbered = Numbered {
    name: "renew",
    least: 0,
    most: u64::MAX,
};

/// How many bytes into its file a log begins before it goes on in a new one.
pub const SHRINK: Numbered = Numbered {
    name: "shrink",
    least: 0,
    most: u64::MAX,
};

/// How many ids a shard retires at least at a time.
pub const RETIRE: Numbered = Numbered {
    name: "retire",
    least: 1,
    most: u64::MAX,
};

/// How long a transaction waits for another one, in milliseconds.
pub const PATIENCE: Numbered = Numbered {
    name: "patience",
    least: 1,
    most: 3_600_000,
};

/// After how many milliseconds an idle transaction is given up.
pub const IDLE: Numbered = Numbered {
    name: "idle",
    least: 1_000,
    most: 3_600_000,
};

/// All options of `serve`.
pub static OPTIONS: [Numbered; 9] = [
    CLIENTS, EPSILON, STRIDE, KEEP, RENEW, SHRINK, RETIRE, PATIENCE, IDLE,
];

/// All options of `renew`.
pub static RENEWING: [Numbered; 1] = [KEEP];
