//! Rates and percentiles.
use made::WrongRows;
use progress::{per_second, percentile};

// A count in some microseconds, and how many that is a second.
struct Rate {
    what: &'static str,
    count: u64,
    micros: u64,
    want: u128,
}

static RATES: [Rate; 5] = [
    Rate {
        what: "a second",
        count: 305,
        micros: 1_000_000,
        want: 305,
    },
    Rate {
        what: "more than a second",
        count: 2_000,
        micros: 6_557_000,
        want: 305,
    },
    Rate {
        what: "none",
        count: 0,
        micros: 1,
        want: 0,
    },
    Rate {
        what: "no time",
        count: 7,
        micros: 0,
        want: 0,
    },
    Rate {
        what: "the most",
        count: u64::MAX,
        micros: 1_000_000,
        want: 18_446_744_073_709_551_615,
    },
];

// Numbers in order, and the one that so many of a hundred do not exceed.
struct Rank {
    what: &'static str,
    sorted: &'static [u64],
    percent: u64,
    want: Option<u64>,
}

static RANKS: [Rank; 8] = [
    Rank {
        what: "of no number",
        sorted: &[],
        percent: 50,
        want: None,
    },
    Rank {
        what: "the first of one",
        sorted: &[7],
        percent: 1,
        want: Some(7),
    },
    Rank {
        what: "the last of one",
        sorted: &[7],
        percent: 100,
        want: Some(7),
    },
    Rank {
        what: "half of four",
        sorted: &[1, 2, 3, 4],
        percent: 50,
        want: Some(2),
    },
    Rank {
        what: "half of five",
        sorted: &[1, 2, 3, 4, 5],
        percent: 50,
        want: Some(3),
    },
    Rank {
        what: "over half of four",
        sorted: &[1, 2, 3, 4],
        percent: 51,
        want: Some(3),
    },
    Rank {
        what: "three of four",
        sorted: &[1, 1, 1, 9],
        percent: 75,
        want: Some(1),
    },
    Rank {
        what: "99 of 100",
        sorted: &[1, 1, 1, 9],
        percent: 99,
        want: Some(9),
    },
];

// Gives the percentile of a row, whose numbers are in order.
fn ranked(row: &Rank) -> Option<u64> {
    if !row.sorted.is_sorted() || row.percent < 1 || row.percent > 100 {
        return None;
    }
    percentile(row.sorted, row.percent)
}

/// Checks all rows.
pub fn go_over(wrong: &mut WrongRows) {
    for row in &RATES {
        let right = per_second(row.count, row.micros) == row.want;
        wrong.unless(right, row.what);
    }
    for row in &RANKS {
        wrong.unless(ranked(row) == row.want, row.what);
    }
}
