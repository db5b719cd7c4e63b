//! What the words of `make`, `serve` and `renew` ask for.
use service_words::{Asked, Choices, explanation, service_asked};
use std::alloc::Global;
use units::{Fault, Reason};

const COMMAND: Fault = Fault::BadRequest(Reason::Command);

const SETTINGS: Fault = Fault::BadRequest(Reason::Settings);

/// Words of `serve`, and what they choose: clients, epsilon, stride, keep, renew, shrink, retire, patience and idle.
type Row = (&'static [&'static str], [u64; 9]);

// What is kept for good.
const NONE: u64 = u64::MAX;

// What is chosen for a log that nothing is said of.
const LONG: u64 = 67_108_864;

static ROWS: [Row; 3] = [
    (
        &["serve", "d"],
        [64, 1_000, 500_000, NONE, LONG, LONG, 10_000, 5, 10_000],
    ),
    (
        &[
            "serve",
            "d",
            "--clients",
            "3",
            "--epsilon",
            "0",
            "--stride",
            "7",
            "--keep",
            "8",
            "--renew",
            "9",
            "--shrink",
            "11",
            "--retire",
            "10",
            "--patience",
            "60",
            "--idle",
            "1000",
        ],
        [3, 0, 7, 8, 9, 11, 10, 3, 1_000],
    ),
    (
        &["serve", "--idle", "3600000", "--patience", "61", "d"],
        [64, 1_000, 500_000, NONE, LONG, LONG, 10_000, 4, 3_600_000],
    ),
];

// What words of `serve` choose for the store in `d`, if they ask for that.
fn chosen(alloc: Global, words: &[&str]) -> Option<[u64; 9]> {
    match service_asked(alloc, words) {
        Ok(asked) => match asked {
            Asked::Serve { dir, choices } => in_d(dir, &choices),
            Asked::Make { dir: _, splits } => {
                drop(splits);
                None
            }
            _ => None,
        },
        Err(_) => None,
    }
}

fn in_d(dir: &str, choices: &Choices) -> Option<[u64; 9]> {
    if dir != "d" {
        return None;
    }
    Some([
        choices.clients,
        choices.epsilon,
        choices.stride.micros(),
        choices.keep.unwrap_or(NONE),
        choices.renew.unwrap_or(NONE),
        choices.shrink.unwrap_or(NONE),
        choices.retire.unwrap_or(NONE),
        u64::from(choices.patience),
        choices.idle,
    ])
}

// Fails if words of `serve` choose other options than their row says.
#[test]
fn options_are_chosen(rt: HostRuntime) {
    for (words, right) in &ROWS {
        assert!(rt; chosen(rt.alloc(), *words) == Some(*right));
    }
}

static RENEWALS: [(&[&str], Option<u64>); 3] = [
    (&["renew", "d"], None),
    (&["renew", "d", "--keep", "0"], Some(0)),
    (
        &["renew", "--keep=18446744073709551615", "d"],
        Some(u64::MAX),
    ),
];

// Whether words ask for a renewal of the store in `d` that keeps so much.
fn is_renewal(alloc: Global, words: &[&str], right: Option<u64>) -> bool {
    match service_asked(alloc, words) {
        Ok(asked) => match asked {
            Asked::Renew { dir, keep } => dir == "d" && keep == right,
            Asked::Make { dir: _, splits } => {
                drop(splits);
                false
            }
            _ => false,
        },
        Err(_) => false,
    }
}

// Fails if words of `renew` keep another past than their row says.
#[test]
fn renewals_are_asked_for(rt: HostRuntime) {
    for (words, right) in &RENEWALS {
        assert!(rt; is_renewal(rt.alloc(), *words, *right));
    }
}

static REFUSED: [(&[&str], Fault); 10] = [
    (&["serve"], COMMAND),
    (&["serve", "d", "e"], COMMAND),
    (&["serve", "d", "--clients"], COMMAND),
    (&["serve", "d", "--clients", "0"], SETTINGS),
    (&["serve", "d", "--clients", "65"], SETTINGS),
    (&["serve", "d", "--epsilon", "1000001"], SETTINGS),
    (&["serve", "d", "--idle", "999"], SETTINGS),
    (&["make"], COMMAND),
    (&["renew", "d", "--keep"], COMMAND),
    (&["renew", "d", "--keep", "x"], COMMAND),
];

// Fails if wrong words of `make` or `serve` are taken, or refused with another fault.
#[test]
fn other_words_are_refused(rt: HostRuntime) {
    for (words, fault) in &REFUSED {
        assert!(rt; matches!(service_asked(rt.alloc(), *words), Err(found) if found == *fault));
    }
}

/// Words that are refused, and what is told of them.
type Told = (&'static [&'static str], &'static str);

static WRONG_MAKES: [Told; 7] = [
    (&["make"], "DIR is missing"),
    (
        &["make", "d", "--clients", "3"],
        "'--clients' is no option of this command",
    ),
    (&["make", "d", ""], "SPLIT has 1 to 64 bytes, and not 0"),
    (
        &["make", "d", "g", "m", "g"],
        "'g' is not above the SPLIT before it",
    ),
    (
        &["make", "d", "m", "\\x6d"],
        "'\\x6d' is not above the SPLIT before it",
    ),
    (
        &["make", "d", "a\\b"],
        "SPLIT has a backslash that spells no byte: write '\\x5c' for a backslash",
    ),
    (
        &[
            "make", "d", "a", "b", "c", "d", "e", "f", "g", "h", "i", "j", "k", "l", "m", "n", "o",
            "p",
        ],
        "there are more than 15 of SPLIT",
    ),
];

static WRONG_SERVES: [Told; 11] = [
    (&["serve"], "DIR is missing"),
    (&["serve", "--clients", "3"], "DIR is missing"),
    (&["serve", "d", "e"], "'e' is one word too many"),
    (
        &["serve", "d", "--client", "3"],
        "'--client' is no option of this command",
    ),
    (
        &["serve", "d", "--clients"],
        "the number of '--clients' is missing",
    ),
    (
        &["serve", "d", "--clients", "x"],
        "'--clients' takes a whole number from 1 to 64, and not 'x'",
    ),
    (
        &["serve", "d", "--clients=65"],
        "'--clients' takes a whole number from 1 to 64, and not '65'",
    ),
    (
        &["serve", "--idle", "999", "d"],
        "'--idle' takes a whole number from 1000 to 3600000, and not '999'",
    ),
    (
        &["serve", "d", "--stride", "10000001"],
        "'--stride' takes a whole number from 0 to 10000000, and not '10000001'",
    ),
    (
        &["serve", "d", "--keep", "-1"],
        "'--keep' takes a whole number, and not '-1'",
    ),
    (
        &["serve", "d", "--clients", "1", "--clients", "2"],
        "'--clients' stands twice",
    ),
];

static WRONG_RENEWALS: [Told; 6] = [
    (&["renew"], "DIR is missing"),
    (&["renew", "--keep", "5"], "DIR is missing"),
    (&["renew", "d", "e"], "'e' is one word too many"),
    (
        &["renew", "d", "--renew", "3"],
        "'--renew' is no option of this command",
    ),
    (
        &["renew", "d", "--keep", "x"],
        "'--keep' takes a whole number, and not 'x'",
    ),
    (
        &["renew", "--keep", "1", "d", "--keep=1"],
        "'--keep' stands twice",
    ),
];

// Whether words are refused, and this is told of them, with how their command is called.
fn are_told(alloc: Global, words: &[&str], what: &str, synopsis: &str) -> bool {
    let Err(fault) = service_asked(alloc, words) else {
        return false;
    };
    let Ok(right) = format!(in alloc; "--> {what}\nusage: shards {synopsis}") else {
        return false;
    };
    match explanation(alloc, words, fault) {
        Ok(text) => text == right,
        Err(_) => false,
    }
}

// Fails if anything else is told of wrong words than what is wrong with them.
#[test]
fn wrong_words_are_explained(rt: HostRuntime) {
    for (words, what) in &WRONG_MAKES {
        assert!(rt; are_told(rt.alloc(), *words, *what, "make DIR [SPLIT..]"));
    }
    for (words, what) in &WRONG_SERVES {
        assert!(rt; are_told(rt.alloc(), *words, *what, "serve DIR [OPTION..]"));
    }
    for (words, what) in &WRONG_RENEWALS {
        assert!(rt; are_told(rt.alloc(), *words, *what, "renew DIR [OPTION..]"));
    }
}
