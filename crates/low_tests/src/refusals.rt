//! Words that are taken or refused.
use disk::Fate;
use made::WrongRows;
use texts::{fate, key, number, reading, txn};

struct Spelt {
    word: &'static str,
    fate: Option<Fate>,
}

static FATES: [Spelt; 9] = [
    Spelt {
        word: "old",
        fate: Some(Fate::Old),
    },
    Spelt {
        word: "new",
        fate: Some(Fate::New),
    },
    Spelt {
        word: "00",
        fate: Some(Fate::Filled(0)),
    },
    Spelt {
        word: "a5",
        fate: Some(Fate::Filled(165)),
    },
    Spelt {
        word: "A5",
        fate: Some(Fate::Filled(165)),
    },
    Spelt {
        word: "fF",
        fate: Some(Fate::Filled(255)),
    },
    Spelt {
        word: "0g",
        fate: None,
    },
    Spelt {
        word: "f",
        fate: None,
    },
    Spelt {
        word: "Old",
        fate: None,
    },
];

enum Kind {
    Key,
    Number,
    Txn,
    // A reading with this word and `110`.
    Reading,
}

// The greatest word that is taken, and one that is outside the limits of its type.
struct Limit {
    kind: Kind,
    taken: &'static str,
    refused: &'static str,
}

static LIMITS: [Limit; 4] = [
    Limit {
        kind: Kind::Key,
        taken: "k23456789_123456789_123456789_123456789_123456789_123456789_1234",
        refused: "k23456789_123456789_123456789_123456789_123456789_123456789_12345",
    },
    Limit {
        kind: Kind::Number,
        taken: "18446744073709551615",
        refused: "18446744073709551616",
    },
    Limit {
        kind: Kind::Txn,
        taken: "1.4611686018427387903",
        refused: "1.4611686018427387904",
    },
    Limit {
        kind: Kind::Reading,
        taken: "110",
        refused: "111",
    },
];

fn is_taken(kind: &Kind, word: &str) -> bool {
    match kind {
        Kind::Key => key(word).is_ok(),
        Kind::Number => number(word) == Ok(u64::MAX),
        Kind::Txn => txn(word).is_ok(),
        Kind::Reading => reading(word, "110").is_ok(),
    }
}

fn are_same(read: Option<Fate>, told: Option<Fate>) -> bool {
    match (read, told) {
        (None, None) => true,
        (Some(Fate::Old), Some(Fate::Old)) => true,
        (Some(Fate::New), Some(Fate::New)) => true,
        (Some(Fate::Filled(a)), Some(Fate::Filled(b))) => a == b,
        _ => false,
    }
}

/// Checks all rows.
pub fn go_over(wrong: &mut WrongRows) {
    for row in &FATES {
        wrong.unless(are_same(fate(row.word).ok(), row.fate), row.word);
    }
    for row in &LIMITS {
        let within = is_taken(&row.kind, row.taken) && !is_taken(&row.kind, row.refused);
        wrong.unless(within, row.taken);
    }
}
