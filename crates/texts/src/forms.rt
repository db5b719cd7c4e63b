//! The forms of lines, and the values of their words.
use crate::numbers::{number, stamp};
use crate::words::{fate, key, shard, txn};
use disk::Fate;
use truetime::Reading;
use units::{Key, ShardNo, Stamp, TxnId};

/// What a word is read as.
#[derive(Clone, Copy)]
pub enum Kind {
    Number,
    Shard,
    Txn,
    Key,
    Stamp,
    /// The first end of a reading. The other end follows it.
    Earliest,
    Latest,
    Fate,
}

/// A form of line: its name, the kinds of the first words after it, and what such a line is.
pub struct Form<V> {
    pub name: &'static str,
    pub words: &'static [Kind],
    pub is: V,
}

/// The values of words, one of each kind. Those that were not read are the least ones.
#[derive(Clone, Copy)]
pub struct Values {
    pub number: u64,
    pub shard: ShardNo,
    pub txn: TxnId,
    pub key: Key,
    pub stamp: Stamp,
    pub earliest: Stamp,
    pub reading: Reading,
    pub fate: Fate,
}

impl Values {
    /// Makes the values before any word is read.
    pub fn none() -> Values {
        let Some(shard) = ShardNo::new(0) else {
            unreachable!();
        };
        let Some(txn) = TxnId::new(1, 0) else {
            unreachable!();
        };
        let Ok(key) = Key::new(&[b'0']) else {
            unreachable!();
        };
        let stamp = Stamp::zero();
        let Ok(reading) = Reading::new(stamp, stamp) else {
            unreachable!();
        };
        Values {
            number: 0,
            shard,
            txn,
            key,
            stamp,
            earliest: stamp,
            reading,
            fate: Fate::Old,
        }
    }

    /// Reads the first words of some, each as its kind, and gives the others. `None` means that one is missing or is
    /// not of its kind.
    pub fn read<'w, 't>(&mut self, kinds: &[Kind], words: &'w [&'t str]) -> Option<&'w [&'t str]> {
        let mut left = words;
        for kind in kinds {
            let [word, others @ ..] = left else {
                return None;
            };
            if !self.read_word(*kind, *word) {
                return None;
            }
            left = others;
        }
        Some(left)
    }

    /// Reads one word, and tells whether it is of the kind.
    pub fn read_word(&mut self, kind: Kind, word: &str) -> bool {
        match kind {
            Kind::Number => match number(word) {
                Ok(number) => self.number = number,
                Err(_) => return false,
            },
            Kind::Shard => match shard(word) {
                Ok(shard) => self.shard = shard,
                Err(_) => return false,
            },
            Kind::Txn => match txn(word) {
                Ok(txn) => self.txn = txn,
                Err(_) => return false,
            },
            Kind::Key => match key(word) {
                Ok(key) => self.key = key,
                Err(_) => return false,
            },
            Kind::Stamp => match stamp(word) {
                Ok(stamp) => self.stamp = stamp,
                Err(_) => return false,
            },
            Kind::Earliest => match stamp(word) {
                Ok(stamp) => self.earliest = stamp,
                Err(_) => return false,
            },
            Kind::Latest => return self.read_latest(word),
            Kind::Fate => match fate(word) {
                Ok(fate) => self.fate = fate,
                Err(_) => return false,
            },
        }
        true
    }

    // Reads the last word of a reading.
    fn read_latest(&mut self, word: &str) -> bool {
        let Ok(latest) = stamp(word) else {
            return false;
        };
        match Reading::new(self.earliest, latest) {
            Ok(reading) => {
                self.reading = reading;
                true
            }
            Err(_) => false,
        }
    }

    /// Reads the words of a line by the first form of its name that they have. It gives what such a line is, and the
    /// words that are left.
    pub fn read_form<'w, 't, V: Copy>(
        &mut self,
        forms: &[Form<V>],
        words: &'w [&'t str],
    ) -> Option<(V, &'w [&'t str])> {
        let [name, words @ ..] = words else {
            return None;
        };
        for form in forms {
            if form.name == *name {
                if let Some(left) = self.read(form.words, words) {
                    return Some((form.is, left));
                }
            }
        }
        None
    }
}
