//! Reads that wait while other letters are taken.
use crate::letter::Letter;
use crate::turns::Turns;
use crossbeam_channel::{Receiver, RecvTimeoutError};
use message::{Message, Read};
use std::alloc::Global;
use std::collections::VecDeque;
use std::sync::Wait;
use std::time;
use std::time::Duration;
use units::TxnId;

/// What a node does next.
#[derive(Drop)]
pub enum Next {
    /// It takes this letter.
    Take(Letter),
    /// No letter came.
    Nothing,
    /// It ends, since no letter can come any more.
    Gone,
}

// So long a node waits for a letter while reads wait for their turn.
fn turn() -> Duration {
    Duration::from_micros(100)
}

// The read that a letter carries, if it carries one.
fn read_of(letter: &Letter) -> Option<&Read> {
    match letter {
        Letter::Carry(Message::Read(read)) | Letter::Again(Message::Read(read), _) => Some(read),
        _ => None,
    }
}

// Whether a letter is a read that waits for its turn.
fn is_put_off<W: time::Clock>(rt: &W, turns: &Turns, letter: &Letter) -> bool {
    match read_of(letter) {
        Some(read) => turns.puts_off(rt, read),
        None => false,
    }
}

// Whether a letter is this read.
fn is_the_read(letter: &Letter, read: &Read) -> bool {
    match read_of(letter) {
        Some(found) => found.txn == read.txn && found.key == read.key,
        None => false,
    }
}

/// Reads that came while other letters were not taken yet. They are taken after those. A transaction that closes is firm by then, and does
/// not wound one that began to read just before it. If there is no room for one read more, the first is taken.
///
/// A read that is sent again takes the place of the one that waits. So each waits once, however long that takes.
#[derive(Drop)]
pub struct Waiting {
    reads: VecDeque<Letter>,
    closes: bool,
}

impl Waiting {
    /// Begins with no read, and with room for so many. It has no room if memory is refused.
    pub fn none(alloc: Global, room: usize) -> Waiting {
        match VecDeque::with_capacity(alloc, room) {
            Ok(reads) => Waiting {
                reads,
                closes: false,
            },
            Err(_) => Waiting {
                reads: VecDeque::new(alloc),
                closes: false,
            },
        }
    }

    /// Tells whether no read waits.
    pub fn is_none(&self) -> bool {
        self.reads.is_empty()
    }

    /// Takes out the first of those that wait whose turn it is. Those before it wait after the others from then on. Once the node is to close,
    /// each has its turn.
    pub fn next<W: time::Clock>(&mut self, rt: &W, turns: &Turns) -> Option<Letter> {
        for _read in 0..self.reads.len() {
            let letter = self.reads.pop_front()?;
            if self.closes || !is_put_off(rt, turns, &letter) {
                return Some(letter);
            }
            drop(self.reads.push_back(letter));
        }
        None
    }

    /// Forgets the reads of a transaction that closes: nobody waits for their answers any more.
    pub fn forget(&mut self, txn: TxnId) {
        self.reads.retain(|letter| match read_of(letter) {
            Some(read) => read.txn != txn,
            None => true,
        });
    }

    /// Takes the next letter: the first of the inbox that is no read, or else the first read whose turn it is. If neither is there, it waits
    /// for a letter, for `pause` at most, and no longer than a moment if a read waits for its turn. The word to close comes after all reads
    /// that wait, and nothing comes after it.
    pub fn first_of<W: Wait + time::Clock>(
        &mut self,
        rt: &W,
        inbox: &Receiver<Letter>,
        turns: &Turns,
        pause: Duration,
    ) -> Next {
        let mut wait = if self.is_none() {
            pause
        } else {
            Duration::ZERO
        };
        for _read in 0..=self.reads.capacity() {
            if self.closes {
                return Next::Take(self.next(rt, turns).unwrap_or(Letter::Close));
            }
            match inbox.recv_timeout(rt, wait) {
                Ok(letter) => match self.keep(letter) {
                    Some(letter) => return Next::Take(letter),
                    None => wait = Duration::ZERO,
                },
                Err(error) => match (self.next(rt, turns), error) {
                    (Some(letter), _) => return Next::Take(letter),
                    (None, RecvTimeoutError::Disconnected) if self.is_none() => return Next::Gone,
                    (None, _) if self.is_none() || wait == pause.min(turn()) => {
                        return Next::Nothing;
                    }
                    (None, _) => wait = pause.min(turn()),
                },
            }
        }
        Next::Nothing
    }

    /// Takes a further letter of the inbox that is no read, if one is there. Reads that it meets wait, and so does the word to close.
    pub fn further<W: Wait + time::Clock>(
        &mut self,
        rt: &W,
        inbox: &Receiver<Letter>,
    ) -> Option<Letter> {
        for _read in 0..=self.reads.capacity() {
            if self.closes {
                return None;
            }
            let letter = inbox.recv_timeout(rt, Duration::ZERO).ok()?;
            if let Some(letter) = self.keep(letter) {
                return Some(letter);
            }
        }
        None
    }

    // Lets a read wait, after those that do. One that is sent again takes the place of the one that waits. If there is no room, the first of those that
    // wait goes in its place. The word to close waits too. Any other letter is handed back.
    fn keep(&mut self, letter: Letter) -> Option<Letter> {
        if matches!(&letter, Letter::Close) {
            self.closes = true;
            return None;
        }
        if read_of(&letter).is_none() {
            return Some(letter);
        }
        if let Letter::Again(Message::Read(read), _) = &letter {
            for waiting in self.reads.iter_mut() {
                if is_the_read(waiting, read) {
                    *waiting = letter;
                    return None;
                }
            }
        }
        if self.reads.len() < self.reads.capacity() {
            drop(self.reads.push_back(letter));
            return None;
        }
        let Some(first) = self.reads.pop_front() else {
            return Some(letter);
        };
        drop(self.reads.push_back(letter));
        Some(first)
    }
}
