//! The lines of one client, and the desk that tells its answers.
use crate::asks::{Asks, Exchange, Heard};
use crate::desk::Desk;
use crate::prompt::Open;
use crossbeam_channel::{Receiver, RecvTimeoutError, TryRecvError};
use growing::Growing;
use requests::{Request, request, words_of};
use std::alloc::Global;
use std::io::Write;
use std::sync::Wait;
use std::time::{Duration, Instant};
use std::{str, thread, time};
use units::{Fault, Reason};

// For so many microseconds a thread looks for the next line before it sleeps.
const LOOK_MICROS: u64 = 100;

// It looks no more often than this.
const MOST_LOOKS: u32 = 10_000;

/// What is asked of one client, and to where it answers.
#[derive(Drop)]
pub struct Talk<'a, R, W: Write + Drop> {
    pub rt: &'a R,
    pub alloc: Global,
    pub number: u64,
    pub inbox: Receiver<Vec<u8>>,
    pub desk: &'a Desk<W>,
    /// For how long no line of an open transaction may come.
    pub idle: Duration,
    /// What is open, for the prompt.
    pub open: Open,
    /// What was said so far, in proofs alone.
    pub said: Growing<Exchange>,
}

impl<R: Wait + time::Clock, W: Write + Drop> Asks for Talk<'_, R, W> {
    ghost said = { λ t. t.said.entries };

    fn next(&mut self) -> Heard {
        if let Some(line) = self.soon() {
            return heard(self.alloc, &line);
        }
        match self.inbox.recv(self.rt) {
            Ok(line) => heard(self.alloc, &line),
            Err(_) => Heard::Nothing,
        }
    }

    fn next_of_open(&mut self) -> Heard {
        if let Some(line) = self.soon() {
            return heard(self.alloc, &line);
        }
        match self.inbox.recv_timeout(self.rt, self.idle) {
            Ok(line) => heard(self.alloc, &line),
            Err(RecvTimeoutError::Timeout) => Heard::Silence,
            Err(_) => Heard::Nothing,
        }
    }

    fn answer(&mut self, exchange: Exchange) -> Result<(), Fault> {
        self.open = self.open.after(&exchange.answer);
        self.desk
            .tell_beside(self.rt, self.number, &exchange.answer, self.open)?;
        self.said.add(&exchange);
        drop(exchange);
        Ok(())
    }
}

impl<R: Wait + time::Clock, W: Write + Drop> Talk<'_, R, W> {
    // The next line, if it comes at once. Whoever has an answer mostly asks on, and a thread that sleeps takes long to wake. One thread of all
    // looks at a time, and lets others run meanwhile.
    fn soon(&self) -> Option<Vec<u8>> {
        if !self.desk.begins_to_look() {
            return None;
        }
        let found = look(self.rt, &self.inbox);
        self.desk.looks_no_more();
        found
    }
}

// Looks for a line again and again, for a short time.
fn look<R: Wait + time::Clock>(rt: &R, inbox: &Receiver<Vec<u8>>) -> Option<Vec<u8>> {
    let start = Instant::now(rt).ok()?;
    for _look in 0..MOST_LOOKS {
        match inbox.try_recv(rt) {
            Ok(line) => return Some(line),
            Err(TryRecvError::Disconnected) => return None,
            Err(TryRecvError::Empty) => thread::yield_now(),
        }
        if start.elapsed(rt).ok()? >= Duration::from_micros(LOOK_MICROS) {
            return None;
        }
    }
    None
}

fn heard(alloc: Global, line: &[u8]) -> Heard {
    Heard::Asked(asked(alloc, line))
}

// What a line asks for.
fn asked(alloc: Global, line: &[u8]) -> Result<Request, Fault> {
    let Ok(text) = str::from_utf8(line) else {
        return Err(Fault::BadRequest(Reason::Command));
    };
    let words = words_of(alloc, text)?;
    request(alloc, words.as_slice())
}
