//! The desk at which answers are told.
use crate::answers::Answers;
use crate::prompt::{Open, push_prompted};
use requests::{Answer, answer_line};
use std::alloc::Global;
use std::io::Write;
use std::sync::Wait;
use std::sync::atomic::{AtomicBool, Ordering};
use units::Fault;

/// The stream of all answers; on a terminal each is followed by a prompt.
#[derive(Drop)]
pub struct Desk<W: Write + Drop> {
    alloc: Global,
    answers: Answers<W>,
    is_terminal: bool,
    // Whether a thread looks for its next line.
    looking: AtomicBool,
}

impl<W: Write + Drop> Desk<W> {
    /// Nothing was told yet.
    pub fn new(alloc: Global, writer: W, is_terminal: bool) -> Desk<W> {
        Desk {
            alloc,
            answers: Answers::new(alloc, writer),
            is_terminal,
            looking: AtomicBool::new(false),
        }
    }

    /// The stream, once all was told.
    pub fn close(self) -> W {
        let Desk { answers, .. } = self;
        answers.close()
    }

    /// Whether a line could not be told, so that no more are to be taken.
    pub fn is_gone<R: Wait>(&self, rt: &R) -> bool {
        self.answers.is_gone(rt)
    }

    /// Notes that a thread looks for its next line. `false` says that another one does, so it does not.
    pub fn begins_to_look(&self) -> bool {
        !self.looking.swap(true, Ordering::SeqCst)
    }

    /// Notes that it does so no more.
    pub fn looks_no_more(&self) {
        self.looking.store(false, Ordering::SeqCst);
    }

    /// No more is to be told.
    pub fn give_up<R: Wait>(&self, rt: &R) {
        self.answers.give_up(rt);
    }

    /// Tells the answer of the client with this number, which then has nothing open.
    pub fn tell<R: Wait>(&self, rt: &R, client: u64, answer: &Answer) -> Result<(), Fault> {
        self.tell_beside(rt, client, answer, Open::Nothing)
    }

    /// Tells the answer of the client with this number, which then has this open.
    pub fn tell_beside<R: Wait>(
        &self,
        rt: &R,
        client: u64,
        answer: &Answer,
        open: Open,
    ) -> Result<(), Fault> {
        let mut line = answer_line(self.alloc, client, answer)?;
        if self.is_terminal {
            push_prompted(&mut line, answer, open)?;
        }
        self.answers.tell(rt, line.as_bytes())
    }

    /// Tells that the store is open, whose ids are of this run.
    pub fn ready<R: Wait>(&self, rt: &R, run: u64) -> Result<(), Fault> {
        let line = if self.is_terminal {
            format!(in self.alloc; "ready {run}\nstore> ")?
        } else {
            format!(in self.alloc; "ready {run}\n")?
        };
        self.answers.tell(rt, line.as_bytes())
    }
}
