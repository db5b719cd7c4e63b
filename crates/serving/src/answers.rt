//! Answers of threads, written to one stream.
use std::alloc::Global;
use std::io::Write;
use std::mem::replace;
use std::sync::{Mutex, Wait};
use units::Fault;

/// What is to be written, and whether a thread is writing. One that finds another at it leaves its lines to that one, so that lines which
/// come while others are written go together.
#[derive(Drop)]
struct Waiting {
    lines: Vec<u8>,
    is_writing: bool,
    is_gone: bool,
}

/// A stream to which threads write whole lines.
#[derive(Drop)]
pub struct Answers<W: Write + Drop> {
    alloc: Global,
    waiting: Mutex<Waiting>,
    writer: Mutex<W>,
}

impl<W: Write + Drop> Answers<W> {
    /// Nothing was written yet.
    pub fn new(alloc: Global, writer: W) -> Answers<W> {
        Answers {
            alloc,
            waiting: Mutex::new(Waiting {
                lines: Vec::new(alloc),
                is_writing: false,
                is_gone: false,
            }),
            writer: Mutex::new(writer),
        }
    }

    /// The stream, once all was written.
    pub fn close(self) -> W {
        let Answers { writer, .. } = self;
        writer.into_inner()
    }

    /// Whether nobody reads any more, or an answer was lost.
    pub fn is_gone<R: Wait>(&self, rt: &R) -> bool {
        self.waiting.lock(rt).is_gone
    }

    /// No more is to be written.
    pub fn give_up<R: Wait>(&self, rt: &R) {
        self.waiting.lock(rt).is_gone = true;
    }

    /// Writes a line, or leaves it to the thread that is writing.
    pub fn tell<R: Wait>(&self, rt: &R, line: &[u8]) -> Result<(), Fault> {
        if self.add(rt, line)? {
            self.write_on(rt);
        }
        Ok(())
    }

    // Puts a line behind those that wait, and says whether this thread has to write.
    fn add<R: Wait>(&self, rt: &R, line: &[u8]) -> Result<bool, Fault> {
        let mut waiting = self.waiting.lock(rt);
        waiting.lines.extend_from_slice(line)?;
        let writes = !waiting.is_writing;
        waiting.is_writing = true;
        Ok(writes)
    }

    // Writes what waits until nothing does.
    fn write_on<R: Wait>(&self, rt: &R) {
        let mut spare = Vec::new(self.alloc);
        for _round in rt.forever() {
            let Some(lines) = self.next(rt, spare) else {
                return;
            };
            let written = self.writer.lock(rt).write_all(&lines);
            if written.is_err() {
                self.waiting.lock(rt).is_gone = true;
            }
            spare = lines;
            spare.clear();
        }
        unreachable!()
    }

    // The lines that wait, in the place of which an empty list is put. Where there is none this thread writes no more.
    fn next<R: Wait>(&self, rt: &R, spare: Vec<u8>) -> Option<Vec<u8>> {
        let mut waiting = self.waiting.lock(rt);
        if waiting.lines.is_empty() {
            waiting.is_writing = false;
            return None;
        }
        Some(replace(&mut waiting.lines, spare))
    }
}
