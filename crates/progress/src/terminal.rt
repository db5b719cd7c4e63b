//! A screen that threads share.
use crate::screen::Screen;
use crate::stopwatch::Stopwatch;
use crate::turn::{Turn, Watch};
use std::alloc::Global;
use std::io::Write;
use std::sync::{Mutex, Wait};
use std::time;

/// A screen that threads share, which shows the turns of a drive while it runs.
#[derive(Drop)]
pub struct Terminal<'r, R, W: Write + Drop> {
    rt: &'r R,
    alloc: Global,
    stopwatch: Stopwatch,
    screen: Mutex<Screen<W>>,
}

impl<'r, R: Wait + time::Clock, W: Write + Drop> Terminal<'r, R, W> {
    /// Begins a drive of so many turns now.
    pub fn new(rt: &'r R, alloc: Global, writer: W, turns: u64) -> Terminal<'r, R, W> {
        Terminal {
            rt,
            alloc,
            stopwatch: Stopwatch::start(rt),
            screen: Mutex::new(Screen::new(alloc, writer, turns)),
        }
    }

    /// Begins a drive of so many turns now, of which none is shown before the end.
    pub fn quiet(rt: &'r R, alloc: Global, writer: W, turns: u64) -> Terminal<'r, R, W> {
        Terminal {
            rt,
            alloc,
            stopwatch: Stopwatch::start(rt),
            screen: Mutex::new(Screen::quiet(alloc, writer, turns)),
        }
    }

    /// Shows the last line and the table once the drive is over, and returns the writer.
    pub fn finish(self) -> W {
        let Terminal {
            rt,
            alloc,
            stopwatch,
            screen,
        } = self;
        screen.into_inner().finish(alloc, stopwatch.micros(rt))
    }
}

impl<R: Wait + time::Clock, W: Write + Drop> Watch for Terminal<'_, R, W> {
    fn turned(&self, turn: Turn) {
        let micros = self.stopwatch.micros(self.rt);
        self.screen.lock(self.rt).turned(self.alloc, turn, micros);
    }

    fn looked(&self, micros: u64) {
        self.screen.lock(self.rt).looked(micros);
    }

    fn stopped(&self, shard: usize) {
        if let Ok(line) = format!(in self.alloc; "shard {shard}: stopped: 2 Device") {
            self.screen.lock(self.rt).tell(self.alloc, &line);
        }
    }
}
