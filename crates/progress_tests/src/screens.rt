//! Screens that are told of turns at given moments.
use made::{Row, WrongRows, go_over};
use progress::{Ended, Screen, Turn};
use std::io;
use std::io::Write;

// A writer that keeps what it was given, but for the first writes, which fail.
#[derive(Drop)]
struct Paper {
    failures: u64,
    written: Vec<u8>,
}

impl Write for Paper {
    fn write(&mut self, buf: &[u8]) -> io::Result<usize> {
        if self.failures > 0 {
            self.failures -= 1;
            return Err(io::ErrorKind::BrokenPipe.into());
        }
        self.written.write(buf)
    }

    fn flush(&mut self) -> io::Result<()> {
        Ok(())
    }
}

/// The moments, in microseconds, at which turns of a drive of three commit. A fourth turn is one too many. After each
/// of the first two, a look is answered. The row has what is written if so many writes fail.
pub struct Shown {
    name: &'static str,
    moments: &'static [u64],
    end: u64,
    failures: u64,
    written: &'static str,
}

static ROWS: [Shown; 7] = [
    Shown {
        name: "too short to show a line",
        moments: &[1, 2, 199_999, 199_999],
        end: 300_000,
        failures: 0,
        written: "\r3 of 3 done, 10 commits a second\n\
                  \x20    us   count    half     90%     99%    most\n\
                  commits       3       5       5       5       5\n\
                  \x20aborts       0       -       -       -       -\n\
                  \x20 looks       2       4       4       4       4\n",
    },
    Shown {
        name: "each is late enough",
        moments: &[200_000, 400_000, 600_000, 799_999],
        end: 800_000,
        failures: 0,
        written: "\r1 of 3 done, 5 commits a second\
                  \r2 of 3 done, 5 commits a second\
                  \r3 of 3 done, 5 commits a second\
                  \r3 of 3 done, 3 commits a second\n\
                  \x20    us   count    half     90%     99%    most\n\
                  commits       3       5       5       5       5\n\
                  \x20aborts       0       -       -       -       -\n\
                  \x20 looks       2       4       4       4       4\n",
    },
    Shown {
        name: "one is too early",
        moments: &[250_000, 449_999, 450_000, 450_001],
        end: 1_000_000,
        failures: 0,
        written: "\r1 of 3 done, 4 commits a second\
                  \r3 of 3 done, 6 commits a second\
                  \r3 of 3 done, 3 commits a second\n\
                  \x20    us   count    half     90%     99%    most\n\
                  commits       3       5       5       5       5\n\
                  \x20aborts       0       -       -       -       -\n\
                  \x20 looks       2       4       4       4       4\n",
    },
    Shown {
        name: "nothing is left of a longer line",
        moments: &[1, 200_000, 200_001],
        end: 1_000_000,
        failures: 0,
        written: "\r2 of 3 done, 10 commits a second\
                  \r3 of 3 done, 3 commits a second \n\
                  \x20    us   count    half     90%     99%    most\n\
                  commits       3       5       5       5       5\n\
                  \x20aborts       0       -       -       -       -\n\
                  \x20 looks       2       4       4       4       4\n",
    },
    Shown {
        name: "a write fails",
        moments: &[200_000, 200_001, 400_000, 400_001],
        end: 1_000_000,
        failures: 1,
        written: "\r3 of 3 done, 7 commits a second\
                  \r3 of 3 done, 3 commits a second\n\
                  \x20    us   count    half     90%     99%    most\n\
                  commits       3       5       5       5       5\n\
                  \x20aborts       0       -       -       -       -\n\
                  \x20 looks       2       4       4       4       4\n",
    },
    Shown {
        name: "each write fails",
        moments: &[200_000, 200_001, 400_000, 400_001],
        end: 1_000_000,
        failures: 4,
        written: "",
    },
    Shown {
        name: "nothing was counted",
        moments: &[],
        end: 1,
        failures: 0,
        written: "",
    },
];

impl Row for Shown {
    fn tell(&self, wrong: &mut WrongRows, rt: &HostRuntime) {
        let alloc = rt.alloc();
        let paper = Paper {
            failures: self.failures,
            written: Vec::new(alloc),
        };
        let mut screen = Screen::new(alloc, paper, 3);
        for (turns, moment) in self.moments.iter().enumerate() {
            let turn = Turn {
                ended: Ended::Committed,
                micros: 5,
            };
            screen.turned(alloc, turn, *moment);
            if turns < 2 {
                screen.looked(4);
            }
        }
        let paper = screen.finish(alloc, self.end);
        let same = paper.written.as_slice() == self.written.as_bytes();
        drop(paper);
        wrong.unless(same, self.name);
    }
}

/// Checks what screens write.
pub fn tell_screens(wrong: &mut WrongRows, rt: &HostRuntime) {
    go_over(wrong, rt, "screens", &ROWS);
}
