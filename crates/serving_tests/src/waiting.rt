//! How many lines of a client wait, and for what an answer waits.
use crate::streams::{Paper, Parts, are_answers, of_two_shards, served};
use host_files::logs_in_memory;
use serving::{Desk, Served};
use std::io::{self, Read, Write};
use std::sync::Wait;
use std::sync::atomic::{AtomicBool, Ordering};
use std::time::{Duration, Instant};
use std::{thread, time};

/// A line a read. First a transaction of client 1 locks `a`; then 64 lines of client 0 come, of which the first waits for that lock. At last a
/// line of client 3 comes if reading stopped before it, and else one of client 2.
#[derive(Drop)]
struct Lines<'a, R> {
    rt: &'a R,
    at: u64,
    last: Option<Instant>,
}

// For so many milliseconds a client waits for the lock, and reading stops if it stops for half of them.
const HELD: u64 = 1_500;

impl<R: time::Clock> Lines<'_, R> {
    // Whether reading has stopped since the line before.
    fn has_stopped(&self) -> bool {
        match self.last {
            Some(last) => match last.elapsed(self.rt) {
                Ok(passed) => passed >= Duration::from_millis(HELD / 2),
                Err(_) => false,
            },
            None => false,
        }
    }
}

impl<R: time::Clock> Read for Lines<'_, R> {
    fn read(&mut self, buffer: &mut [u8]) -> io::Result<usize> {
        let stopped = self.has_stopped();
        let line: &[u8] = match self.at {
            0 => b"1 begin\n1 get a\n",
            1 => b"put a 1\n",
            2..=64 if stopped => b"2 get a\n",
            2..=64 => b"get a\n",
            65 if stopped => b"3 get a\n",
            65 => b"2 get a\n",
            _ => b"",
        };
        if self.at == 1 {
            thread::sleep(self.rt, Duration::from_millis(HELD / 5));
        }
        self.last = Instant::now(self.rt).ok();
        self.at = self.at.saturating_add(1);
        let length = line.len().min(buffer.len());
        buffer[..length].copy_from_slice(&line[..length]);
        Ok(length)
    }
}

// The 65th line of a client is not read before one of the 64 is answered that wait.
#[test]
fn sixty_four_lines_wait(rt: HostRuntime) {
    let alloc = rt.alloc();
    let paper = Paper {
        bytes: Vec::new(alloc),
        is_gone: false,
    };
    let desk = Desk::new(alloc, paper, false);
    let disks = logs_in_memory(alloc, 2).ok().expect(&rt, "logs");
    let lines = Lines {
        rt: &rt,
        at: 0,
        last: None,
    };
    let ended = served(
        &rt,
        alloc,
        disks,
        of_two_shards(&rt, alloc),
        HELD,
        lines,
        &desk,
    );
    let Paper { bytes, .. } = desk.close();
    let mut wanted: [&[u8]; 64] = [b"=1"; 64];
    wanted[0] = b"committed *";
    assert!(rt; ended == Served::All);
    assert!(rt; are_answers(&bytes, b'0', &wanted));
    assert!(rt; are_answers(&bytes, b'2', &[]));
    assert!(rt; are_answers(&bytes, b'3', &[b"=1"]));
}

/// A stream on which the first answer takes a while, and that counts what is written at once.
#[derive(Drop)]
struct Slow<'a, R> {
    rt: &'a R,
    paper: Paper,
    writes: u64,
}

impl<R: time::Clock> Write for Slow<'_, R> {
    fn write(&mut self, bytes: &[u8]) -> io::Result<usize> {
        self.writes = self.writes.saturating_add(1);
        if bytes.starts_with(b"0 ") {
            thread::sleep(self.rt, Duration::from_millis(HELD));
        }
        self.paper.write(bytes)
    }

    fn flush(&mut self) -> io::Result<()> {
        Ok(())
    }
}

// Answers that come while one is written are written together: `ready`, the answer to client 0, and those of the other three.
#[test]
fn answers_go_together(rt: HostRuntime) {
    let alloc = rt.alloc();
    let slow = Slow {
        rt: &rt,
        paper: Paper {
            bytes: Vec::new(alloc),
            is_gone: false,
        },
        writes: 0,
    };
    let desk = Desk::new(alloc, slow, false);
    let disks = logs_in_memory(alloc, 2).ok().expect(&rt, "logs");
    let parts: [(u64, &[u8]); 3] = [
        (0, b"get a\n"),
        (HELD / 3, b"1 get a\n2 get a\n3 get a\n"),
        (HELD, b""),
    ];
    let input = Parts {
        rt: &rt,
        parts: &parts,
        at: 0,
    };
    let options = of_two_shards(&rt, alloc);
    let ended = served(&rt, alloc, disks, options, HELD, input, &desk);
    let Slow {
        rt: _,
        paper,
        writes,
    } = desk.close();
    assert!(rt; ended == Served::All);
    assert!(rt; writes == 3);
    for client in [b'0', b'1', b'2', b'3'] {
        assert!(rt; are_answers(&paper.bytes, client, &[b"none"]));
    }
}

/// A line of client 0; and after its answer came one of client 1, or one of client 2 if none came within five seconds.
#[derive(Drop)]
struct Alone<'a, R> {
    rt: &'a R,
    at: u64,
    is_answered: &'a AtomicBool,
}

impl<R: time::Clock> Read for Alone<'_, R> {
    fn read(&mut self, buffer: &mut [u8]) -> io::Result<usize> {
        for _moment in 0..500u64 {
            if self.at != 1 || self.is_answered.load(Ordering::SeqCst) {
                break;
            }
            thread::sleep(self.rt, Duration::from_millis(10));
        }
        let line: &[u8] = match self.at {
            0 => b"get a\n",
            1 if self.is_answered.load(Ordering::SeqCst) => b"1 get a\n",
            1 => b"2 get a\n",
            _ => b"",
        };
        self.at = self.at.saturating_add(1);
        let length = line.len().min(buffer.len());
        buffer[..length].copy_from_slice(&line[..length]);
        Ok(length)
    }
}

/// A stream that tells of the first answer to client 0.
#[derive(Drop)]
struct Bell<'a> {
    paper: Paper,
    is_answered: &'a AtomicBool,
}

impl Write for Bell<'_> {
    fn write(&mut self, bytes: &[u8]) -> io::Result<usize> {
        if bytes.starts_with(b"0 ") {
            self.is_answered.store(true, Ordering::SeqCst);
        }
        self.paper.write(bytes)
    }

    fn flush(&mut self) -> io::Result<()> {
        Ok(())
    }
}

// An answer comes while no further line does.
#[test]
fn no_answer_waits_for_a_line(rt: HostRuntime) {
    let alloc = rt.alloc();
    let is_answered = AtomicBool::new(false);
    let paper = Paper {
        bytes: Vec::new(alloc),
        is_gone: false,
    };
    let bell = Bell {
        paper,
        is_answered: &is_answered,
    };
    let desk = Desk::new(alloc, bell, false);
    let disks = logs_in_memory(alloc, 2).ok().expect(&rt, "logs");
    let line = Alone {
        rt: &rt,
        at: 0,
        is_answered: &is_answered,
    };
    let ended = served(
        &rt,
        alloc,
        disks,
        of_two_shards(&rt, alloc),
        HELD,
        line,
        &desk,
    );
    let Bell { paper, .. } = desk.close();
    assert!(rt; ended == Served::All);
    assert!(rt; are_answers(&paper.bytes, b'0', &[b"none"]));
    assert!(rt; are_answers(&paper.bytes, b'1', &[b"none"]));
    assert!(rt; are_answers(&paper.bytes, b'2', &[]));
}
