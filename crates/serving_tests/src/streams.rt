//! Streams of lines that come after a while, and a store over disks in memory that answers them.
use host_files::logs_in_memory;
use serving::{Desk, Served, serve};
use simdisk::SimDisk;
use std::alloc::Global;
use std::io::{self, Read, Write};
use std::process::Abort;
use std::sync::Wait;
use std::thread::Threads;
use std::time::Duration;
use std::{thread, time};
use store::{Client, Options, Store};
use units::{Key, Splits};

/// A stream of lines that come one part after another.
#[derive(Drop)]
pub struct Parts<'a, R> {
    /// The runtime by which it waits.
    pub rt: &'a R,
    /// The parts: how many milliseconds each comes after the one before, and its bytes.
    pub parts: &'a [(u64, &'a [u8])],
    /// The number of the next part.
    pub at: usize,
}

impl<R: time::Clock> Read for Parts<'_, R> {
    fn read(&mut self, buffer: &mut [u8]) -> io::Result<usize> {
        let Some((millis, bytes)) = self.parts.get(self.at) else {
            return Ok(0);
        };
        thread::sleep(self.rt, Duration::from_millis(*millis));
        self.at += 1;
        let length = bytes.len().min(buffer.len());
        buffer[..length].copy_from_slice(&bytes[..length]);
        Ok(length)
    }
}

/// A stream that keeps what is written to it, or that nobody reads.
#[derive(Drop)]
pub struct Paper {
    /// What was written to it.
    pub bytes: Vec<u8>,
    /// Nobody reads it, so each write fails.
    pub is_gone: bool,
}

impl Write for Paper {
    fn write(&mut self, bytes: &[u8]) -> io::Result<usize> {
        if self.is_gone {
            return Err(io::Error::from(io::ErrorKind::BrokenPipe));
        }
        self.bytes.extend_from_slice(bytes)?;
        Ok(bytes.len())
    }

    fn flush(&mut self) -> io::Result<()> {
        Ok(())
    }
}

/// Gives what a store of four clients over two shards, which part at `m`, answers to the parts of a stream. A transaction may be idle for so
/// many milliseconds.
pub fn answers<R: Threads + Wait + time::Clock + Sync + Abort>(
    rt: &R,
    alloc: Global,
    parts: &[(u64, &[u8])],
    idle_millis: u64,
    is_gone: bool,
) -> (Served, Vec<u8>) {
    let disks = logs_in_memory(alloc, 2).ok().expect(rt, "logs");
    let paper = Paper {
        bytes: Vec::new(alloc),
        is_gone,
    };
    let desk = Desk::new(alloc, paper, false);
    let served = served(
        rt,
        alloc,
        disks,
        of_two_shards(rt, alloc),
        idle_millis,
        Parts { rt, parts, at: 0 },
        &desk,
    );
    let Paper { bytes, .. } = desk.close();
    (served, bytes)
}

/// The options of a store of four clients over two shards, which part at `m`.
pub fn of_two_shards<R: Abort>(rt: &R, alloc: Global) -> Options {
    let split = Key::new(b"m").ok().expect(rt, "a key");
    let splits = Splits::new(alloc, &[split]).ok().expect(rt, "splits");
    Options::new(splits, 4)
}

/// How the lines of a stream end that a store over these disks answers.
pub fn served<
    R: Threads + Wait + time::Clock + Sync + Abort,
    I: Read + Drop,
    W: Write + Drop + Send,
>(
    rt: &R,
    alloc: Global,
    disks: Vec<SimDisk>,
    options: Options,
    idle_millis: u64,
    input: I,
    desk: &Desk<W>,
) -> Served {
    let store = Store::open(rt, alloc, disks, options);
    let store = store.ok().expect(rt, "a store");
    let served = store.serve(|clients: Vec<Client<'_, R>>| {
        serve(rt, alloc, clients, idle_millis, input, desk)
    });
    let (served, disks) = served.ok().expect(rt, "a store that served");
    drop(disks);
    served.ok().expect(rt, "lines that were answered")
}

/// Tells whether the answers of a client, in their order, are these. One that ends with `*` stands for each that begins so.
pub fn are_answers(bytes: &[u8], client: u8, wanted: &[&[u8]]) -> bool {
    let mut next = 0;
    for line in bytes.split(|byte| *byte == b'\n') {
        let [number, b' ', answer @ ..] = line else {
            continue;
        };
        if *number != client {
            continue;
        }
        let Some(want) = wanted.get(next) else {
            return false;
        };
        if !is_answer(answer, want) {
            return false;
        }
        next += 1;
    }
    next == wanted.len()
}

fn is_answer(answer: &[u8], wanted: &[u8]) -> bool {
    match wanted {
        [start @ .., b'*'] => answer.starts_with(start),
        _ => answer == wanted,
    }
}
