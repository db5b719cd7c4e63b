//! The lines that a drive shows, and its table.
use made::{Row, WrongRows, go_over_all, is_text};
use progress::{Ended, Progress, Turn};

// So many turns that ended alike, or so many looks, which all took as long.
struct Group {
    ended: Option<Ended>,
    micros: u64,
    times: u64,
}

/// Some turns of a drive and then looks, of which no more count than there are turns. They give its line after so
/// many microseconds, and its table.
pub struct Drive {
    name: &'static str,
    turns: u64,
    groups: &'static [Group],
    micros: u64,
    line: &'static str,
    table: &'static str,
}

// Turns of each kind, and of none.
static KINDS: [Drive; 3] = [
    Drive {
        name: "nothing",
        turns: 200,
        groups: &[],
        micros: 0,
        line: "0 of 200 done, 0 commits a second",
        table: "     us   count    half     90%     99%    most\n\
            commits       0       -       -       -       -\n\
            \x20aborts       0       -       -       -       -\n\
            \x20 looks       0       -       -       -       -\n",
    },
    Drive {
        name: "each kind",
        turns: 200,
        groups: &[
            Group {
                ended: Some(Ended::Aborted),
                micros: 2,
                times: 2,
            },
            Group {
                ended: Some(Ended::Committed),
                micros: 3_000,
                times: 117,
            },
            Group {
                ended: Some(Ended::Unknown),
                micros: 2_000_000,
                times: 1,
            },
            Group {
                ended: None,
                micros: 4,
                times: 90,
            },
            Group {
                ended: None,
                micros: 50,
                times: 10,
            },
        ],
        micros: 375_000,
        line: "120 of 200 done, 312 commits a second",
        table: "     us   count    half     90%     99%    most\n\
            commits     117    3000    3000    3000    3000\n\
            \x20aborts       2       2       2       2       2\n\
            \x20 looks     100       4       4      50      50\n",
    },
    Drive {
        name: "in any order",
        turns: 200,
        groups: &[
            Group {
                ended: Some(Ended::Committed),
                micros: 9_120,
                times: 90,
            },
            Group {
                ended: Some(Ended::Committed),
                micros: 1_850,
                times: 109,
            },
            Group {
                ended: Some(Ended::Committed),
                micros: 50_000,
                times: 1,
            },
            Group {
                ended: None,
                micros: 7,
                times: 1,
            },
        ],
        micros: 655_000,
        line: "200 of 200 done, 305 commits a second",
        table: "     us   count    half     90%     99%    most\n\
            commits     200    1850    9120    9120   50000\n\
            \x20aborts       0       -       -       -       -\n\
            \x20 looks       1       7       7       7       7\n",
    },
];

// What the columns of the table hold.
static COLUMNS: [Drive; 3] = [
    Drive {
        name: "none committed",
        turns: 3,
        groups: &[
            Group {
                ended: Some(Ended::Aborted),
                micros: 5,
                times: 2,
            },
            Group {
                ended: Some(Ended::Unknown),
                micros: 5,
                times: 1,
            },
        ],
        micros: 1_000_000,
        line: "3 of 3 done, 0 commits a second",
        table: "     us   count    half     90%     99%    most\n\
            commits       0       -       -       -       -\n\
            \x20aborts       2       5       5       5       5\n\
            \x20 looks       0       -       -       -       -\n",
    },
    Drive {
        name: "four figures",
        turns: 100,
        groups: &[
            Group {
                ended: Some(Ended::Committed),
                micros: 30,
                times: 9,
            },
            Group {
                ended: Some(Ended::Committed),
                micros: 40,
                times: 1,
            },
            Group {
                ended: Some(Ended::Committed),
                micros: 10,
                times: 50,
            },
            Group {
                ended: Some(Ended::Committed),
                micros: 20,
                times: 40,
            },
            Group {
                ended: None,
                micros: 1,
                times: 101,
            },
        ],
        micros: 1_000_000,
        line: "100 of 100 done, 100 commits a second",
        table: "     us   count    half     90%     99%    most\n\
            commits     100      10      20      30      40\n\
            \x20aborts       0       -       -       -       -\n\
            \x20 looks     100       1       1       1       1\n",
    },
    Drive {
        name: "a number wider than its column",
        turns: 1,
        groups: &[Group {
            ended: Some(Ended::Aborted),
            micros: 9_999_999_999_999,
            times: 1,
        }],
        micros: 1_000_000,
        line: "1 of 1 done, 0 commits a second",
        table: "     us   count    half     90%     99%    most\n\
            commits       0       -       -       -       -\n\
            \x20aborts       1 9999999999999 9999999999999 9999999999999 9999999999999\n\
            \x20 looks       0       -       -       -       -\n",
    },
];

// Counts the turns of a group, or its looks.
fn count(progress: &mut Progress, group: &Group) {
    for _turn in 0..group.times {
        match group.ended {
            Some(ended) => {
                if !progress.is_done() {
                    let _ = progress.count(Turn {
                        ended,
                        micros: group.micros,
                    });
                }
            }
            None => {
                if !progress.has_looked() {
                    let _ = progress.count_look(group.micros);
                }
            }
        }
    }
}

// Tells whether no line has more than 50 columns, or more than 80 if a number has more than seven digits.
fn is_narrow(row: &Drive, text: &str) -> bool {
    let mut most: usize = 50;
    for group in row.groups {
        if group.micros > 9_999_999 {
            most = 80;
        }
    }
    for line in text.lines() {
        if line.len() > most {
            return false;
        }
    }
    true
}

impl Row for Drive {
    fn tell(&self, wrong: &mut WrongRows, rt: &HostRuntime) {
        let alloc = rt.alloc();
        let mut progress = Progress::new(alloc, self.turns);
        for group in self.groups {
            count(&mut progress, group);
        }
        let has_line = is_text(progress.line(alloc, self.micros), self.line);
        let has_table = is_text(progress.table(alloc), self.table);
        wrong.unless(
            has_table & has_line & is_narrow(self, self.table),
            self.name,
        );
    }
}

// A body that names a table costs much to prove, so a function hands each on.
fn kinds() -> &'static [Drive] {
    &KINDS
}

fn columns() -> &'static [Drive] {
    &COLUMNS
}

/// Checks the lines and the tables of drives.
pub fn tell_drives(wrong: &mut WrongRows, rt: &HostRuntime) {
    go_over_all(wrong, rt, "lines", &[kinds(), columns()]);
}
