//! A stop at each device call: the call fails, or the shard crashes in it. The first call of an append writes a record after the gate, the
//! second makes that durable, the third opens the gate, and the fourth makes that durable. A turnover makes one call more.
use crate::comparing::reports;
use made::WrongRows;
use std::alloc::{AllocError, Global};

/// A stop in a device call.
pub struct Stop {
    /// The word of the event: `crash` or `fail`.
    pub word: &'static str,
    /// What a crash makes of the write under way; empty if the call fails.
    pub fate: &'static str,
    /// In how many of the last calls it keeps what was written; the last but one opens the gate.
    pub kept: u64,
}

static STOPS: [Stop; 5] = [
    Stop {
        word: "crash",
        fate: " old",
        kept: 0,
    },
    Stop {
        word: "crash",
        fate: " new",
        kept: 2,
    },
    // The byte of an open gate.
    Stop {
        word: "crash",
        fate: " a5",
        kept: 2,
    },
    // Another byte.
    Stop {
        word: "crash",
        fate: " 37",
        kept: 0,
    },
    Stop {
        word: "fail",
        fate: "",
        kept: 1,
    },
];

impl Stop {
    /// Tells whether the call fails; else the shard crashes in it.
    pub fn fails(&self) -> bool {
        self.fate.is_empty()
    }

    /// Tells whether this stop keeps what was written, in a call of so many.
    pub fn keeps(&self, call: u64, calls: u64) -> bool {
        call.saturating_add(self.kept) >= calls
    }
}

// A call of the first Commit fails. What comes next, at 108, comes to a shard that its device stopped: a look is answered, and
// since it makes no call, a crash in one comes at once. What is said of these events, and of what is left.
struct Failed {
    name: &'static str,
    call: u64,
    then: &'static str,
    said: &'static str,
    left: &'static str,
}

const LOOKS: &str = "108 look 0 a 1
109 open 0
115 settle 0 1.1 112 121
";

const LOST: &str = "log 0
opened 1
opened 2
log 1
opened 1
lines
begin 1.1 0
look a 0 none
verdict yes
";

const KEPT: &str = "put 1 session 1.1 done 1.1 committed 111
log 0
opened 1
commit 1.1 111 0 - a=1
opened 2
outcome 1.1 committed 111
log 1
opened 1
lines
begin 1.1 0
look a 0 none
ack 1.1 111 8
verdict yes
";

static FAILED: [Failed; 8] = [
    Failed {
        name: "the record is not written",
        call: 0,
        then: LOOKS,
        said: "event 6 refused 9 NotYet\nevent 8 refused 14 Stranger\n",
        left: LOST,
    },
    Failed {
        name: "the record is not made durable",
        call: 1,
        then: LOOKS,
        said: "event 6 refused 9 NotYet\nevent 8 refused 14 Stranger\n",
        left: LOST,
    },
    Failed {
        name: "the gate is not opened",
        call: 2,
        then: LOOKS,
        said: "event 6 refused 9 NotYet\nevent 8 refused 14 Stranger\n",
        left: LOST,
    },
    Failed {
        name: "the open gate is not made durable",
        call: 3,
        then: "108 look 0 a 1\n109 open 0\n",
        said: "event 6 refused 9 NotYet\n",
        left: "log 0
opened 1
commit 1.1 111 0 - a=1
opened 2
log 1
opened 1
lines
begin 1.1 0
look a 0 none
verdict yes
",
    },
    Failed {
        name: "the open gate is not made durable, and the transaction is settled",
        call: 3,
        then: LOOKS,
        said: "event 6 refused 9 NotYet\n",
        left: KEPT,
    },
    Failed {
        name: "the open gate is not made durable, and a crash undoes it",
        call: 3,
        then: "108 crash 0\n109 open 0\n115 settle 0 1.1 112 121\n",
        said: "event 6 crashed\nevent 8 refused 14 Stranger\n",
        left: LOST,
    },
    Failed {
        name: "the open gate is not made durable, and a crash keeps it",
        call: 3,
        then: "108 crash 0 0 new resume 0 100 110\n109 open 0\n115 settle 0 1.1 112 121\n",
        said: "event 6 crashed\n",
        left: KEPT,
    },
    Failed {
        name: "the gate is not opened, and a crash makes that write whole",
        call: 2,
        then: "108 crash 0 0 new resume 0 100 110\n109 open 0\n115 settle 0 1.1 112 121\n",
        said: "event 6 crashed\n",
        left: KEPT,
    },
];

// A schedule comes to what is wanted, if there was memory for both.
fn comes_to(
    alloc: Global,
    schedule: Result<String, AllocError>,
    wanted: Result<String, AllocError>,
) -> bool {
    match (schedule, wanted) {
        (Ok(schedule), Ok(wanted)) => reports(alloc, schedule.as_str(), wanted.as_str()),
        _ => false,
    }
}

fn has_failed(alloc: Global, row: &Failed) -> bool {
    let schedule = format!(in alloc;
        "shards 2
split m
stride 0
100 begin 1.1
100 write 1.1 a 1
100 close 1.1
105 fail 0 {} deliver 0 100 110
106 deliver 0 100 110
107 look 0 a 0
{}",
        row.call, row.then
    );
    let wanted = format!(in alloc;
        "event 3 refused 2 Device
event 4 refused 3 Stopped
event 5 none
{}put 0 shard 0 commit 1.1 0 0 - a=1
{}",
        row.said, row.left
    );
    comes_to(alloc, schedule, wanted)
}

// What shard 1 is to do as it stops, in so many calls, and what comes before it and then. What is said of a crash, and of a call that fails
// if that is tried. Then, what is said if what was written is lost, and if it is kept.
struct Act {
    name: &'static str,
    calls: u64,
    before: &'static str,
    act: &'static str,
    then: &'static str,
    crashed: &'static str,
    failed: &'static str,
    lost: &'static str,
    kept: &'static str,
}

// The former log is left, or the new one.
const FORMER: &str = "log 0
opened 1
log 1
opened 1
ceiling 200
opened 2
lines
look z 200 none
verdict yes
";

const NEW: &str = "log 0
opened 1
log 1
base 1 200 0
opened 2
lines
look z 200 none
verdict yes
";

static ACTS: [Act; 3] = [
    // It serves up to the same time after the opening. If it is lost, the ceiling was not logged before the crash.
    Act {
        name: "an advance",
        calls: 4,
        before: "",
        act: "advance 1 200 200 210",
        then: "206 look 1 z 0
207 open 1
208 look 1 z 200
209 advance 1 200 200 210
210 look 1 z 200
",
        crashed: "event 0 crashed\nevent 1 refused 3 Stopped\n",
        failed: "",
        lost: "event 3 refused 9 NotYet
event 5 none
log 0
opened 1
log 1
opened 1
opened 2
ceiling 200
lines
look z 200 none
verdict yes
",
        kept: "event 3 none
event 5 none
log 0
opened 1
log 1
opened 1
ceiling 200
opened 2
lines
look z 200 none
look z 200 none
verdict yes
",
    },
    // It serves up to 200, and is to forget what is below 150. If the horizon was not logged, a look below it is answered, until it is
    // logged.
    Act {
        name: "a horizon",
        calls: 4,
        before: "205 advance 1 200 200 210\n",
        act: "forget 1 150 200 210",
        then: "207 open 1
208 look 1 z 149
209 forget 1 150 200 210
210 look 1 z 149
210 look 1 z 150
",
        crashed: "event 1 crashed\n",
        failed: "event 1 refused 2 Device\n",
        lost: "event 3 none
event 5 refused 15 TooOld
event 6 none
log 0
opened 1
log 1
opened 1
ceiling 200
opened 2
horizon 150
lines
look z 149 none
look z 150 none
verdict yes
",
        kept: "event 3 refused 15 TooOld
event 5 refused 15 TooOld
event 6 none
log 0
opened 1
log 1
opened 1
ceiling 200
horizon 150
opened 2
lines
look z 150 none
verdict yes
",
    },
    // It serves up to 200.
    Act {
        name: "a turnover",
        calls: 5,
        before: "205 advance 1 200 200 210\n",
        act: "turn 1",
        then: "207 open 1\n208 look 1 z 200\n",
        crashed: "event 1 crashed\nevent 3 none\n",
        failed: "event 1 refused 2 Device\nevent 3 none\n",
        lost: FORMER,
        kept: NEW,
    },
];

// The shard stops in a call of the act, and what is said is what is wanted.
fn is_so(alloc: Global, act: &Act, stop: &Stop, call: u64) -> bool {
    let schedule = format!(in alloc;
        "shards 2
split m
stride 0
{}206 {} 1 {call}{} {}
{}",
        act.before, stop.word, stop.fate, act.act, act.then
    );
    let said = if stop.fails() {
        act.failed
    } else {
        act.crashed
    };
    let left = if stop.keeps(call, act.calls) {
        act.kept
    } else {
        act.lost
    };
    comes_to(alloc, schedule, format!(in alloc; "{said}{left}"))
}

// A stop in each call comes to what the row says, and so does a crash after the last. The place is that of the stop, and of the call.
fn go_over_calls(wrong: &mut WrongRows, alloc: Global, act: &Act) {
    for (number, stop) in all_stops().iter().enumerate() {
        let calls = if stop.fails() {
            act.calls
        } else {
            act.calls.saturating_add(1)
        };
        if !stop.fails() || !act.failed.is_empty() {
            for call in 0..calls {
                let place = (number as u64).saturating_mul(10).saturating_add(call);
                wrong.unless_at(is_so(alloc, act, stop, call), act.name, place);
            }
        }
    }
}

// A call of the turnover fails, and the shard crashes with this fate of what was not synced.
fn is_left(alloc: Global, call: u64, fate: &str, opens: bool) -> bool {
    let schedule = format!(in alloc;
        "shards 2
split m
stride 0
205 advance 1 200 200 210
206 fail 1 {call} turn 1
206 crash 1 0 {fate} turn 1
207 open 1
208 look 1 z 200
"
    );
    let left = if opens && call > 2 { NEW } else { FORMER };
    let wanted = format!(in alloc;
        "event 1 refused 2 Device\nevent 2 crashed\nevent 4 none\n{left}"
    );
    comes_to(alloc, schedule, wanted)
}

// A log that is turned over 1,024 times has no slot left, and goes on.
fn add_turns(text: &mut String) -> Result<(), AllocError> {
    text.push_str("shards 1\nstride 0\n")?;
    for _ in 0..1_025 {
        text.push_str("1 turn 0\n")?;
    }
    text.push_str("2 advance 0 5 1 9\n3 crash 0\n4 open 0\n5 turn 0\n")
}

fn is_spent(alloc: Global) -> bool {
    let mut text = String::new(alloc);
    let right = match add_turns(&mut text) {
        Ok(()) => reports(
            alloc,
            text.as_str(),
            "event 1024 refused 4 TimeSpent
event 1026 crashed
event 1028 refused 4 TimeSpent
log 0
base 1 0 0
ceiling 5
opened 2
lines
verdict yes
",
        ),
        Err(_) => false,
    };
    drop(text);
    right
}

/// Goes over all rows.
pub fn go_over(wrong: &mut WrongRows, alloc: Global) {
    for row in all_failed() {
        wrong.unless(has_failed(alloc, row), row.name);
    }
    for act in all_acts() {
        go_over_calls(wrong, alloc, act);
    }
    for call in 0..5 {
        for (fate, opens) in [("old", false), ("new", true), ("a5", true), ("37", false)] {
            wrong.unless_at(is_left(alloc, call, fate, opens), fate, call);
        }
    }
    wrong.unless(is_spent(alloc), "slots");
}

/// Gives all kinds of stops. A body that names a table costs much to prove, so each is handed on.
pub fn all_stops() -> &'static [Stop] {
    &STOPS
}

fn all_failed() -> &'static [Failed] {
    &FAILED
}

fn all_acts() -> &'static [Act] {
    &ACTS
}
