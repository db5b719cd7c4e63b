//! One transaction over three shards is stopped at each device call of each append: the shard crashes in the call, or the call fails. Then
//! the shard is opened, each message comes once more, the transaction is settled, and each message comes again. In the end it is committed on
//! all three, at one timestamp. The same has to hold if each shard's log was turned over after the decision.
use crate::given::{AMPLE, File, PLAY, print};
use crate::stops::{Stop, all_stops};
use made::WrongRows;
use std::alloc::{AllocError, Global};

const BEGUN: &str = "shards 3
split m
split s
stride 0
100 begin 1.1
100 write 1.1 a 1
100 write 1.1 n 2
100 write 1.1 t 3
100 close 1.1
";

// What a shard does at a true time.
struct Step {
    time: u64,
    shard: u8,
    act: &'static str,
}

// Events 5 to 12: the Commit, two promises, two votes, of which the second decides, the settling, and two outcomes.
static STEPS: [Step; 8] = [
    Step {
        time: 105,
        shard: 0,
        act: "deliver 0 100 110",
    },
    Step {
        time: 205,
        shard: 1,
        act: "deliver 1 200 210",
    },
    Step {
        time: 215,
        shard: 2,
        act: "deliver 2 210 220",
    },
    Step {
        time: 225,
        shard: 0,
        act: "deliver 3 220 230",
    },
    Step {
        time: 235,
        shard: 0,
        act: "deliver 4 230 240",
    },
    Step {
        time: 245,
        shard: 0,
        act: "settle 0 1.1 240 250",
    },
    Step {
        time: 255,
        shard: 1,
        act: "deliver 6 250 260",
    },
    Step {
        time: 265,
        shard: 2,
        act: "deliver 7 260 270",
    },
];

// A step in which its shard stops, by its place among the steps. The transaction's timestamp is `kept` if the step's record is kept, and else
// `lost`.
struct Stopped {
    name: &'static str,
    place: usize,
    kept: u64,
    lost: u64,
}

static STOPPED: [Stopped; 6] = [
    Stopped {
        name: "the promise of shard 1",
        place: 1,
        kept: 300,
        lost: 300,
    },
    Stopped {
        name: "the promise of shard 2",
        place: 2,
        kept: 210,
        lost: 300,
    },
    Stopped {
        name: "the decision",
        place: 4,
        kept: 210,
        lost: 311,
    },
    Stopped {
        name: "the settling",
        place: 5,
        kept: 210,
        lost: 210,
    },
    Stopped {
        name: "the outcome at shard 1",
        place: 6,
        kept: 210,
        lost: 210,
    },
    Stopped {
        name: "the outcome at shard 2",
        place: 7,
        kept: 210,
        lost: 210,
    },
];

// The place of the decision among the steps.
const DECISION: usize = 4;

// After the decision each shard's log is turned over.
const TURNED: &str = "236 turn 0
236 turn 1
236 turn 2
";

// A body that names a table costs much to prove, so each is handed on.
fn steps() -> &'static [Step] {
    &STEPS
}

fn all_stopped() -> &'static [Stopped] {
    &STOPPED
}

// Adds the events up to the stop, and the opening after it.
fn add_stop(
    text: &mut String,
    stopped: &Stopped,
    stop: &Stop,
    call: u64,
    turned: bool,
) -> Result<(), AllocError> {
    text.push_str(BEGUN)?;
    for (place, step) in steps().iter().enumerate() {
        let Step { time, shard, act } = step;
        if turned && place == DECISION + 1 {
            text.push_str(TURNED)?;
        }
        if place < stopped.place {
            write!(text, "{time} {act}\n")?;
        } else if place == stopped.place {
            let Stop { word, fate, .. } = stop;
            write!(
                text,
                "{time} {word} {shard} {call}{fate} {act}\n290 open {shard}\n"
            )?;
        }
    }
    Ok(())
}

// What the program prints of a schedule.
fn played(alloc: Global, text: &str) -> Vec<u8> {
    let file = File {
        path: "a.schedule",
        bytes: text.as_bytes(),
    };
    print(alloc, &[&[file]], PLAY, AMPLE).out
}

// How many messages a schedule puts out.
fn count_put(alloc: Global, text: &str) -> u64 {
    let report = played(alloc, text);
    let mut count: u64 = 0;
    if let Ok(report) = str::from_utf8(&report) {
        for line in report.split_inclusive('\n') {
            if line.starts_with("put ") {
                count = count.saturating_add(1);
            }
        }
    }
    count
}

// Each message comes at that true time and reading, also those that are put out meanwhile.
fn deliver_all(
    alloc: Global,
    text: &mut String,
    time: u64,
    reading: &str,
) -> Result<(), AllocError> {
    let mut next = 0;
    for _ in 0..10 {
        let count = count_put(alloc, text.as_str());
        if count == next {
            return Ok(());
        }
        for message in next..count {
            write!(text, "{time} deliver {message} {reading}\n")?;
        }
        next = count;
    }
    Ok(())
}

// The lines of a report that tell which log begins, how a transaction ended in it, and the verdict.
fn endings(alloc: Global, report: &str) -> Result<String, AllocError> {
    let mut endings = String::new(alloc);
    for line in report.split_inclusive('\n') {
        if line.starts_with("log ")
            || line.starts_with("outcome ")
            || line.starts_with("verdict ")
        {
            endings.push_str(line)?;
        }
    }
    Ok(endings)
}

// In the logs of all three shards the transaction is committed at that timestamp, once, and the verdict is yes.
fn is_committed(alloc: Global, report: &[u8], at: u64) -> bool {
    let wanted = format!(in alloc;
        "log 0
outcome 1.1 committed {at}
log 1
outcome 1.1 committed {at}
log 2
outcome 1.1 committed {at}
verdict yes
"
    );
    let Ok(report) = str::from_utf8(report) else {
        return false;
    };
    match (wanted, endings(alloc, report)) {
        (Ok(wanted), Ok(endings)) => endings.as_bytes() == wanted.as_bytes(),
        _ => false,
    }
}

// The schedule of a stop, to its end.
fn whole(
    alloc: Global,
    stopped: &Stopped,
    stop: &Stop,
    call: u64,
    turned: bool,
) -> Result<String, AllocError> {
    let mut text = String::new(alloc);
    add_stop(&mut text, stopped, stop, call, turned)?;
    deliver_all(alloc, &mut text, 305, "300 310")?;
    text.push_str("405 settle 0 1.1 400 410\n")?;
    deliver_all(alloc, &mut text, 505, "500 510")?;
    Ok(text)
}

// The calls of an append.
const CALLS: u64 = 4;

fn is_so(alloc: Global, stopped: &Stopped, stop: &Stop, call: u64, turned: bool) -> bool {
    let Ok(text) = whole(alloc, stopped, stop, call, turned) else {
        return false;
    };
    let at = if stop.keeps(call, CALLS) {
        stopped.kept
    } else {
        stopped.lost
    };
    is_committed(alloc, &played(alloc, text.as_str()), at)
}

// A stop in each call comes to what the row says. Its place is that of the stop, and the call. The byte of an open gate makes its write whole,
// as the fate `new` does, and is not tried.
fn go_over_calls(wrong: &mut WrongRows, alloc: Global, stopped: &Stopped, turned: bool) {
    for (number, stop) in all_stops().iter().enumerate() {
        let calls = if stop.fate == " a5" { 0 } else { CALLS };
        for call in 0..calls {
            let place = (number as u64).saturating_mul(10).saturating_add(call);
            let right = is_so(alloc, stopped, stop, call, turned);
            wrong.unless_at(right, stopped.name, place);
        }
    }
}

/// Goes over all rows. Those after the decision come twice: the second time each shard's log is turned over after it.
pub fn go_over(wrong: &mut WrongRows, alloc: Global) {
    for stopped in all_stopped() {
        go_over_calls(wrong, alloc, stopped, false);
        if stopped.place > DECISION {
            go_over_calls(wrong, alloc, stopped, true);
        }
    }
}
