//! What befalls the core of a shard from outside a run shows in the run: the cores that it plays lie open here.
use commands::schedule;
use lives::{Life, Run};
use made::{WrongRows, stamp};
use message::Input;
use std::alloc::Global;
use truetime::Reading;
use units::Fault;
use world::{Event, Reply};

// Before the first Commit comes, which is event 3, the core of shard 0 is to serve up to 500, with a device call of it armed or
// with none. It answers `Ok` or fails, and each event has its reply.
struct Outside {
    name: &'static str,
    call: Option<u64>,
    fails: bool,
    schedule: &'static str,
    replies: &'static [&'static str],
}

static OUTSIDE: [Outside; 2] = [
    // The core is stopped, until it is opened.
    Outside {
        name: "a call fails",
        call: Some(0),
        fails: true,
        schedule: "shards 2
split m
stride 0
100 begin 1.1
100 write 1.1 a 1
100 close 1.1
105 deliver 0 100 110
106 open 0
107 look 0 a 1
108 deliver 0 100 110
112 settle 0 1.1 112 121
",
        replies: &["ok", "ok", "ok", "Stopped", "ok", "NotYet", "ok", "ok"],
    },
    // The Commit is above the time that is served.
    Outside {
        name: "a time is served",
        call: None,
        fails: false,
        schedule: "shards 2
split m
stride 0
100 begin 1.1
100 write 1.1 a 1
100 close 1.1
105 deliver 0 100 110
106 look 0 a 500
107 look 0 a 501
501 settle 0 1.1 501 510
502 settle 0 1.1 502 510
503 look 0 a 501
",
        replies: &[
            "ok", "ok", "ok", "ok", "none", "NotYet", "Early", "ok", "=1",
        ],
    },
];

// A reply by one word.
fn word_of(reply: &Reply) -> &'static str {
    match reply {
        Reply::Done => "ok",
        Reply::Refused(Fault::Stopped) => "Stopped",
        Reply::Refused(Fault::NotYet) => "NotYet",
        Reply::Refused(Fault::Early) => "Early",
        Reply::Shows(None) => "none",
        Reply::Shows(Some(value)) if value.as_bytes() == b"1".as_slice() => "=1",
        _ => "another",
    }
}

// Whether the core of the first shard, which is to serve up to 500, answers as it should.
fn befalls(run: &mut Run<'_>, alloc: Global, outside: &Outside) -> bool {
    let Some(shard) = run.shards.shards.first_mut() else {
        return false;
    };
    let Life::Up(core) = &mut shard.life else {
        return false;
    };
    let Ok(now) = Reading::new(stamp(500), stamp(510)) else {
        return false;
    };
    core.arm(outside.call);
    let input = Input::Advance(stamp(500));
    let answer = core.on(alloc, &now, &input);
    drop(input);
    match answer {
        Ok(outbox) => {
            drop(outbox);
            !outside.fails
        }
        Err(fault) => outside.fails && fault == Fault::Device,
    }
}

// Each event has its reply, and the core answers as it should.
fn are_replied(run: &mut Run<'_>, alloc: Global, events: &[Event], outside: &Outside) -> bool {
    for (number, event) in events.iter().enumerate() {
        if number == 3 && !befalls(run, alloc, outside) {
            return false;
        }
        let Ok(reply) = run.take(alloc, number as u64, event) else {
            return false;
        };
        let word = word_of(&reply);
        drop(reply);
        if outside.replies.get(number) != Some(&word) {
            return false;
        }
    }
    events.len() == outside.replies.len()
}

fn is_so(alloc: Global, outside: &Outside) -> bool {
    let Ok((config, events)) = schedule(alloc, outside.schedule) else {
        return false;
    };
    let so = match Run::start(alloc, &config) {
        Ok(mut run) => {
            let replied = are_replied(&mut run, alloc, &events, outside);
            run.spend();
            replied
        }
        Err(_) => false,
    };
    drop(config);
    drop(events);
    so
}

/// Goes over all rows.
pub fn go_over(wrong: &mut WrongRows, alloc: Global) {
    for outside in &OUTSIDE {
        wrong.unless(is_so(alloc, outside), outside.name);
    }
}
