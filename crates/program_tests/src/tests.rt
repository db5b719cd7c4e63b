//! The tests of written runs and of the program, each of some areas.
use crate::verdict::end;
use crate::{
    asked, each_call, explained, outside, places, played, pruned, schedule_texts, stops, told_as,
    words,
};
use made::WrongRows;

// Fails if a command, a schedule or a refusal comes to anything but its row.
#[test]
fn answers(rt: HostRuntime) {
    let alloc = rt.alloc();
    let mut wrong = WrongRows::none(alloc);
    asked::go_over_answers(wrong.of("answers"), alloc);
    asked::go_over_refusals(wrong.of("refusals"), alloc);
    told_as::go_over_told(wrong.of("what is told otherwise"), alloc);
    pruned::go_over(wrong.of("pruned logs"), alloc);
    let told = asked::counts_no_log(alloc);
    wrong.of("numbers").unless(told, "no log");
    words::go_over(wrong.of("words"), alloc);
    played::go_over(wrong.of("files that are played"), alloc);
    places::go_over(wrong.of("places of faults"), alloc);
    explained::go_over(wrong.of("words that are explained"), alloc);
    schedule_texts::go_over(wrong.of("texts"), alloc);
    outside::go_over(wrong.of("outside"), alloc);
    end(&rt, wrong);
}

// Fails if a stop in a device call leaves anything but its row says.
#[test]
fn stops_in_calls(rt: HostRuntime) {
    let alloc = rt.alloc();
    let mut wrong = WrongRows::none(alloc);
    stops::go_over(&mut wrong, alloc);
    end(&rt, wrong);
}

// Fails if a transaction that is stopped in any call of its appends is not committed whole in the end.
#[test]
fn stops_in_each_call(rt: HostRuntime) {
    let alloc = rt.alloc();
    let mut wrong = WrongRows::none(alloc);
    each_call::go_over(&mut wrong, alloc);
    end(&rt, wrong);
}
