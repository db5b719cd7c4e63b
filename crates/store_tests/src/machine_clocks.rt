//! The machine's clock as intervals.
use drive::MachineClock;
use std::rt::HostRuntime;
use std::time;
use truetime::Clock;

// The machine's clock, in microseconds.
fn micros<R: time::Clock>(rt: &R) -> Option<u64> {
    let since = rt.since_1970().ok()?;
    u64::try_from(since.as_micros()).ok()
}

// A reading is as wide as twice epsilon, around the machine's clock at some moment of the call.
fn is_around<R: time::Clock>(rt: &R, epsilon: u64) -> bool {
    let mut clock = MachineClock { rt, epsilon };
    let before = micros(rt);
    let reading = clock.now();
    let (Some(before), Some(now), Some(behind)) = (before, reading, micros(rt)) else {
        return false;
    };
    let (earliest, latest) = (now.earliest().micros(), now.latest().micros());
    before.saturating_add(epsilon) <= latest
        && latest <= behind.saturating_add(epsilon)
        && latest.saturating_sub(earliest) == epsilon.saturating_mul(2)
}

// Fails if a reading is not epsilon wide to both sides of the machine's clock: for 0, a millisecond and a second.
#[test]
fn readings_are_around_the_clock(rt: HostRuntime) {
    assert!(rt; is_around(&rt, 0) && is_around(&rt, 1_000) && is_around(&rt, 1_000_000));
}
