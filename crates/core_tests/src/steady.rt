//! Copies of a clock that share the greatest time of their readings.
use crate::given::{Standing, reading};
use crate::verdict::end;
use made::{WrongRows, stamp};
use node::SteadyClock;
use std::process::Abort;
use std::sync::atomic::AtomicU64;
use truetime::Clock;

// The two ends of a reading.
type Ends = (u64, u64);

// Two copies of a clock go on from a timestamp. The clocks below them read these readings, one after the other, and the copies tell those.
struct Row {
    name: &'static str,
    from: u32,
    reads: [Ends; 2],
    tells: [Ends; 2],
}

// Whether a clock tells a reading with these ends.
fn is_told(clock: &mut impl Clock, ends: Ends) -> bool {
    match clock.now() {
        Some(now) => now.earliest().micros() == ends.0 && now.latest().micros() == ends.1,
        None => false,
    }
}

// Checks what each of the two copies tells.
fn tell(wrong: &mut WrongRows, rt: &impl Abort, row: &Row) {
    let reached = AtomicU64::new(0);
    let [one, other] = row.reads;
    let [first, second] = row.tells;
    let mut clock = SteadyClock {
        clock: Standing {
            now: reading(rt, one.0, one.1),
        },
        from: stamp(row.from),
        reached: &reached,
    };
    let mut copy = SteadyClock {
        clock: Standing {
            now: reading(rt, other.0, other.1),
        },
        ..clock
    };
    wrong.unless_at(is_told(&mut clock, first), row.name, 1);
    wrong.unless_at(is_told(&mut copy, second), row.name, 2);
}

static ROWS: [Row; 3] = [
    Row {
        name: "a reading ends where that of a copy ended",
        from: 0,
        reads: [(190, 200), (90, 100)],
        tells: [(190, 200), (90, 200)],
    },
    Row {
        name: "a reading that ends later is as it is",
        from: 0,
        reads: [(90, 100), (190, 200)],
        tells: [(90, 100), (190, 200)],
    },
    Row {
        name: "a copy has reached from where it goes on",
        from: 300,
        reads: [(190, 200), (90, 100)],
        tells: [(190, 300), (90, 300)],
    },
];

/// Shows that copies of a clock share what their readings have reached.
#[test]
fn clocks_go_back(rt: HostRuntime) {
    let mut wrong = WrongRows::none(rt.alloc());
    for row in &ROWS {
        tell(&mut wrong, &rt, row);
    }
    end(&rt, wrong);
}
