//! Numbers of viewers that no board has. They are refused, what was given comes back, and nothing is logged.
use crate::cores::{core_of, formatted, plain, setup};
use crate::logs::{Line, with_log};
use crate::verdict::end;
use made::WrongRows;
use node::{Core, Desk, Node};
use simdisk::SimDisk;
use std::alloc::Global;
use std::process::Abort;
use std::sync::Wait;
use units::{Fault, Reason};

const MANY: Fault = Fault::BadRequest(Reason::Many);

const OPENED: &[Line] = &[Line::Opened(1)];

static COUNTS: [usize; 2] = [0, 65];

fn fresh(rt: &impl Abort, alloc: Global) -> Core<SimDisk> {
    core_of(rt, alloc, formatted(rt, alloc), plain(1, 0))
}

fn desk_of_core<R: Wait + Abort>(wrong: &mut WrongRows, rt: &R, alloc: Global, count: usize) {
    let name = "a desk of a core";
    match Desk::new(rt, alloc, fresh(rt, alloc), count) {
        Ok((desk, viewers)) => {
            drop(viewers);
            drop(desk);
            wrong.unless_at(false, name, count as u64);
        }
        Err((fault, core)) => {
            wrong.unless_at(fault == MANY, name, count as u64);
            drop(with_log(wrong, alloc, core.stop(), name, OPENED, &[]));
        }
    }
}

fn desk_of_disk<R: Wait + Abort>(wrong: &mut WrongRows, rt: &R, alloc: Global, count: usize) {
    let name = "a desk of a disk";
    let told = setup(rt, alloc, plain(1, 0));
    match Desk::open(rt, alloc, formatted(rt, alloc), &told, count) {
        Ok((desk, viewers)) => {
            drop(viewers);
            drop(desk);
            wrong.unless_at(false, name, count as u64);
        }
        Err((fault, disk)) => {
            wrong.unless_at(fault == MANY, name, count as u64);
            drop(with_log(wrong, alloc, disk, name, &[], &[]));
        }
    }
    drop(told);
}

fn node_of_core<R: Wait + Abort>(wrong: &mut WrongRows, rt: &R, alloc: Global, count: usize) {
    let name = "a node of a core";
    match Node::new(rt, alloc, fresh(rt, alloc), count) {
        Ok((node, viewers)) => {
            drop(viewers);
            drop(node);
            wrong.unless_at(false, name, count as u64);
        }
        Err((fault, core)) => {
            wrong.unless_at(fault == MANY, name, count as u64);
            drop(with_log(wrong, alloc, core.stop(), name, OPENED, &[]));
        }
    }
}

/// Shows that desks and nodes with 0 or with 65 viewers are refused.
#[test]
fn no_board_has_so_many_viewers(rt: HostRuntime) {
    let mut wrong = WrongRows::none(rt.alloc());
    for count in &COUNTS {
        desk_of_core(&mut wrong, &rt, rt.alloc(), *count);
        desk_of_disk(&mut wrong, &rt, rt.alloc(), *count);
        node_of_core(&mut wrong, &rt, rt.alloc(), *count);
    }
    end(&rt, wrong);
}
