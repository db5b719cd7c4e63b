//! The tests of cores, and of nodes with their viewers. A body that names a table costs much to prove, so a function hands each table on.
use crate::booked::keep_books;
use crate::coordinating::coordinating;
use crate::turned_nodes::turning;
use crate::verdict::end;
use crate::viewed::viewed;
use crate::{
    damaged, grouped, grouped_nodes, moved_nodes, nodes, one_commit, promising, reopening,
    restarts, retiring, served, stories, together,
};
use made::WrongRows;

/// Shows that commits, alone and beside others, go as their stories say. It fails if a call always answers `Memory`.
#[test]
fn always_memory(rt: HostRuntime) {
    let mut wrong = WrongRows::none(rt.alloc());
    stories::tell(&mut wrong, &rt, rt.alloc(), one_commit::commits());
    stories::tell(&mut wrong, &rt, rt.alloc(), one_commit::beside());
    end(&rt, wrong);
}

/// Shows that cores answer and show what the stories say, and that their books replay.
#[test]
fn cores(rt: HostRuntime) {
    let mut wrong = WrongRows::none(rt.alloc());
    for table in [
        one_commit::failing(),
        coordinating(),
        promising::promises(),
        promising::readers(),
        served::advances(),
        served::looks(),
        reopening::reopened(),
        reopening::unended(),
        reopening::armed(),
        reopening::refused(),
        retiring::decided(),
        retiring::promised(),
        retiring::reopened(),
    ] {
        stories::tell(&mut wrong, &rt, rt.alloc(), table);
    }
    keep_books(&mut wrong, &rt, rt.alloc());
    end(&rt, wrong);
}

/// Shows that cores that take inputs as a group do what they do with one input after another, also if the group fails.
#[test]
fn cores_take_groups(rt: HostRuntime) {
    let mut wrong = WrongRows::none(rt.alloc());
    for table in [
        one_commit::commits(),
        one_commit::beside(),
        coordinating(),
        promising::promises(),
        promising::readers(),
        served::advances(),
        served::looks(),
        reopening::reopened(),
        reopening::unended(),
        retiring::decided(),
        retiring::promised(),
        retiring::reopened(),
    ] {
        grouped::tell(&mut wrong, &rt, rt.alloc(), table);
    }
    grouped::fail(&mut wrong, &rt, rt.alloc());
    end(&rt, wrong);
}

/// Shows how files are opened that are cut, or have another byte or other slots.
#[test]
fn damaged_files(rt: HostRuntime) {
    let mut wrong = WrongRows::none(rt.alloc());
    damaged::cut_to_each_length(&mut wrong, &rt, rt.alloc());
    damaged::with_one_byte_altered(&mut wrong, &rt, rt.alloc());
    damaged::with_slots_altered(&mut wrong, &rt, rt.alloc());
    damaged::another_byte(&mut wrong, &rt, rt.alloc());
    end(&rt, wrong);
}

/// Shows that damaged files of version 1 are migrated, or refused by name.
#[test]
fn damaged_files_of_version_1(rt: HostRuntime) {
    let mut wrong = WrongRows::none(rt.alloc());
    damaged::ten_thousand(&mut wrong, &rt, rt.alloc());
    end(&rt, wrong);
}

/// Shows that shards are opened at the same time, and not one after another.
#[test]
fn shards_are_opened_side_by_side(rt: HostRuntime) {
    together::open_rows(&rt, rt.alloc());
}

/// Shows that nodes are opened again and turn their logs over. It fails if a node says that it turned its log over, and did not.
#[test]
fn nodes_are_opened_again_and_turned_over(rt: HostRuntime) {
    let mut wrong = WrongRows::none(rt.alloc());
    nodes::tell(&mut wrong, &rt, rt.alloc(), restarts::nodes());
    nodes::tell(&mut wrong, &rt, rt.alloc(), turning());
    end(&rt, wrong);
}

/// Shows that nodes go on in a new disk if their log is long, and stay in theirs if there is none, if it fails or does not get the place. It fails if a
/// node goes on in the new disk before that has the place, or says that it moved and did not.
#[test]
fn long_logs_move(rt: HostRuntime) {
    let mut wrong = WrongRows::none(rt.alloc());
    moved_nodes::check(&mut wrong, &rt, rt.alloc());
    end(&rt, wrong);
}

/// Shows that nodes take inputs together, answer each in its place, and show what they showed if the device fails in a group.
#[test]
fn nodes_take_groups(rt: HostRuntime) {
    let mut wrong = WrongRows::none(rt.alloc());
    nodes::tell(&mut wrong, &rt, rt.alloc(), grouped_nodes::together());
    end(&rt, wrong);
}

/// Shows that a node delivers each input once, and advances once.
#[test]
fn each_call_is_one_input(rt: HostRuntime) {
    let mut wrong = WrongRows::none(rt.alloc());
    nodes::tell(&mut wrong, &rt, rt.alloc(), restarts::once());
    end(&rt, wrong);
}

/// Shows what a viewer sees beside a node. It fails if viewers always answer that they are stopped.
#[test]
fn always_stopped_viewer(rt: HostRuntime) {
    let mut wrong = WrongRows::none(rt.alloc());
    nodes::tell(&mut wrong, &rt, rt.alloc(), viewed());
    end(&rt, wrong);
}
