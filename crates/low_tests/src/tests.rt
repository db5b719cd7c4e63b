//! The tests, each of some areas. A body that names several tables costs much to prove, so most tables have a
//! function of their own.
use crate::checks::{end, go_over};
use crate::{
    beside, causes, clocks, crowd, devices, disks, documents, drawers, files, grouped, handed,
    horizons, known, ledgers, left, limits, looks, messages, migrated, plain, records, refusals,
    renewed, seated, sessions, spellings, tables, turned, verdicts, versioned,
};
use made::{Folder, WrongRows};

/// Shows the limits and texts of the small types, verdicts, readings, ceilings and safe times.
#[test]
fn small_types_and_texts(rt: HostRuntime) {
    let alloc = rt.alloc();
    let mut wrong = WrongRows::none(alloc);
    limits::go_over(wrong.of("limits"), alloc);
    refusals::go_over(wrong.of("words"));
    records::go_over(wrong.of("records"), alloc);
    messages::go_over(wrong.of("messages"), alloc);
    documents::go_over(wrong.of("settings"), alloc);
    verdicts::go_over(wrong.of("verdicts"), alloc);
    clocks::tell_readings(&mut wrong, &rt);
    clocks::tell_ceilings(&mut wrong, &rt);
    wrong.of("safe times").unless(
        clocks::is_held_below(alloc),
        "below a promise until it is settled",
    );
    wrong.unless(clocks::are_lifted(alloc), "one hold is lifted at a time");
    end(&rt, wrong);
}

/// Shows lock tables, rows, sessions, tickets and boards.
#[test]
fn stories(rt: HostRuntime) {
    let alloc = rt.alloc();
    let mut wrong = WrongRows::none(alloc);
    tables::tell_stories(&mut wrong, &rt);
    seated::go_over(wrong.of("rows"), alloc);
    sessions::go_over(wrong.of("sessions"), alloc);
    drawers::go_over(wrong.of("tickets"), &rt, alloc);
    looks::go_over(wrong.of("looks"), &rt, alloc);
    end(&rt, wrong);
}

/// Shows lock tables with a thousand waiters, and drawn requests that a plain table answers alike.
#[test]
fn crowded_lock_tables(rt: HostRuntime) {
    let alloc = rt.alloc();
    let mut wrong = WrongRows::none(alloc);
    go_over(&mut wrong, &rt, "a thousand waiters", &crowd::CROWDS);
    plain::go_over(wrong.of("a plain lock table"), alloc);
    end(&rt, wrong);
}

/// Shows disks in memory and in files, the spelling of records, and logs that are written, torn and opened again.
#[test]
fn disks_and_logs(rt: HostRuntime) {
    let mut wrong = WrongRows::none(rt.alloc());
    devices::tell_failing(&mut wrong, &rt);
    devices::tell_lives(&mut wrong, &rt);
    disks::tell_files(&mut wrong, &rt);
    causes::tell_causes(&mut wrong, &rt);
    spellings::tell_vectors(&mut wrong, &rt);
    spellings::tell_read(&mut wrong, &rt);
    files::tell_cases(&mut wrong, &rt);
    files::tell_files(&mut wrong, &rt);
    grouped::tell_groups(&mut wrong, &rt);
    end(&rt, wrong);
}

/// Shows logs that are turned over, and files of version 1 that are copied.
#[test]
fn turned_and_migrated_logs(rt: HostRuntime) {
    let mut wrong = WrongRows::none(rt.alloc());
    turned::tell_turned(&mut wrong, &rt);
    wrong.unless(turned::ends(&rt), "a log without a slot left");
    migrated::tell_migrated(&mut wrong, &rt);
    migrated::tell_failing(&mut wrong, &rt);
    end(&rt, wrong);
}

/// Shows that logs are read at one moment while another thread appends to them, renews them, or moves them to new files.
#[test]
fn logs_that_are_written_to(rt: HostRuntime) {
    let folder = Folder::new(&rt).ok().expect(&rt, "a folder");
    let mut wrong = WrongRows::none(rt.alloc());
    wrong.unless(
        beside::are_read_beside_appends(&rt, &rt, &folder),
        "appended to",
    );
    wrong.unless(
        beside::are_read_beside_turnovers(&rt, &rt, &folder),
        "renewed",
    );
    wrong.unless(
        beside::are_read_beside_moves(&rt, &rt, &folder),
        "moved to new files",
    );
    wrong.unless(folder.remove(&rt), "the folder");
    end(&rt, wrong);
}

/// Shows what is found of versions, also of drawn ones, and which a horizon leaves.
#[test]
fn versions(rt: HostRuntime) {
    let mut wrong = WrongRows::none(rt.alloc());
    versioned::tell_looked(&mut wrong, &rt);
    go_over(&mut wrong, &rt, "drawn versions", &versioned::DRAWN);
    go_over(
        &mut wrong,
        &rt,
        "many versions behind a horizon",
        &horizons::MANY,
    );
    end(&rt, wrong);
}

/// Shows what a log determines, what a renewed log is made of, and what logs leave when they are opened again.
#[test]
fn what_is_kept_of_logs(rt: HostRuntime) {
    let mut wrong = WrongRows::none(rt.alloc());
    known::tell_cases(&mut wrong, &rt);
    handed::tell_handed(&mut wrong, &rt);
    left::tell_reopened(&mut wrong, &rt);
    renewed::tell_renewed(&mut wrong, &rt);
    let installed = ledgers::is_installed(rt.alloc());
    wrong
        .of("ledgers")
        .unless(installed, "a promise is installed");
    end(&rt, wrong);
}
