//! The test, of some areas.
use crate::{drive_lines, figures, screens, terminals};
use made::WrongRows;

/// Shows rates and percentiles, and what a drive shows at the terminal.
#[test]
fn what_is_shown(rt: HostRuntime) {
    let alloc = rt.alloc();
    let mut wrong = WrongRows::none(alloc);
    figures::go_over(wrong.of("figures"));
    drive_lines::tell_drives(&mut wrong, &rt);
    screens::tell_screens(&mut wrong, &rt);
    terminals::go_over(wrong.of("terminals"), &rt, alloc);
    assert!(&rt; wrong.is_none(), "{}", wrong.text());
    drop(wrong);
}
