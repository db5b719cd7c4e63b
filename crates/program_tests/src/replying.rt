//! Checks of the replies of a run by themselves. Which shards are up before an event tells which refusals are due.
use crate::sight::{OTHER, sent_of};
use crate::steps::{Does, Step, Stop};
use crate::totals::Totals;
use commands::Report;
use units::Fault;
use world::Reply;

// What a reply says, as far as it is told by which shards are up.
#[derive(Clone, Copy)]
enum Said {
    Done,
    Stopped,
    Device,
    Memory,
    Crashed,
    Other,
}

fn said_by(reply: &Reply) -> Said {
    match reply {
        Reply::Done => Said::Done,
        Reply::Refused(Fault::Stopped) => Said::Stopped,
        Reply::Refused(Fault::Device) => Said::Device,
        Reply::Refused(Fault::Memory) => Said::Memory,
        Reply::Refused(_) | Reply::Shows(_) => Said::Other,
        Reply::Crashed => Said::Crashed,
    }
}

#[derive(Clone, Copy)]
enum Standing {
    Up,
    Stopped,
    Down,
}

// The step is one of a shard that is not up, or a look at one that is down. An opening is no such step.
fn rests(does: Does, standing: Standing) -> bool {
    match does {
        Does::Look => match standing {
            Standing::Down => true,
            _ => false,
        },
        Does::Deliver
        | Does::Take
        | Does::Resume
        | Does::Settle
        | Does::Advance
        | Does::Nudge
        | Does::Forget
        | Does::Turn => match standing {
            Standing::Up => false,
            _ => true,
        },
        _ => false,
    }
}

// What the shard of a step is after it, if the reply is one that is due. A shard that rests refuses as stopped, and no other does. Only a
// call that was to fail is refused by the device. Of a crash it is said that it came, and of an opening that it is done.
fn behind(standing: Standing, step: &Step, said: Said, totals: &mut Totals) -> Option<Standing> {
    let rests = rests(step.does, standing);
    let (opens, crashes) = match step.does {
        Does::Open => (true, false),
        Does::Crash => (false, true),
        _ => (false, false),
    };
    let (fails, crashes) = match step.stop {
        Stop::Never => (false, crashes),
        Stop::CrashIn(_, _) => (false, true),
        Stop::FailIn(_) => (true, false),
    };
    match said {
        Said::Crashed if crashes => {
            totals.crashed = totals.crashed.saturating_add(1);
            Some(Standing::Down)
        }
        _ if crashes => None,
        Said::Device if fails && !rests => {
            totals.failed = totals.failed.saturating_add(1);
            Some(if opens {
                Standing::Down
            } else {
                Standing::Stopped
            })
        }
        Said::Stopped if rests => Some(standing),
        Said::Done if opens => {
            if !fails {
                totals.opened = totals.opened.saturating_add(1);
            }
            Some(Standing::Up)
        }
        Said::Other if opens && fails => Some(Standing::Up),
        Said::Done | Said::Other if !rests && !opens => Some(standing),
        _ => None,
    }
}

// What a shard has surely forgotten, and what it has at most.
#[derive(Clone, Copy)]
struct Forgotten {
    sure: u64,
    most: u64,
}

// Whether the reply is due by what is forgotten. What a shard was asked to forget is surely forgotten if that is done, and may be if the
// shard stopped. A look below what is surely forgotten shows nothing, and only one below what may be is too old.
fn agrees(forgotten: &mut Forgotten, step: &Step, reply: &Reply, totals: &mut Totals) -> bool {
    match (step.does, reply) {
        (Does::Forget, Reply::Done) => {
            forgotten.sure = forgotten.sure.max(step.at);
            forgotten.most = forgotten.most.max(step.at);
            true
        }
        (Does::Forget, Reply::Crashed | Reply::Refused(Fault::Device)) => {
            forgotten.most = forgotten.most.max(step.at);
            true
        }
        (Does::Forget, Reply::Refused(Fault::NotYet)) => {
            totals.early = totals.early.saturating_add(1);
            step.at > forgotten.sure
        }
        (Does::Look, Reply::Shows(_)) => forgotten.sure <= step.at,
        (Does::Look | Does::View, Reply::Refused(Fault::TooOld)) => {
            totals.old = totals.old.saturating_add(1);
            step.at < forgotten.most
        }
        (_, Reply::Refused(Fault::TooOld)) => false,
        _ => true,
    }
}

// The shard that a message goes to.
fn receiver(report: &Report, number: u64) -> u8 {
    match report.bag.nth(number) {
        Some(envelope) => sent_of(envelope).shard,
        None => OTHER.shard,
    }
}

/// Tells whether there is a reply to each event, and each is due by which shards are up, and by what they have forgotten.
pub fn are_due(report: &Report, steps: &[Step], totals: &mut Totals) -> bool {
    let mut standings = [Standing::Up; 3];
    let mut all_forgotten = [Forgotten { sure: 0, most: 0 }; 3];
    for (step, reply) in steps.iter().zip(&report.replies) {
        let shard = match step.does {
            Does::Deliver => receiver(report, step.number),
            _ => step.shard,
        };
        let mut other = Standing::Up;
        let standing = match standings.get_mut(shard as usize) {
            Some(standing) => standing,
            None => &mut other,
        };
        match behind(*standing, step, said_by(reply), totals) {
            Some(next) => *standing = next,
            None => return false,
        }
        if let Some(forgotten) = all_forgotten.get_mut(step.shard as usize) {
            if !agrees(forgotten, step, reply, totals) {
                return false;
            }
        }
    }
    report.replies.len() == steps.len()
}
