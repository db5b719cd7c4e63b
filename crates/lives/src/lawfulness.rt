//! Which events may happen.
ghost use Rattle.std.specs.Prelude.{◌≡◌, ℕ, Some, None};
ghost use Rattle.truetime.specs.Reading.{is_honest};
ghost use Rattle.world.specs.World.{World};
ghost use Rattle.world.specs.Lawful.{may_act, may_do};
ghost use Rattle.world.specs.Hosts.{Hosts};
ghost use Rattle.lives.specs.Fleet.{act_shard, known_of};

use crate::fleet::Known;
use crate::life::opens;
use message::{Address, Bag};
use truetime::Reading;
use units::{ShardNo, Stamp};
use world::{Act, Doing, Sessions};

// Whether the reading holds the true time.
fn is_honest(time: u64, now: &Reading) -> bool
    ensures { result ≡ is_honest time now.now }
{
    now.earliest().micros() <= time && time <= now.latest().micros()
}

/// Returns the shard of an act, if it is one of a shard.
pub fn shard_of(act: &Act) -> Option<ShardNo>
    ensures { result ≡ act_shard act.now }
{
    match act {
        Act::At(shard, _) => Some(*shard),
        Act::Look(shard, _, _) => Some(*shard),
        Act::View(shard, _, _, _) => Some(*shard),
        Act::Crash(shard) => Some(*shard),
        Act::CrashIn(shard, _, _, _, _) => Some(*shard),
        Act::FailIn(shard, _, _, _) => Some(*shard),
        _ => None,
    }
}

/// Tells whether an act of no shard may happen. It is that of a session, or the delivery of a message to a shard or to a session that
/// has begun.
#[tactic(auto, unfolding(world::specs::Lawful::may_act))]
pub fn may_come(sessions: &Sessions<'_>, bag: &Bag, time: u64, act: &Act) -> bool
    ensures { (w : World) → Hosts w.config.splits sessions.now w.clients → bag.now ≡ w.bag
        → act_shard act.now ≡ None → result ≡ may_act w time act.now }
{
    match act {
        Act::Begin(txn) => !sessions.has(*txn),
        Act::Read(txn, _) => sessions.has(*txn),
        Act::Write(txn, _, _) => sessions.has(*txn),
        Act::Close(txn) => sessions.has(*txn),
        Act::Quit(txn) => sessions.has(*txn),
        Act::Deliver(number, now) => {
            is_honest(time, now)
                && match bag.nth(*number) {
                    Some(envelope) => match envelope.to {
                        Address::Shard(_) => true,
                        Address::Session(txn) => sessions.has(txn),
                    },
                    None => false,
                }
        }
        _ => false,
    }
}

/// Tells whether an act of a shard may happen, by what is known of the shard.
#[tactic(auto, unfolding(world::specs::Lawful::may_act))]
pub fn may_be_done(known: Known, bag: &Bag, time: u64, act: &Act) -> bool
    ensures { (w : World) (n : ℕ) → act_shard act.now ≡ Some n → known ≡ known_of w.shards n
        → bag.now ≡ w.bag → result ≡ may_act w time act.now }
{
    match act {
        Act::At(shard, doing) => known.exists && may_do(known, bag, time, *shard, doing),
        Act::Look(_, _, _) => known.exists,
        Act::View(_, number, _, _) => *number < known.views,
        Act::Crash(_) => known.stands,
        Act::CrashIn(shard, _, _, at, doing) => {
            known.exists
                && shard.number() == at.number()
                && may_do(known, bag, time, *shard, doing)
                && (opens(doing) || known.stands)
        }
        Act::FailIn(shard, _, at, doing) => {
            known.exists && shard.number() == at.number() && may_do(known, bag, time, *shard, doing)
        }
        _ => false,
    }
}

// Whether a shard may do this, by what is known of it. A message that it takes must be sent to it.
fn may_do(known: Known, bag: &Bag, time: u64, shard: ShardNo, doing: &Doing) -> bool
    ensures { (w : World) → known ≡ known_of w.shards shard → bag.now ≡ w.bag
        → result ≡ may_do w time shard doing.now }
{
    match doing {
        Doing::Take(number, now) => {
            is_honest(time, now)
                && match bag.nth(*number) {
                    Some(envelope) => match envelope.to {
                        Address::Shard(to) => to.number() == shard.number(),
                        Address::Session(_) => false,
                    },
                    None => false,
                }
        }
        Doing::Resume(now) => is_honest(time, now),
        Doing::Settle(_, now) => is_honest(time, now),
        Doing::Advance(at, now) => is_honest(time, now) && at.micros() <= Stamp::MAX,
        Doing::Nudge(_, now) => is_honest(time, now),
        Doing::Forget(at, now) => is_honest(time, now) && at.micros() <= Stamp::MAX,
        Doing::Retire(_, now) => is_honest(time, now),
        Doing::Turn => true,
        Doing::Open => known.rests,
    }
}
