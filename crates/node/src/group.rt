//! Inputs that a core takes as a group, and what is due after them.
ghost use Rattle.std.specs.Prelude.{◌≡◌, ◌≤◌, [], None, List, IfOk, IfErr, IfSome, length, vec_capacity};
ghost use Rattle.node.specs.Grouped.{AreLeftOut, HasFailedAll, HasTakenAll, IsAheadWith, IsDue, and_unless, taken_of};
ghost use Rattle.shard.specs.Core.{seen, book_of};
ghost use Rattle.shard.specs.Gathered.{seen_ahead};
ghost use Rattle.shard.specs.Groups.{Arrival, IsAheadOf, IsLeftOut};
ghost use Rattle.shard.specs.On.{CoreView, step_of};

use disk::Disk;
use letters::Taken;
use message::Input;
use shard::{Ahead, Core};
use std::alloc::Global;
use truetime::Reading;
use units::Fault;

// So many steps that are due are taken after the inputs of a group.
const MOST_DUE: usize = 128;

// Takes inputs into a group that has none, in order, and after them what is due. Then it appends their records, and gives the core with what
// they have put out. If the device fails, only the disk is left.
pub(crate) fn take_group<D: Disk>(
    ahead: Ahead<D>,
    alloc: Global,
    now: &Reading,
    inputs: &[Input],
    refusals: Vec<Option<Fault>>,
) -> Result<(Core<D>, Taken), D>
    requires empty { refusals.items ≡ [] }
    requires room { length inputs.now ≤ vec_capacity refusals }
    ensures taken { IfOk result (λ done. (from : CoreView D)
        → IsAheadOf D.file D.clock D.since D.failures from (seen_ahead ahead) []
        → HasTakenAll D.keeps_model D.file D.clock D.since D.failures from (seen done.0)
        now.now inputs.now done.1.refusals.items done.1.outboxes.items) }
    ensures book { IfOk result (λ done. book_of done.0 ≡ None) }
    ensures failed { IfErr result (λ disk. (from : CoreView D)
        → IsAheadOf D.file D.clock D.since D.failures from (seen_ahead ahead) []
        → HasFailedAll D.keeps_model D.file D.clock D.since D.failures from disk
        now.now inputs.now) }
{
    let mut ahead = ahead;
    let refusals = take_inputs(&mut ahead, alloc, now, inputs, refusals);
    take_due(&mut ahead, alloc, now);
    match ahead.commit() {
        Ok((core, outboxes)) => Ok((core, Taken { refusals, outboxes })),
        Err(halted) => {
            drop(refusals);
            Err(halted.stop())
        }
    }
}

// Takes inputs into a group, in order. Gives for each why it was refused, if it was.
fn take_inputs<D: Disk>(
    ahead: &mut Ahead<D>,
    alloc: Global,
    now: &Reading,
    inputs: &[Input],
    refusals: Vec<Option<Fault>>,
) -> Vec<Option<Fault>>
    requires empty { refusals.items ≡ [] }
    requires room { length inputs.now ≤ vec_capacity refusals }
    ensures count { length result.items ≡ length inputs.now }
    ensures ahead { (from : CoreView D)
        → IsAheadOf D.file D.clock D.since D.failures from (seen_ahead ahead.old) []
        → IsAheadOf D.file D.clock D.since D.failures from (seen_ahead ahead.new)
        (taken_of now.now inputs.now result.items) }
    ensures left { (from : CoreView D)
        → IsAheadOf D.file D.clock D.since D.failures from (seen_ahead ahead.old) []
        → AreLeftOut from [] now.now inputs.now result.items }
{
    let mut refusals = refusals;
    for input in inputs {
        refusals.push_reserved(take_one(ahead, alloc, now, input));
    }
    refusals
}

// Takes what is due after the inputs of a group: waits that can be granted, and what is decided and has passed.
fn take_due<D: Disk>(ahead: &mut Ahead<D>, alloc: Global, now: &Reading)
    ensures { (from : CoreView D) → (arrivals : List Arrival)
        → IsAheadOf D.file D.clock D.since D.failures from (seen_ahead ahead.old) arrivals
        → IsAheadWith D.file D.clock D.since D.failures from (seen_ahead ahead.new)
        now.now arrivals }
{
    for _due in 0..MOST_DUE {
        let Some(input) = next_due(ahead, now) else {
            return;
        };
        let refused = take_one(ahead, alloc, now, &input);
        drop(input);
        if refused.is_some() {
            return;
        }
    }
}

// Takes an input into a group. Gives why it was refused, if it was.
fn take_one<D: Disk>(
    ahead: &mut Ahead<D>,
    alloc: Global,
    now: &Reading,
    input: &Input,
) -> Option<Fault>
    ensures ahead { (from : CoreView D) → (arrivals : List Arrival)
        → IsAheadOf D.file D.clock D.since D.failures from (seen_ahead ahead.old) arrivals
        → IsAheadOf D.file D.clock D.since D.failures from (seen_ahead ahead.new)
        (and_unless arrivals now.now input.now result) }
    ensures cause { IfSome result (IsLeftOut (seen_ahead ahead.old).core.gate
        (seen_ahead ahead.old).records
        (step_of (seen_ahead ahead.old).core now.now input.now)) }
{
    match ahead.take(alloc, now, input) {
        Ok(()) => None,
        Err(fault) => Some(fault),
    }
}

// The next step that is due at a reading after the inputs of a group.
fn next_due<D: Disk>(ahead: &Ahead<D>, now: &Reading) -> Option<Input>
    ensures { IfSome result IsDue }
{
    if ahead.ready().is_some() {
        return Some(Input::Resume);
    }
    match ahead.earliest_decided() {
        Some((txn, at)) if now.after(at) => Some(Input::Settle(txn)),
        _ => None,
    }
}
