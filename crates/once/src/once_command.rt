//! The command `once`: one write from the command line to the log.
ghost use Rattle.std.specs.Prelude.{◌≡◌, ◌⊎◌, Some, Ok, Err, ◌<◌, IfOk, IfErr, string_bytes, nat_eq, List, ℕ};
ghost use Rattle.std.specs.Io.KnownBytes.{Appends};
ghost use Rattle.units.specs.declared.fault.Fault.{Fault};
ghost use Rattle.units.specs.declared.fault.Fault.TheVariants.{Memory};
ghost use Rattle.output.specs.Failures.{FailsFor};
ghost use Rattle.output.specs.declared.failure.Failure.TheVariants.{Refused};
ghost use Rattle.once.specs.Replies.{commit_line, first_stamp, done_line, once_reply};
ghost use Rattle.once.specs.Shards.{HasLog, IsLogged, new_log, log_after};
ghost use Rattle.output.specs.Streams.{failures_of, writer_of};
ghost use Rattle.disk.specs.declared.plan.FailurePlan.TheVariants.{Never};
ghost use Rattle.simdisk.specs.State.{disk_plan};
ghost use Rattle.shard.specs.Core.{seen};

use crate::one_shard::{commit, only_txn, open_new, settle};
use output::{Failure, Stream};
use shard::Core;
use simdisk::SimDisk;
use std::alloc::Global;
use std::io::Write;
use truetime::Reading;
use units::{Fault, Key, Stamp, Value};

/// Commits the write at the first reading and settles it at the second, in a new shard on the disk. The status is 0, or 1 if the second
/// reading is too early. The disk comes back; its log holds what was printed.
pub fn once<O: Write>(
    alloc: Global,
    key: Key,
    value: Value,
    first: &Reading,
    second: &Reading,
    disk: SimDisk,
    out: &mut Stream<O>,
) -> (Result<u8, Failure>, SimDisk)
    requires { disk_plan disk ≡ Never }
    ensures status { IfOk result.0 (λ status. (status ≡ 0) ⊎ (status ≡ 1)) }
    ensures printed { IfOk result.0
        (λ status. (text : List ℕ) × (once_reply first.now second.now ≡ Ok (text, status))
        × Appends (O.contents (writer_of out.old)) (O.contents (writer_of out.new)) text) }
    ensures logged { IfOk result.0 (λ status. IsLogged key value first.now status result.1) }
    ensures refused { (fault : Fault) → once_reply first.now second.now ≡ Err fault
        → out.new ≡ out.old }
    ensures failures { IfErr result.0 (λ failure.
        FailsFor (failures_of out.old < failures_of out.new) failure
        (Some (once_reply first.now second.now))) }
    ensures counted { (fault : Fault) → result.0 ≡ Err (Refused fault)
        → failures_of out.new ≡ failures_of out.old }
{
    let mut core = match open_new(alloc, disk) {
        Ok(core) => core,
        Err((fault, disk)) => return (Err(Failure::Refused(fault)), disk),
    };
    let status = commit_and_settle(alloc, &mut core, key, value, first, second, out);
    (status, core.stop())
}

fn commit_and_settle<O: Write>(
    alloc: Global,
    core: &mut Core<SimDisk>,
    key: Key,
    value: Value,
    first: &Reading,
    second: &Reading,
    out: &mut Stream<O>,
) -> Result<u8, Failure>
    requires { HasLog new_log (seen core.old) }
    ensures status { IfOk result (λ status. (status ≡ 0) ⊎ (status ≡ 1)) }
    ensures printed { IfOk result
        (λ status. (text : List ℕ) × (once_reply first.now second.now ≡ Ok (text, status))
        × Appends (O.contents (writer_of out.old)) (O.contents (writer_of out.new)) text) }
    ensures refused { (fault : Fault) → once_reply first.now second.now ≡ Err fault
        → out.new ≡ out.old }
    ensures log { IfOk result (λ status. (stamp : ℕ) × (first_stamp first.now ≡ Ok stamp)
        × HasLog (log_after (nat_eq status 0) key value stamp) (seen core.new)) }
    ensures failures { IfErr result (λ failure.
        FailsFor (failures_of out.old < failures_of out.new) failure
        (Some (once_reply first.now second.now))) }
    ensures counted { (fault : Fault) → result ≡ Err (Refused fault)
        → failures_of out.new ≡ failures_of out.old }
{
    let stamp = commit(alloc, core, key, value, first)?;
    out.print(&committed(alloc, stamp)?)?;
    if settle(alloc, core, second)? {
        out.print(&done(alloc, stamp)?)?;
        Ok(0)
    } else {
        out.print("early\n")?;
        Ok(1)
    }
}

fn committed(alloc: Global, stamp: Stamp) -> Result<String, Fault>
    ensures line { IfOk result (λ line. string_bytes line ≡ commit_line stamp) }
    ensures memory { IfErr result (λ fault. fault ≡ Memory) }
{
    let id = only_txn();
    Ok(format!(in alloc; "commit {id} at {stamp}\n")?)
}

fn done(alloc: Global, stamp: Stamp) -> Result<String, Fault>
    ensures line { IfOk result (λ line. string_bytes line ≡ done_line stamp) }
    ensures memory { IfErr result (λ fault. fault ≡ Memory) }
{
    let id = only_txn();
    Ok(format!(in alloc; "done {id} committed {stamp}\n")?)
}
